//! The machine: how it starts, its turns, and its state in parts.

ghost use Rattle.std.specs.Prelude.{◌≡◌, ◌≢◌, [], ◌≤◌, ◌+◌, ◌%◌, ◌^◌, ◌++◌, true, false, Some, None, IsTrue, IsErr, IsSome, IfOk, IfErr, OnOk, OnErr, length};
ghost use Rattle.std.specs.Io.{StartsWith};
ghost use Rattle.std.specs.Option.{ForSome, option_copied};
ghost use Rattle.elf_load.specs.Boot.{boot_memory, elf_case};
ghost use Rattle.elf_load.specs.Elf.{entry_of};
ghost use Rattle.machine_bytes.specs.Legal.{IsLegal};
ghost use Rattle.state_wire.specs.Guest.{BeginsWith, CanReceive, IsFrame, KeepsKind, after_turn, sent_in, turn_of, with_bytes};
ghost use Rattle.shared_definitions.specs.Begins.{Begins};
ghost use Rattle.guest_machine.specs.Boot.{HasNumber, IsCaseOf, boot_state};
ghost use Rattle.guest_machine.specs.Guest.{accepts_frame, fields_of, guest_state, machine_meaning, platform_of, state_in};
ghost use Rattle.guest_machine.specs.Kinds.{KeepsSizes};
ghost use Rattle.guest_machine.specs.Turn.{finish_turn, make_turn, serve_request, serve_requests, start_turn};

use crate::fault::BootFault;
use colo_base::{Frames, NoMemory};
use elf_load::{ElfFault, load};
use machine_bytes::StateFields;
use page_track::Ram;
use rv_platform::Platform;
use state_wire::Guest;
use std::alloc::Global;
use std::marker::Model;
use virtio_blk::Disk;
use virtio_mmio::Served;

/// The address of memory's first byte.
const RAM_BASE: u64 = 0x8000_0000;

/// The bytes of a page.
const PAGE_SIZE: u64 = 4096;

/// A machine over a disk: a platform, how many turns it has made, and whether it ran out of memory.
///
/// Contracts see it as `MachineParts`. A machine that answered `NoMemory` to a call that may change
/// it answers it from then on, wherever the answer has it. Another answers it to a turn only where
/// the turn sends a frame, and never to the loading of a state.
#[derive(Drop)]
pub struct Machine<D: Disk + Drop> {
    platform: Platform,
    disk: D,
    turned: u64,
    spent: bool,
}

impl<D: Disk + Drop> Model for Machine<D> {
    ghost use Rattle.guest_machine.specs.Guest.{MachineParts};

    ghost Value = { MachineParts };

    ghost use Rattle.guest_machine.specs.Kinds.{IsOfKinds};

    ghost view = { λ m. record {
      state = record { platform = m.platform; disk = D.state m.disk };
      turned = m.turned;
      spent = m.spent;
    } };

    ghost invariant = { λ m. IsOfKinds m.platform (D.state m.disk) };
}

/// Loads an image into memory, and gives the address of its first instruction.
fn load_image(ram: &mut Ram, image: &[u8]) -> Result<u32, ElfFault>
    ensures no_case { OnOk result (elf_case (length ram.old.bytes) image.now ≡ None) }
    ensures entry { IfOk result (λ entry. entry ≡ entry_of image.now) }
    ensures aligned { IfOk result (λ entry. entry % 4 ≡ 0) }
    ensures memory { OnOk result
        (ram.new.bytes ≡ boot_memory (length ram.old.bytes) image.now) }
    ensures first_case { IfErr result (λ fault.
        elf_case (length ram.old.bytes) image.now ≡ Some fault.number) }
    ensures number_from { IfErr result (λ fault. 1 ≤ fault.number) }
    ensures number_to { IfErr result (λ fault. fault.number ≤ 12) }
{
    let size = ram.size();
    load(image, ram.lent(RAM_BASE, size))
}

impl<D: Disk + Drop> Machine<D> {
    /// The machine that starts from an ELF image, with this disk and so many MiB of memory, 1 to
    /// 64. A fault of the loader is the first of its twelve cases that holds.
    #[tactic(auto, unfolding(crate::specs::Boot::boot_state))]
    pub fn boot(alloc: Global, image: &[u8], disk: D, mib: u32) -> Result<Machine<D>, BootFault>
        requires least { 1 ≤ mib }
        requires most { mib ≤ 64 }
        ensures ok { IfOk result (λ m.
            boot_state mib image.now (D.state disk) ≡ Some m.state) }
        ensures turned { IfOk result (λ m. m.turned ≡ 0) }
        ensures fresh { IfOk result (λ m. m.spent ≡ false) }
        ensures fault { IfErr result (IsCaseOf mib image.now) }
        ensures number { IfErr result HasNumber }
    {
        let Ok(mut ram) = Ram::new(alloc, mib) else {
            return Err(BootFault::NoMemory);
        };
        match load_image(&mut ram, image) {
            Ok(entry) => {
                let platform = Platform::new(ram, entry, disk.sectors());
                Ok(Machine {
                    platform,
                    disk,
                    turned: 0,
                    spent: false,
                })
            }
            Err(fault) => Err(BootFault::Elf(fault)),
        }
    }

    /// Memory, from 0x80000000 on.
    pub fn ram(&self) -> &Ram
        ensures { result.now ≡ self.now.state.platform.memory }
    {
        self.platform.ram()
    }

    /// The disk.
    pub fn disk(&self) -> &D
        ensures { D.state result.now ≡ self.now.state.disk }
    {
        &self.disk
    }

    /// The values of the state's bytes.
    fn fields(&self) -> StateFields
        ensures value { result ≡ fields_of self.now.state.platform }
        ensures legal { IsLegal result }
        ensures back { let s = self.now.state in
            platform_of result s.platform.memory (length s.disk.mine) ≡ s.platform }
    {
        StateFields {
            hart: self.platform.hart(),
            csrs: self.platform.csrs(),
            net: self.platform.network(),
            neighbour: self.platform.neighbour(),
            block: self.platform.block(),
        }
    }

    /// The state is the one that its bytes, pages and sectors stand for.
    fn check_parts(&self)
        ensures { state_in (guest_state self.now.state) ≡ self.now.state }
    {
        let _bytes = self.fields().to_bytes();
        let _size = self.platform.ram().size();
    }

    /// Serves the next block request, if there is one.
    fn serve_request(&mut self) -> Served
        ensures state { self.new.state ≡ serve_request self.old.state }
        ensures idle { result ≡ Served.Idle → self.new.state ≡ self.old.state }
        ensures turned { self.new.turned ≡ self.old.turned }
        ensures spent { self.new.spent ≡ self.old.spent }
        ensures size { KeepsSizes self.old.state self.new.state }
    {
        self.platform.serve_block(&mut self.disk)
    }

    /// Serves at most so many block requests.
    #[tactic(auto, using(crate::proofs::TurnLemmas::no_requests, crate::proofs::TurnLemmas::one_request))]
    fn serve_requests(&mut self, requests: u32)
        ensures state { self.new.state ≡ serve_requests requests self.old.state }
        ensures turned { self.new.turned ≡ self.old.turned }
        ensures spent { self.new.spent ≡ self.old.spent }
        ensures size { KeepsSizes self.old.state self.new.state }
    {
        for _done in 0..requests {
            if let Served::Idle = self.serve_request() {
                return;
            }
        }
    }

    /// What comes before the steps of a turn.
    fn start_turn(&mut self, ticks: u64, frame: Option<&[u8]>, requests: u32)
        requires frame { ForSome frame (λ bytes. IsFrame bytes.now) }
        requires receives { IsSome frame → IsTrue (accepts_frame self.old.state) }
        ensures state { self.new.state
            ≡ start_turn self.old.state ticks (option_copied frame.entry) requests }
        ensures turned { self.new.turned ≡ self.old.turned }
        ensures spent { self.new.spent ≡ self.old.spent }
        ensures size { KeepsSizes self.old.state self.new.state }
    {
        self.platform.advance_clock(ticks);
        if let Some(frame) = frame {
            self.platform.receive_frame(frame);
        }
        self.serve_requests(requests);
    }

    /// The steps of a turn, which end it. After `NoMemory` the machine is spent.
    fn finish_turn(&mut self, steps: u32, out: &mut Frames) -> Result<(), NoMemory>
        ensures state { OnOk result (self.new.state ≡ (finish_turn self.old.state steps).state) }
        ensures frames { OnOk result
            (out.new ≡ out.old ++ (finish_turn self.old.state steps).frames) }
        ensures turned { OnOk result (self.new.turned ≡ (self.old.turned + 1) % 2 ^ 64) }
        ensures front { OnErr result (Begins out.old out.new) }
        ensures uncounted { OnErr result (self.new.turned ≡ self.old.turned) }
        ensures spent { OnErr result (self.new.spent ≡ true) }
        ensures cause { OnErr result ((finish_turn self.old.state steps).frames ≢ []) }
        ensures size { KeepsSizes self.old.state self.new.state }
    {
        match self.platform.run(steps, out) {
            Ok(()) => {
                self.turned = self.turned.wrapping_add(1);
                Ok(())
            }
            Err(fault) => {
                self.spent = true;
                Err(fault)
            }
        }
    }
}

impl<D: Disk + Drop> Guest for Machine<D> {
    ghost meaning = { machine_meaning };

    fn can_receive(&self) -> bool {
        self.check_parts();
        self.platform.can_receive()
    }

    fn turn(
        &mut self,
        ticks: u64,
        frame: Option<&[u8]>,
        requests: u32,
        steps: u32,
        out: &mut Frames,
    ) -> Result<(), NoMemory>
        requires frame { ForSome frame (λ bytes. IsFrame bytes.now) }
        requires receives { CanReceive (machine_meaning self.old) (option_copied frame) }
        requires requests { requests ≤ 256 }
        requires steps { steps ≤ 100000 }
        ensures after { OnOk result (machine_meaning self.new
            ≡ after_turn (machine_meaning self.old)
            (turn_of ticks (option_copied frame.entry) requests steps)) }
        ensures sent { OnOk result (out.new
            ≡ out.old ++ sent_in (machine_meaning self.old)
            (turn_of ticks (option_copied frame.entry) requests steps)) }
        ensures front { BeginsWith out.new out.old }
        ensures failed { OnErr result (KeepsKind
            (machine_meaning self.old) (machine_meaning self.new)) }
        ensures state { OnOk result (self.new.state ≡ (make_turn self.old.state
            (turn_of ticks (option_copied frame.entry) requests steps)).state) }
        ensures frames { OnOk result (out.new ≡ out.old ++ (make_turn self.old.state
            (turn_of ticks (option_copied frame.entry) requests steps)).frames) }
        ensures refuses { self.old.spent ≡ true → IsErr result }
        ensures cause { OnErr result (self.old.spent ≡ false → (make_turn self.old.state
            (turn_of ticks (option_copied frame.entry) requests steps)).frames ≢ []) }
        ensures spent { OnErr result (self.new.spent ≡ true) }
    {
        if self.spent {
            return Err(NoMemory);
        }
        self.check_parts();
        self.start_turn(ticks, frame, requests);
        self.finish_turn(steps, out)
    }

    fn turned(&self) -> u64 {
        self.turned
    }

    fn pages(&self) -> u32 {
        self.platform.ram().pages()
    }

    fn page(&self, k: u32) -> Option<&[u8]> {
        self.platform.ram().page(k)
    }

    fn sectors(&self) -> u32 {
        self.disk.sectors()
    }

    fn sector(&self, k: u32) -> Option<&[u8]> {
        if k < self.disk.sectors() {
            Some(self.disk.sector(k))
        } else {
            None
        }
    }

    fn state(&self, into: &mut Vec<u8>) -> Result<(), NoMemory>
        ensures bytes { OnOk result (into.new.items
            ≡ into.old.items ++ (machine_meaning self.now).state.bytes) }
        ensures accepted { OnOk result (IsTrue ((machine_meaning self.now).kind.accepts
            (machine_meaning self.now).state.bytes)) }
        ensures size { OnOk result (length (machine_meaning self.now).state.bytes ≤ 16777216) }
        ensures front { StartsWith into.new.items into.old.items }
        ensures refuses { self.now.spent ≡ true → IsErr result }
    {
        if self.spent {
            return Err(NoMemory);
        }
        let bytes = self.fields().to_bytes();
        into.extend_from_slice(&bytes)?;
        Ok(())
    }

    fn accepts(&self, state: &[u8]) -> bool {
        StateFields::read(state).is_some()
    }

    fn load_state(&mut self, state: &[u8]) -> Result<(), NoMemory>
        requires accepted { IsTrue ((machine_meaning self.old).kind.accepts state.now) }
        ensures ok { OnOk result
            (machine_meaning self.new ≡ with_bytes (machine_meaning self.old) state.now) }
        ensures failed { OnErr result (KeepsKind
            (machine_meaning self.old) (machine_meaning self.new)) }
        ensures refuses { self.old.spent ≡ true → IsErr result }
        ensures only { IsErr result → self.old.spent ≡ true }
        ensures spent { self.new.spent ≡ self.old.spent }
    {
        if self.spent {
            return Err(NoMemory);
        }
        let Some(f) = StateFields::read(state) else {
            return Ok(());
        };
        self.platform.set_hart(&f.hart, &f.csrs);
        self.platform.set_devices(&f.net, f.neighbour, &f.block);
        Ok(())
    }

    fn load_page(&mut self, k: u32, bytes: &[u8]) {
        if k < self.platform.ram().pages() {
            let address = RAM_BASE + u64::from(k) * PAGE_SIZE;
            self.platform.write_memory(address, bytes);
        }
    }

    fn load_sector(&mut self, k: u32, bytes: &[u8]) {
        if k >= self.disk.sectors() {
            return;
        }
        let mut sector = [0; 512];
        sector.copy_from_slice(bytes);
        self.disk.write_sector(k, &sector);
    }
}
