//! The platform, call by call.

ghost use Rattle.std.specs.Prelude.{◌≡◌, ◌≢◌, [], ◌%◌, ◌≤◌, length, IsTrue, OnOk, OnErr};
ghost use Rattle.virtio_net.specs.Port.{port_of};
ghost use Rattle.virtio_net.specs.Receive.{can_receive};
ghost use Rattle.shared_definitions.specs.Begins.{Begins};
ghost use Rattle.page_track.specs.Memory.{with_part};
ghost use Rattle.shared_definitions.specs.Memory.{is_inside};
ghost use Rattle.rv_platform.specs.Devices.{advance_clock, receive_frame, serve_block, start_platform};
ghost use Rattle.rv_platform.specs.Settled.{KeepsKinds, Leaves};
ghost use Rattle.rv_platform.specs.Step.{run_steps, unreserve_by};
ghost use Rattle.rv_platform.specs.Values.{IsLegalCsrs, IsLegalFor, IsLegalHart, MakesDevice, MakesHart, device_fields, hart_fields, with_devices, with_hart};

use crate::board::Board;
use crate::clint::Clint;
use crate::memo::Memo;
use crate::parts::Parts;
use colo_base::{Frames, NoMemory};
use page_track::Ram;
use rv_core::{Hart, HartFields};
use rv_traps::{CsrFields, Csrs};
use std::marker::Model;
use virtio_blk::{Blk, Disk};
use virtio_mmio::{DeviceFields, Served};
use virtio_net::Net;

/// A hart with its CSRs and timer, memory from 0x80000000 on, a network card at 0x10001000 and a
/// block device at 0x10002000.
///
/// Contracts see it as a `PlatformState`.
#[derive(Drop)]
pub struct Platform {
    parts: Parts,
}

impl Model for Platform {
    ghost use Rattle.rv_platform.specs.Step.{PlatformState};

    ghost Value = { PlatformState };

    ghost use Rattle.rv_platform.specs.Settled.{IsSettled, platform_of};

    ghost view = { λ p. platform_of p.parts };

    ghost invariant = { λ p. IsSettled p.parts };
}

/// Ends the reservation where a device found something to do.
fn unreserve_by(hart: &mut Hart, served: Served)
    ensures { hart.new ≡ unreserve_by served hart.old }
{
    match served {
        Served::Idle => {}
        Served::Done | Served::Broken(_) => hart.unreserve(),
    }
}

impl Platform {
    /// A platform with this memory that starts at `entry`, a multiple of 4, over a disk of so many
    /// sectors. Each register is 0, the CSRs are as they start, and both devices are reset.
    #[tactic(auto, unfolding(rv_traps::specs::Trap::boot_csrs))]
    pub fn new(ram: Ram, entry: u32, sectors: u32) -> Platform
        requires { entry % 4 ≡ 0 }
        ensures { result ≡ start_platform entry ram sectors }
    {
        let parts = Parts {
            hart: Hart::new(entry),
            csrs: Csrs::new(),
            board: Board {
                ram,
                clint: Clint {
                    msip: false,
                    mtimecmp: u64::MAX,
                    mtime: 0,
                },
                net: Net::new(),
                blk: Blk::new(sectors),
                touched: false,
                notified: false,
            },
            memo: Memo::new(),
        };
        Platform { parts }
    }

    /// The clock goes on by so many microseconds, modulo 2^64.
    pub fn advance_clock(&mut self, ticks: u64)
        ensures { self.new ≡ advance_clock self.old ticks }
    {
        self.parts.csrs.tick(ticks);
        self.parts.board.clint.mtime = self.parts.csrs.mtime();
    }

    /// Whether the network card can receive a frame.
    pub fn can_receive(&self) -> bool
        ensures { result ≡ can_receive (port_of self.now.net self.now.memory) }
    {
        self.parts.board.net.can_receive(&self.parts.board.ram)
    }

    /// The network card receives a frame of 14 to 1,514 bytes, as `can_receive` allows.
    #[tactic(auto, unfolding(crate::specs::Devices::receive_frame))]
    pub fn receive_frame(&mut self, frame: &[u8])
        requires can { IsTrue (can_receive (port_of self.old.net self.old.memory)) }
        requires least { 14 ≤ length frame.now }
        requires most { length frame.now ≤ 1514 }
        ensures after { self.new ≡ receive_frame self.old frame.now }
        ensures kinds { KeepsKinds self.old self.new }
    {
        let parts = &mut self.parts;
        parts.board.net.receive(&mut parts.board.ram, frame);
        parts.hart.unreserve();
        parts.csrs.external(parts.board.is_raised());
    }

    /// The block device serves the next request of its queue, if there is one.
    #[tactic(auto, using(crate::proofs::KindLemmas::serve_keeps_kind), unfolding(crate::specs::Devices::serve_block))]
    pub fn serve_block<D: Disk>(&mut self, disk: &mut D) -> Served
        ensures answer { result ≡ (serve_block self.old (D.state disk.old)).answer }
        ensures after { self.new ≡ (serve_block self.old (D.state disk.old)).platform }
        ensures disk { D.state disk.new ≡ (serve_block self.old (D.state disk.old)).disk }
        ensures kinds { KeepsKinds self.old self.new }
    {
        let parts = &mut self.parts;
        let served = parts.board.blk.serve(&mut parts.board.ram, disk);
        unreserve_by(&mut parts.hart, served);
        parts.csrs.external(parts.board.is_raised());
        served
    }

    /// Makes so many steps. The frames that are sent, other than ARP, are added to `out`.
    ///
    /// `NoMemory` comes only where these steps send a frame. Then nothing is stated of the rest but
    /// that `out` begins with what it held, that memory has its size, and that the devices are of
    /// their kinds.
    pub fn run(&mut self, steps: u32, out: &mut Frames) -> Result<(), NoMemory>
        ensures ok { OnOk result (Leaves (run_steps steps self.old) self.new out.old out.new) }
        ensures front { OnErr result (Begins out.old out.new) }
        ensures cause { OnErr result ((run_steps steps self.old).frames ≢ []) }
        ensures kinds { KeepsKinds self.old self.new }
    {
        self.parts.run(steps, out)
    }

    /// Memory.
    pub fn ram(&self) -> &Ram
        ensures { result.now ≡ self.now.memory }
    {
        &self.parts.board.ram
    }

    /// Writes bytes into memory from an address on, and changes nothing else.
    ///
    /// It asks that all of them are in memory.
    pub fn write_memory(&mut self, addr: u64, bytes: &[u8])
        requires { IsTrue (is_inside (length self.old.memory.bytes) addr (length bytes.now)) }
        ensures after { self.new
            ≡ record self.old { memory = with_part self.old.memory addr bytes.now } }
        ensures kinds { KeepsKinds self.old self.new }
    {
        self.parts.board.ram.write(addr, bytes);
    }

    /// The values that the hart holds.
    pub fn hart(&self) -> HartFields
        ensures value { result ≡ hart_fields self.now }
        ensures legal { IsLegalHart result }
        ensures back { MakesHart result self.now }
    {
        self.parts.hart.fields()
    }

    /// The values that the CSRs hold.
    pub fn csrs(&self) -> CsrFields
        ensures value { result ≡ self.now.csrs }
        ensures legal { IsLegalCsrs result }
    {
        self.parts.csrs.fields()
    }

    /// The values that the network card holds.
    pub fn network(&self) -> DeviceFields
        ensures value { result ≡ device_fields self.now.net.device }
        ensures legal { IsLegalFor self.now.net.device result }
        ensures back { MakesDevice result self.now.net.device }
    {
        self.parts.board.net.regs().fields()
    }

    /// The MAC address of the network card's neighbour.
    pub fn neighbour(&self) -> [u8; 6]
        ensures { result ≡ self.now.net.neighbour }
    {
        self.parts.board.net.neighbour()
    }

    /// The values that the block device holds.
    pub fn block(&self) -> DeviceFields
        ensures value { result ≡ device_fields self.now.blk }
        ensures legal { IsLegalFor self.now.blk result }
        ensures back { MakesDevice result self.now.blk }
    {
        self.parts.board.blk.regs().fields()
    }

    /// Sets the values of the hart and the CSRs. All else stays.
    pub fn set_hart(&mut self, hart: &HartFields, csrs: &CsrFields)
        requires hart { IsLegalHart hart.now }
        requires csrs { IsLegalCsrs csrs.now }
        ensures { self.new ≡ with_hart self.old hart.now csrs.now }
    {
        let parts = &mut self.parts;
        parts.hart.set_fields(hart);
        parts.csrs.set_fields(csrs);
        parts.board.clint = Clint {
            msip: csrs.msip,
            mtimecmp: csrs.mtimecmp,
            mtime: csrs.mtime,
        };
    }

    /// Sets the values of both devices. All else stays.
    pub fn set_devices(&mut self, network: &DeviceFields, neighbour: [u8; 6], block: &DeviceFields)
        requires network { IsLegalFor self.old.net.device network.now }
        requires block { IsLegalFor self.old.blk block.now }
        ensures { self.new ≡ with_devices self.old network.now neighbour block.now }
    {
        let parts = &mut self.parts;
        parts.board.net.regs_mut().set_fields(network);
        parts.board.net.set_neighbour(neighbour);
        parts.board.blk.regs_mut().set_fields(block);
        parts.csrs.external(parts.board.is_raised());
    }
}
