//! The block device, call by call.

ghost use Rattle.std.specs.Prelude.{◌≡◌, length, IsTrue};
ghost use Rattle.std.specs.Borrow.{sem};
ghost use Rattle.page_track.specs.Memory.{Memory};
ghost use Rattle.virt_queue.specs.Chain.{next_chain, is_given, chain_of, after_chain};
ghost use Rattle.virt_queue.specs.Parts.{parts_inside};
ghost use Rattle.virtio_mmio.specs.Device.{reset_device, fail_device};
ghost use Rattle.virtio_mmio.specs.declared.kind.Kind.TheVariants.{Block};
ghost use Rattle.virtio_mmio.specs.declared.kind.Served.{Served};
ghost use Rattle.virtio_blk.specs.Serve.{serve, serve_chain, return_answer, return_device, return_memory};

use crate::disk::Disk;
use crate::request::{HEADER_SIZE, serve_request};
use page_track::Ram;
use std::marker::Model;
use virt_queue::{Chain, RingFault};
use virtio_mmio::{Kind, Regs, Served};

/// A block device: its registers, over which a driver and the device meet.
///
/// Contracts see it as the `Device` of its registers.
#[derive(Drop)]
pub struct Blk {
    regs: Regs,
}

impl Model for Blk {
    ghost use Rattle.virtio_mmio.specs.Device.{Device};

    ghost Value = { Device };

    ghost view = { λ b. b.regs };
}

impl Blk {
    ghost use Rattle.virtio_blk.specs.Lending.{LendsRegs};

    /// A device of so many sectors after a reset.
    pub fn new(sectors: u32) -> Blk
        ensures { result ≡ reset_device (Block sectors) }
    {
        Blk {
            regs: Regs::new(Kind::Block { sectors }),
        }
    }

    /// Its registers.
    pub fn regs(&self) -> &Regs
        ensures { result.now ≡ self.now }
    {
        &self.regs
    }

    /// Its registers, to be written.
    pub fn regs_mut(&mut self) -> &mut Regs
        ensures* writes_back { sem 𝓛 (LendsRegs self.entry result) }
        ensures now { result.now ≡ self.old }
    {
        &mut self.regs
    }

    /// Serves the next request of its queue (VIRTIO 1.1, 5.2.6), and returns its chain. `Idle`
    /// comes exactly where the device isn't live or no chain is available, and `Broken` where the
    /// ring or a descriptor is at fault, or the request has fewer than 16 bytes of header or no
    /// place for the status (`Order`). It takes no memory.
    #[tactic(auto, unfolding(crate::specs::Serve::serve))]
    pub fn serve<D: Disk>(&mut self, ram: &mut Ram, disk: &mut D) -> Served
        ensures answer { result ≡ (serve self.old ram.old (D.state disk.old)).answer }
        ensures device { self.new ≡ (serve self.old ram.old (D.state disk.old)).device }
        ensures memory { ram.new ≡ (serve self.old ram.old (D.state disk.old)).memory }
        ensures disk { D.state disk.new ≡ (serve self.old ram.old (D.state disk.old)).disk }
        ensures size { length ram.new.bytes ≡ length ram.old.bytes }
    {
        if !self.regs.serves(0) {
            return Served::Idle;
        }
        let mut chain = Chain::new();
        match self.next_chain(ram, &mut chain) {
            Ok(false) => Served::Idle,
            Ok(true) => self.serve_chain(&chain, ram, disk),
            Err(fault) => self.fail(fault),
        }
    }

    /// The next chain of its queue, which must be ready.
    fn next_chain(&mut self, ram: &Ram, chain: &mut Chain) -> Result<bool, RingFault>
        requires { IsTrue self.old.first.ready }
        ensures answer { result ≡ is_given (next_chain ram.now.bytes self.old.first) }
        ensures chain { chain.new ≡ chain_of (next_chain ram.now.bytes self.old.first) }
        ensures device { self.new
            ≡ (let given = next_chain ram.now.bytes self.old.first in
            record self.old { first = after_chain self.old.first given }) }
        ensures ready { IsTrue self.new.first.ready }
        ensures inside { IsTrue (parts_inside (length ram.now.bytes) chain.new.parts) }
    {
        self.regs.first().next_chain(ram, chain)
    }

    /// Serves the request of a chain that was taken from the queue.
    fn serve_chain<D: Disk>(&mut self, chain: &Chain, ram: &mut Ram, disk: &mut D) -> Served
        requires ready { IsTrue self.old.first.ready }
        requires inside { IsTrue (parts_inside (length ram.old.bytes) chain.now.parts) }
        ensures answer { result
            ≡ (serve_chain self.old ram.old (D.state disk.old) chain.now).answer }
        ensures device { self.new
            ≡ (serve_chain self.old ram.old (D.state disk.old) chain.now).device }
        ensures memory { ram.new
            ≡ (serve_chain self.old ram.old (D.state disk.old) chain.now).memory }
        ensures disk { D.state disk.new
            ≡ (serve_chain self.old ram.old (D.state disk.old) chain.now).disk }
        ensures size { length ram.new.bytes ≡ length ram.old.bytes }
    {
        if chain.readable_len() < HEADER_SIZE || chain.writable_len() == 0 {
            return self.fail(RingFault::Order);
        }
        let written = serve_request(chain, ram, disk);
        self.return_chain(chain.head(), written, ram)
    }

    /// Returns a chain with the number of bytes that were written, and asks for an interrupt where
    /// the driver wants it.
    fn return_chain(&mut self, head: u32, written: u32, ram: &mut Ram) -> Served
        requires ready { IsTrue self.old.first.ready }
        ensures answer { result ≡ return_answer self.old ram.old }
        ensures device { self.new ≡ return_device self.old ram.old head written }
        ensures memory { ram.new ≡ return_memory self.old ram.old head written }
        ensures size { length ram.new.bytes ≡ length ram.old.bytes }
    {
        match self.regs.first().push_used(ram, head, written) {
            Ok(asks) => {
                if asks {
                    self.regs.raise();
                }
                Served::Done
            }
            Err(fault) => self.fail(fault),
        }
    }

    /// The ring is at fault.
    fn fail(&mut self, fault: RingFault) -> Served
        ensures answer { result ≡ Served.Broken fault }
        ensures device { self.new ≡ fail_device self.old }
    {
        self.regs.fail();
        Served::Broken(fault)
    }
}
