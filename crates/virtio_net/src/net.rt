//! The card: its registers, its neighbour, and the chains of its queues.

ghost use Rattle.std.specs.Prelude.{◌≡◌, ◌<◌, length, replicate, IsTrue};
ghost use Rattle.std.specs.Borrow.{sem};
ghost use Rattle.virt_queue.specs.Ring.{ring_inside};
ghost use Rattle.virt_queue.specs.Chain.{is_given, chain_of};
ghost use Rattle.virt_queue.specs.Parts.{parts_inside};
ghost use Rattle.virtio_mmio.specs.Device.{reset_device};
ghost use Rattle.virtio_mmio.specs.declared.kind.Kind.TheVariants.{Network};
ghost use Rattle.virtio_mmio.specs.Registers.{serves, write_event};
ghost use Rattle.virtio_net.specs.Port.{port_of, queue_of, next_of, take_chain, return_chain, write_card};

use page_track::Ram;
use std::marker::Model;
use virt_queue::{Chain, RingFault};
use virtio_mmio::{Event, Kind, Regs};

/// What became of a frame that was received.
#[derive(Clone, Copy, Debug, PartialEq, Eq)]
pub enum Received {
    /// The driver has it, or a chain that is too short for it.
    Taken,
    /// The ring has this fault, and the device asks for a reset.
    Broken(RingFault),
}

/// A network card and the MAC address of its neighbour.
///
/// Contracts see it as a `Card`.
#[derive(Drop)]
pub struct Net {
    pub(crate) regs: Regs,
    pub(crate) neighbour: [u8; 6],
}

impl Model for Net {
    ghost use Rattle.virtio_net.specs.Port.{Card};

    ghost Value = { Card };

    ghost view = { λ n. record { device = n.regs; neighbour = n.neighbour } };
}

impl Net {
    ghost use Rattle.virtio_net.specs.Lending.{LendsRegs};

    /// A card after a reset, without a neighbour.
    pub fn new() -> Net
        ensures device { result.device ≡ reset_device Network }
        ensures neighbour { result.neighbour ≡ replicate 6 0 }
    {
        Net {
            regs: Regs::new(Kind::Network),
            neighbour: [0; 6],
        }
    }

    /// The registers.
    pub fn regs(&self) -> &Regs
        ensures { result.now ≡ self.now.device }
    {
        &self.regs
    }

    /// Writes a register, as the driver does (VIRTIO 1.1, 4.2.2): what `Regs::write` does and
    /// answers, and a reset forgets the neighbour too.
    pub fn write(&mut self, offset: u32, value: u32) -> Event
        ensures event { result ≡ write_event offset value }
        ensures card { self.new ≡ write_card self.old offset value }
    {
        let event = self.regs.write(offset, value);
        if let Event::Reset = event {
            self.neighbour = [0; 6];
        }
        event
    }

    /// The registers, to be set as a whole; the driver's stores go through [`Net::write`].
    pub fn regs_mut(&mut self) -> &mut Regs
        ensures* writes_back { sem 𝓛 (LendsRegs self.entry result) }
        ensures regs { result.now ≡ self.old.device }
    {
        &mut self.regs
    }

    /// The MAC address of the neighbour: where the last received frame came from, all 0 before one
    /// did.
    pub fn neighbour(&self) -> [u8; 6]
        ensures { result ≡ self.now.neighbour }
    {
        self.neighbour
    }

    /// Another neighbour.
    pub fn set_neighbour(&mut self, mac: [u8; 6])
        ensures device { self.new.device ≡ self.old.device }
        ensures neighbour { self.new.neighbour ≡ mac }
    {
        self.neighbour = mac;
    }

    /// Takes the next chain of a queue; a fault makes the device fail.
    pub(crate) fn take(&mut self, k: u32, ram: &Ram, chain: &mut Chain) -> Result<bool, RingFault>
        requires { IsTrue (serves self.old.device k) }
        ensures answer { result ≡ is_given (next_of (port_of self.old ram.now) k) }
        ensures chain { chain.new ≡ chain_of (next_of (port_of self.old ram.now) k) }
        ensures card { let port = port_of self.old ram.now in
            self.new ≡ (take_chain port k (next_of port k)).card }
        ensures kind { self.new.device.kind ≡ self.old.device.kind }
        ensures parts { IsTrue (parts_inside (length ram.now.bytes) chain.new.parts) }
    {
        let answer = match self.regs.queue(k) {
            Some(queue) => queue.next_chain(ram, chain),
            None => Ok(false),
        };
        if answer.is_err() {
            self.regs.fail();
        }
        answer
    }

    /// Returns a chain that was taken from a queue.
    #[tactic(auto, unfolding(crate::specs::Port::return_chain))]
    pub(crate) fn give_back(&mut self, k: u32, ram: &mut Ram, head: u32, len: u32)
        requires queue { IsTrue (serves self.old.device k) }
        requires ring { IsTrue (ring_inside (length ram.old.bytes) (queue_of self.old.device k)) }
        ensures port { port_of self.new ram.new
            ≡ return_chain (port_of self.old ram.old) k head len }
        ensures kind { self.new.device.kind ≡ self.old.device.kind }
        ensures size { length ram.new.bytes ≡ length ram.old.bytes }
    {
        let asked = match self.regs.queue(k) {
            Some(queue) => queue.push_used(ram, head, len),
            None => Ok(false),
        };
        if let Ok(true) = asked {
            self.regs.raise();
        }
    }
}
