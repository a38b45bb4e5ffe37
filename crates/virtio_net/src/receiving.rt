//! How the driver gets a frame.

ghost use Rattle.std.specs.Prelude.{◌≡◌, ◌+◌, ◌≤◌, ◌++◌, length, take, IsTrue};
ghost use Rattle.virt_queue.specs.Parts.{parts_inside};
ghost use Rattle.virtio_net.specs.Port.{port_of};
ghost use Rattle.virtio_net.specs.Receive.{header, can_receive, deliver, fill_chain, filled_len, meet_neighbour, received};
ghost use Rattle.virtio_net.specs.Send.{fault_of};

use crate::net::{Net, Received};
use page_track::Ram;
use virt_queue::{Chain, Queue, RingFault};

/// The header before each frame (VIRTIO 1.1, 5.1.6): all 0 but the number of buffers, which is 1.
const HEADER: [u8; 12] = [0, 0, 0, 0, 0, 0, 0, 0, 0, 0, 1, 0];

/// The bytes of the header and the longest frame.
const MOST: usize = 12 + 1514;

impl Net {
    /// Whether the card can receive a frame: it works on its queue 0, and there is a chain or a
    /// fault.
    pub fn can_receive(&self, ram: &Ram) -> bool
        ensures { result ≡ can_receive (port_of self.now ram.now) }
    {
        if !self.regs.serves(0) {
            return false;
        }
        let fields = self.regs.fields();
        let mut queue = Queue::new();
        queue.set_fields(&fields.queues[0]);
        queue.waits(ram)
    }

    /// Gives the driver a frame: the next chain of queue 0 gets the header and the frame, and is
    /// returned with their length. A chain without the space for them gets nothing, and is returned
    /// with 0. The frame's source becomes the neighbour. A fault of the ring makes the device fail,
    /// and the neighbour stays.
    ///
    /// It asks that the card can receive, and a frame of 14 to 1,514 bytes.
    pub fn receive(&mut self, ram: &mut Ram, frame: &[u8]) -> Received
        requires can { IsTrue (can_receive (port_of self.old ram.old)) }
        requires least { 14 ≤ length frame.now }
        requires most { length frame.now ≤ 1514 }
        ensures answer { result ≡ received (deliver (port_of self.old ram.old) frame.now).fault }
        ensures port { port_of self.new ram.new
            ≡ meet_neighbour (deliver (port_of self.old ram.old) frame.now) frame.now }
        ensures kind { self.new.device.kind ≡ self.old.device.kind }
        ensures size { length ram.new.bytes ≡ length ram.old.bytes }
    {
        match self.deliver(ram, frame) {
            Ok(()) => {
                self.neighbour.copy_from_slice(&frame[6..12]);
                Received::Taken
            }
            Err(fault) => Received::Broken(fault),
        }
    }

    /// Puts a frame into the next chain of queue 0.
    pub(crate) fn deliver(&mut self, ram: &mut Ram, frame: &[u8]) -> Result<(), RingFault>
        requires can { IsTrue (can_receive (port_of self.old ram.old)) }
        requires most { length frame.now ≤ 1514 }
        ensures answer { result ≡ fault_of (deliver (port_of self.old ram.old) frame.now).fault }
        ensures port { port_of self.new ram.new
            ≡ (deliver (port_of self.old ram.old) frame.now).port }
        ensures kind { self.new.device.kind ≡ self.old.device.kind }
        ensures size { length ram.new.bytes ≡ length ram.old.bytes }
    {
        let mut chain = Chain::new();
        if self.take(0, ram, &mut chain)? {
            let len = fill(&chain, ram, frame);
            self.give_back(0, ram, chain.head(), len);
        }
        Ok(())
    }
}

/// Writes the header and a frame into the writable parts of a chain, where they have the space, and
/// says how many bytes these are; else 0.
fn fill(chain: &Chain, ram: &mut Ram, frame: &[u8]) -> u32
    requires parts { IsTrue (parts_inside (length ram.old.bytes) chain.now.parts) }
    requires most { length frame.now ≤ 1514 }
    ensures len { result ≡ filled_len chain.now frame.now }
    ensures memory { ram.new ≡ fill_chain ram.old chain.now frame.now }
    ensures size { length ram.new.bytes ≡ length ram.old.bytes }
{
    let len = HEADER.len() + frame.len();
    if chain.writable_len() < len as u64 {
        return 0;
    }
    let bytes = with_header(frame);
    chain.write(ram, 0, &bytes[..len]);
    len as u32
}

/// The header, a frame, and zeros.
fn with_header(frame: &[u8]) -> [u8; MOST]
    requires { length frame.now ≤ 1514 }
    ensures { take (12 + length frame.now) result ≡ header ++ frame.now }
{
    let mut bytes = [0; MOST];
    bytes[..12].copy_from_slice(&HEADER);
    bytes[12..12 + frame.len()].copy_from_slice(frame);
    bytes
}
