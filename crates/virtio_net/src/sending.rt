//! How the driver sends frames.

ghost use Rattle.std.specs.Prelude.{◌≡◌, ◌≢◌, [], ◌++◌, length, IsTrue, IfOk, OnOk, OnErr};
ghost use Rattle.std.specs.Option.{option_copied};
ghost use Rattle.virt_queue.specs.Parts.{parts_inside};
ghost use Rattle.virtio_net.specs.Notify.{NotifySends};
ghost use Rattle.virtio_mmio.specs.Registers.{serves};
ghost use Rattle.virtio_net.specs.Port.{Port, port_of, send_queue};
ghost use Rattle.virtio_net.specs.Send.{frame_in, output, request_in, answer_request, send_chain, send, fault_of, is_known};
ghost use Rattle.shared_definitions.specs.Begins.{Begins};

use crate::net::Net;
use colo_base::{Frames, NoMemory};
use inet_frame::{Seen, arp_reply, is_arp, parse};
use page_track::Ram;
use virt_queue::{Chain, RingFault};
use virtio_mmio::Served;

/// The bytes of the header before each frame.
const HEADER: u64 = 12;

/// One byte more than the longest frame.
const TOO_LONG: usize = 1515;

impl Net {
    /// Sends what the driver put into queue 1, as one notify of it asks: its available chains in
    /// order, at most as many as the queue's number. The readable bytes of each without the first
    /// 12 are a frame, where they are 14 to 1,514 bytes, and go to `out`. A frame of ARP's type
    /// doesn't: a request is answered by the card itself, where it has a neighbour and can receive.
    /// Each chain is returned with length 0.
    ///
    /// `Idle` comes exactly where the card doesn't work on the queue or no chain is available,
    /// `Broken` with the first fault of the rings, and else `Done`. `NoMemory` comes only where a
    /// frame goes out; then nothing is said of the rest but that `out` begins with what it held, and
    /// that memory has its size.
    pub fn sent(&mut self, ram: &mut Ram, out: &mut Frames) -> Result<Served, NoMemory>
        ensures answer { IfOk result (λ answer. answer ≡ (send (port_of self.old ram.old)).answer) }
        ensures port { OnOk result
            (port_of self.new ram.new ≡ (send (port_of self.old ram.old)).port) }
        ensures frames { OnOk result
            (out.new ≡ out.old ++ (send (port_of self.old ram.old)).frames) }
        ensures begins { OnErr result (Begins out.old out.new) }
        ensures cause { OnErr result ((send (port_of self.old ram.old)).frames ≢ []) }
        ensures kind { self.new.device.kind ≡ self.old.device.kind }
        ensures size { length ram.new.bytes ≡ length ram.old.bytes }
    {
        if !self.regs.serves(1) {
            return Ok(Served::Idle);
        }
        let most = self.regs.fields().queues[1].num;
        let mut so_far = Served::Idle;
        for _ in 0..most {
            match self.send_chain(ram, out)? {
                Served::Idle => return Ok(so_far),
                Served::Done => so_far = Served::Done,
                Served::Broken(fault) => return Ok(Served::Broken(fault)),
            }
        }
        Ok(so_far)
    }

    /// Sends the next chain of queue 1. `Idle` is that there is none.
    fn send_chain(&mut self, ram: &mut Ram, out: &mut Frames) -> Result<Served, NoMemory>
        requires { IsTrue (serves self.old.device send_queue) }
        ensures answer { IfOk result
            (λ answer. answer ≡ (send_chain (port_of self.old ram.old)).answer) }
        ensures port { OnOk result
            (port_of self.new ram.new ≡ (send_chain (port_of self.old ram.old)).port) }
        ensures frames { OnOk result
            (out.new ≡ out.old ++ (send_chain (port_of self.old ram.old)).frames) }
        ensures err { OnErr result (out.new ≡ out.old) }
        ensures cause { OnErr result ((send_chain (port_of self.old ram.old)).frames ≢ []) }
        ensures kind { self.new.device.kind ≡ self.old.device.kind }
        ensures size { length ram.new.bytes ≡ length ram.old.bytes }
    {
        let mut chain = Chain::new();
        match self.take(1, ram, &mut chain) {
            Ok(true) => {}
            Ok(false) => return Ok(Served::Idle),
            Err(fault) => return Ok(Served::Broken(fault)),
        }
        let mut buffer = [0; TOO_LONG];
        let frame = frame_in(&chain, ram, &mut buffer);
        push_output(out, frame)?;
        self.give_back(1, ram, chain.head(), 0);
        match self.answer_request(ram, frame) {
            Ok(()) => Ok(Served::Done),
            Err(fault) => Ok(Served::Broken(fault)),
        }
    }

    /// Answers the ARP request in a frame, where there is one and the card can.
    fn answer_request(&mut self, ram: &mut Ram, frame: Option<&[u8]>) -> Result<(), RingFault>
        ensures answer { let ask = request_in (option_copied frame.entry) in
            result ≡ fault_of (answer_request (port_of self.old ram.old) ask).fault }
        ensures port { let ask = request_in (option_copied frame.entry) in
            port_of self.new ram.new ≡ (answer_request (port_of self.old ram.old) ask).port }
        ensures kind { self.new.device.kind ≡ self.old.device.kind }
        ensures size { length ram.new.bytes ≡ length ram.old.bytes }
    {
        let Some(frame) = frame else {
            return Ok(());
        };
        let Seen::Arp(ask) = parse(frame) else {
            return Ok(());
        };
        if !self.has_neighbour() || !self.can_receive(ram) {
            return Ok(());
        }
        let mac = self.neighbour;
        self.deliver(ram, &arp_reply(&ask, &mac))
    }

    /// Whether a frame was received before.
    fn has_neighbour(&self) -> bool
        ensures { result ≡ is_known self.now.neighbour }
    {
        self.neighbour != [0; 6]
    }
}

/// The frame in a chain, read into a buffer; `None` where its bytes are none.
fn frame_in<'b>(chain: &Chain, ram: &Ram, buffer: &'b mut [u8; TOO_LONG]) -> Option<&'b [u8]>
    requires { IsTrue (parts_inside (length ram.now.bytes) chain.now.parts) }
    ensures { option_copied result ≡ frame_in ram.now.bytes chain.now }
{
    let count = chain.read(ram, HEADER, buffer);
    if 14 <= count && count < TOO_LONG {
        Some(&buffer[..count])
    } else {
        None
    }
}

/// Puts out a frame that isn't ARP's.
fn push_output(out: &mut Frames, frame: Option<&[u8]>) -> Result<(), NoMemory>
    ensures ok { OnOk result (out.new ≡ out.old ++ output (option_copied frame.entry)) }
    ensures err { OnErr result (out.new ≡ out.old) }
    ensures cause { OnErr result (output (option_copied frame.entry) ≢ []) }
{
    match frame {
        Some(frame) if !is_arp(frame) => out.push(frame),
        _ => Ok(()),
    }
}

/// A notify sends so many chains of the queue, one after the other, each as `Net::sent` says of
/// one, and no more for one of three reasons: as many were sent as the queue's number, none is
/// left, or a fault came.
pub fn sends_chains_in_order()
    ensures { (port : Port) → NotifySends port }
{}
