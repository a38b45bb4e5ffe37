//! A card whose rings and frames a driver writes by hand.

ghost use Rattle.std.specs.Prelude.{IsTrue};
ghost use Rattle.virt_queue.specs.Queue.{is_legal};

use crate::calls::{broken, event, memory, registers, served};
use crate::scene::play;
use colo_base::{Frames, NoMemory};
use page_track::Ram;
use std::alloc::{AllocError, Global};
use std::test::Fail;
use virt_queue::{QueueFields, is_queue_size};
use virtio_mmio::{DeviceFields, Served};
use virtio_net::{Net, Received};
use worked_steps::{Answer, Scene, nothing, number, number_or_none, word, yes_or_no};

/// A card, a MiB of memory, what the card sends, and a frame for it.
///
/// Queue 0, which receives, has its descriptors at 0x80000000, its available ring at 0x80001000 and
/// its used ring at 0x80002000. Those of queue 1, which sends, are 0x3000 after them.
#[derive(Drop)]
struct Card {
    net: Net,
    ram: Ram,
    out: Frames,
    frame: [u8; 60],
}

impl Scene for Card {
    /// `queues` is another card, whose queues are both ready, with a number and the positions in
    /// their available and used rings; `meet` sets a neighbour. `frames` are how many were sent,
    /// `size` is the length of one, and `byte` one of its bytes.
    fn call(&mut self, name: &str, n: &[u32; 6]) -> Answer {
        match name {
            "queues" => set_queues(&mut self.net, n),
            "sent" => answered(self.net.sent(&mut self.ram, &mut self.out)),
            "can_receive" => yes_or_no(self.net.can_receive(&self.ram)),
            "receive" => receive(&mut self.net, &mut self.ram, &self.frame),
            "meet" => meet(&mut self.net, n[0], n[1]),
            "neighbour" => neighbour(&self.net),
            "frames" => number(self.out.len() as u64),
            "size" => number_or_none(size_of_frame(&self.out, n[0] as usize)),
            "byte" => number_or_none(byte_of_frame(&self.out, n[0] as usize, n[1] as usize)),
            "write" => event(self.net.write(n[0], n[1])),
            "read" | "interrupt" => registers(self.net.regs_mut(), name, n),
            _ => memory(&mut self.ram, name, n),
        }
    }
}

impl Card {
    fn new(alloc: Global, frame: &[u8; 60]) -> Result<Card, AllocError> {
        Ok(Card {
            net: Net::new(),
            ram: Ram::new(alloc, 1)?,
            out: Frames::new(alloc),
            frame: *frame,
        })
    }
}

/// A queue, which is ready where its number is one that a queue may have.
fn queue(num: u32, base: u64, next: u16, used: u16) -> QueueFields
    ensures { IsTrue (is_legal result) }
{
    QueueFields {
        num,
        ready: is_queue_size(num),
        desc: base,
        driver: base.saturating_add(0x1000),
        device: base.saturating_add(0x2000),
        next,
        used,
    }
}

/// A card whose driver runs and whose queues are ready.
fn with_queues(num: u32, next: u16, used: u16) -> Net {
    let mut net = Net::new();
    net.regs_mut().set_fields(&DeviceFields {
        status: 15,
        device_features_sel: 0,
        driver_features: 0x1_0000_0020,
        driver_features_sel: 0,
        queue_sel: 0,
        interrupt_status: 0,
        queues: [
            queue(num, 0x8000_0000, next, used),
            queue(num, 0x8000_3000, next, used),
        ],
    });
    net
}

/// Makes the card such a one.
fn set_queues(net: &mut Net, n: &[u32; 6]) -> Answer {
    *net = with_queues(n[0], (n[1] & 0xFFFF) as u16, (n[2] & 0xFFFF) as u16);
    nothing()
}

/// What sending answers.
fn answered(answer: Result<Served, NoMemory>) -> Answer {
    match answer {
        Ok(answer) => served(answer),
        Err(NoMemory) => word("no memory"),
    }
}

/// Gives the card a frame.
fn receive(net: &mut Net, ram: &mut Ram, frame: &[u8; 60]) -> Answer {
    if !net.can_receive(ram) {
        return word("no chain");
    }
    match net.receive(ram, frame) {
        Received::Taken => word("taken"),
        Received::Broken(fault) => broken(fault),
    }
}

/// Another neighbour: the first two bytes of its address, and the last four.
fn meet(net: &mut Net, first: u32, last: u32) -> Answer {
    let [_, _, a, b] = first.to_be_bytes();
    let [c, d, e, f] = last.to_be_bytes();
    net.set_neighbour([a, b, c, d, e, f]);
    nothing()
}

/// The address of the neighbour.
fn neighbour(net: &Net) -> Answer {
    let [a, b, c, d, e, f] = net.neighbour();
    number(u64::from_be_bytes([0, 0, a, b, c, d, e, f]))
}

/// The length of a frame that was sent.
fn size_of_frame(out: &Frames, k: usize) -> Option<u32> {
    u32::try_from(out.get(k)?.len()).ok()
}

/// A byte of a frame that was sent.
fn byte_of_frame(out: &Frames, k: usize, place: usize) -> Option<u32> {
    out.get(k)?.get(place).map(|byte| u32::from(*byte))
}

/// 60 bytes, all 7.
const SEVENS: [u8; 60] = [7; 60];

/// From 02:00:00:00:00:09 to the card.
const FROM_NINE: [u8; 60] = [
    0x52, 0x54, 0x00, 0x12, 0x34, 0x56, 0x02, 0x00, 0x00, 0x00, 0x00, 0x09, 0x08, 0x00, 1, 2, 3, 4,
    5, 6, 7, 8, 9, 10, 11, 12, 13, 14, 15, 16, 17, 18, 19, 20, 21, 22, 23, 24, 25, 26, 27, 28, 29,
    30, 31, 32, 33, 34, 35, 36, 37, 38, 39, 40, 41, 42, 43, 44, 45, 46,
];

/// Both queues have 8 places.
const EIGHT: &str = "queues 8 0 0";

/// One chain is available for sending: that of descriptor 0.
const OFFER: &str = "\
sw 80004000 00010000
sh 80004004 0
";

/// A descriptor that is the next of itself breaks the card until a reset, which forgets the
/// neighbour too.
const LOOP: &str = "\
meet 0200 00000009
neighbour : 020000000009
descriptor 80003000 80010000 1 1
sent : loop
read 070 : 4F
interrupt : 2
sent : idle
neighbour : 020000000009
write 070 0 : reset
read 070 : 0
neighbour : 0
";

/// What is sent begins with 1, 2 and 3, after a header of 12 bytes.
const CONTENT: &str = "\
descriptor 80003000 80010000 A 1 1
sm 8001000C 01020300
";

/// 13, 14, 1514 and 1515 bytes, of which 10 of the header stand in a part of their own.
const LENGTHS: [&str; 4] = [
    "\
descriptor 80003010 8001000A F
sent : done
frames : 0
",
    "\
descriptor 80003010 8001000A 10
sent : done
frames : 1
",
    "\
descriptor 80003010 8001000A 5EC
sent : done
frames : 2
",
    "\
descriptor 80003010 8001000A 5ED
sent : done
frames : 2
",
];

/// The chain is returned with length 0.
const RETURNED: &str = "\
lh 80005002 : 1
lw 80005008 : 0
interrupt : 1
";

/// The used ring before that.
const NOT_RETURNED: &str = "\
sw 80005000 FFFFFFFF
sw 80005008 FFFFFFFF
";

/// The second frame.
const LONGEST: &str = "\
size 1 : 5EA
byte 1 0 : 1
byte 1 1 : 2
byte 1 2 : 3
byte 1 3 : 0
";

/// 72 bytes for the 60 of a frame and their header.
const ENOUGH: &str = "\
descriptor 80000000 80010000 B 3 1
descriptor 80000010 80010100 3D 2
can_receive : no
sw 80001000 00010000
can_receive : yes
receive : taken
lw 80002008 : 48
lw 80010100 : 07070700
neighbour : 070707070707
";

/// One byte fewer.
const ONE_TOO_FEW: &str = "\
descriptor 80000000 80010000 B 3 1
descriptor 80000010 80010100 3C 2
can_receive : no
sw 80001000 00010000
can_receive : yes
receive : taken
lw 80002008 : 0
lw 80010100 : 0
neighbour : 070707070707
";

/// The request of 52:54:00:12:34:56, which is at 10.0.2.15, for 10.0.2.2 (RFC 826).
const ARP_REQUEST: &str = "\
sm 8001000C FFFFFFFF
sm 80010010 FFFF5254
sm 80010014 00123456
sm 80010018 08060001
sm 8001001C 08000604
sm 80010020 00015254
sm 80010024 00123456
sm 80010028 0A00020F
sm 8001002C 00000000
sm 80010030 00000A00
sm 80010034 02020000
descriptor 80003000 80010000 36
";

/// 100 bytes for the answer.
const SPACE_FOR_A_REPLY: &str = "\
descriptor 80000000 80011000 64 2
sw 80001000 00010000
";

/// A card without a neighbour doesn't answer.
const NO_REPLY: &str = "\
meet 0 0
sent : done
frames : 0
lw 80002008 : 0
";

/// A card that has one does, with its address.
const REPLY: &str = "\
meet 0200 00000009
sent : done
frames : 0
lw 80002008 : 36
lm 8001100C : 52540012
lm 80011010 : 34560200
lm 80011014 : 00000009
lm 80011018 : 08060001
lm 8001101C : 08000604
lm 80011020 : 00020200
lm 80011024 : 00000009
lm 80011028 : 0A000202
lm 8001102C : 52540012
lm 80011030 : 34560A00
lb 80011034 : 2
lb 80011035 : F
";

/// The neighbour is where a received frame came from. The card's own reply is received after the
/// request's chain was returned (VIRTIO 1.1, 2.6.8): its buffer lies over that used ring, and what
/// stands there at the end is the reply.
const NEIGHBOUR: &str = "\
descriptor 80000000 80011000 64 2
descriptor 80000010 80005000 64 2
sw 80001000 00020000
sw 80001004 00010000
receive : taken
neighbour : 020000000009
lw 80002008 : 48
lm 8001100C : 52540012
sent : done
frames : 0
neighbour : 020000000009
lw 8000200C : 1
lw 80002010 : 36
lm 80005000 : 00000000
lm 80005004 : 00000000
lm 80005008 : 00000100
lm 8000500C : 52540012
lm 80005010 : 34560200
lm 80005014 : 00000009
";

/// As many frames wait as the queue has places (VIRTIO 1.1, 2.6.6): all are sent, without an
/// interrupt, which the driver doesn't want (VIRTQ_AVAIL_F_NO_INTERRUPT, 2.6.7). One more than the
/// places is a fault.
const FULL: &str = "\
queues 2 0 0
descriptor 80003000 80010000 1A
sw 80004000 00020001
sw 80004004 0
sent : done
frames : 2
size 1 : E
lh 80005002 : 2
interrupt : 0
sent : idle
sh 80004002 5
sent : size
interrupt : 2
read 070 : 4F
";

/// The third descriptor of a chain in a queue of two has a number that no descriptor has: that is
/// told before the chain's length is.
const NO_DESCRIPTOR: &str = "\
queues 2 0 0
descriptor 80003000 80010000 1A 1 1
descriptor 80003010 80010000 1A 1 5
sent : size
";

/// The same with the first descriptor for the third.
const TOO_LONG: &str = "\
queues 2 0 0
descriptor 80003010 80010000 1A 1 0
sent : loop
";

/// The used ring lies over the available one, and the card's position in it is one ahead, so that
/// each chain that is returned makes another one available: a notify sends two of them, as many as
/// the queue has places.
const MORE_AND_MORE: &str = "\
queues 2 0 1
write 030 1
write 0A0 80004000
descriptor 80003000 80010000 1A
sent : done
frames : 2
lh 80004002 : 3
sent : done
frames : 4
lh 80004002 : 5
";

#[test]
fn a_looping_ring_breaks_the_card_until_a_reset(rt: HostRuntime) -> Result<(), Fail> {
    let mut card = Card::new(rt.alloc(), &SEVENS)?;
    play(&rt, &mut card, &[EIGHT, OFFER, LOOP]);
    Ok(())
}

#[test]
fn frames_of_14_to_1514_bytes_are_sent(rt: HostRuntime) -> Result<(), Fail> {
    let mut card = Card::new(rt.alloc(), &SEVENS)?;
    play(&rt, &mut card, &[CONTENT, OFFER]);
    for length in LENGTHS {
        play(&rt, &mut card, &[EIGHT, NOT_RETURNED, length, RETURNED]);
    }
    play(&rt, &mut card, &[LONGEST]);
    Ok(())
}

#[test]
fn a_frame_is_received_into_exactly_enough_bytes(rt: HostRuntime) -> Result<(), Fail> {
    let mut card = Card::new(rt.alloc(), &SEVENS)?;
    play(&rt, &mut card, &[EIGHT, ENOUGH]);
    let mut card = Card::new(rt.alloc(), &SEVENS)?;
    play(&rt, &mut card, &[EIGHT, ONE_TOO_FEW]);
    Ok(())
}

#[test]
fn the_port_answers_an_arp_request_once_it_has_a_neighbour(rt: HostRuntime) -> Result<(), Fail> {
    for reply in [NO_REPLY, REPLY] {
        let mut card = Card::new(rt.alloc(), &SEVENS)?;
        let texts = [EIGHT, ARP_REQUEST, OFFER, SPACE_FOR_A_REPLY, reply];
        play(&rt, &mut card, &texts);
    }
    Ok(())
}

#[test]
fn a_frame_whose_two_addresses_differ(rt: HostRuntime) -> Result<(), Fail> {
    let mut card = Card::new(rt.alloc(), &FROM_NINE)?;
    play(&rt, &mut card, &[EIGHT, ARP_REQUEST, OFFER, NEIGHBOUR]);
    Ok(())
}

#[test]
fn a_full_ring_of_two_frames(rt: HostRuntime) -> Result<(), Fail> {
    let mut card = Card::new(rt.alloc(), &SEVENS)?;
    play(&rt, &mut card, &[FULL]);
    Ok(())
}

#[test]
fn chains_that_leave_a_ring_of_two(rt: HostRuntime) -> Result<(), Fail> {
    let mut card = Card::new(rt.alloc(), &SEVENS)?;
    play(&rt, &mut card, &[OFFER, NO_DESCRIPTOR, TOO_LONG]);
    Ok(())
}

#[test]
fn a_notify_sends_at_most_the_number_of_chains(rt: HostRuntime) -> Result<(), Fail> {
    let mut card = Card::new(rt.alloc(), &SEVENS)?;
    play(&rt, &mut card, &[OFFER, MORE_AND_MORE]);
    Ok(())
}
