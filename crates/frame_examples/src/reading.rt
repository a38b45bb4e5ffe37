//! Frames by hand: their parts, and a drop number each, 0 where there is none. A line takes or
//! changes a frame, and answers its drop number; or it asks for a part of it. An address, a MAC
//! address and bytes are answered as one number, the first byte first, and a connection as its
//! client's address, the client's port and the guest's.

use crate::frames::{low_byte, made};
use crate::scene::play;
use inet_frame::{
    ArpView, GUEST_MAC, Seen, TcpView, Tuple, UdpView, arp_reply, counted, is_arp, is_tcp, mss,
    ones_sum, option_len, parse, pseudo_sum,
};
use std::alloc::Global;
use worked_frames::ARP_REPLY;
use worked_steps::{Answer, Scene, no_such_call, number, word, yes_or_no};

/// A frame that is read.
#[derive(Drop)]
struct Reader {
    alloc: Global,
    frame: Vec<u8>,
}

/// Bytes as one number.
fn joined(bytes: &[u8]) -> Answer {
    let mut so_far = 0u64;
    for byte in bytes {
        so_far = so_far << 8 | u64::from(*byte);
    }
    number(so_far)
}

fn small(value: u16) -> Answer {
    number(u64::from(value))
}

fn long(value: u32) -> Answer {
    number(u64::from(value))
}

fn tuple(tuple: Tuple) -> Answer {
    number(u64::from(tuple.addr) << 32 | u64::from(tuple.port) << 16 | u64::from(tuple.guest))
}

/// The number of a dropped frame.
fn drop_number(frame: &[u8]) -> Answer {
    match parse(frame) {
        Seen::Other(why) => small(u16::from(why.number)),
        Seen::Tcp(_) | Seen::Arp(_) | Seen::Udp(_) => small(0),
    }
}

/// A flag of a segment.
fn flag(view: &TcpView<'_>, name: &str) -> Answer {
    match name {
        "has_syn" => yes_or_no(view.has_syn()),
        "has_psh" => yes_or_no(view.has_psh()),
        "has_ack" => yes_or_no(view.has_ack()),
        "has_fin" => yes_or_no(view.has_fin()),
        "has_rst" => yes_or_no(view.has_rst()),
        _ => no_such_call(),
    }
}

/// A field of a segment.
fn tcp_field(view: &TcpView<'_>, name: &str) -> Answer {
    match name {
        "seq" => long(view.seq()),
        "ack" => long(view.ack()),
        "flags" => small(u16::from(view.flags())),
        "window" => small(view.window()),
        "mss" => small(mss(view.options())),
        "payload" => joined(view.payload()),
        "client" => tuple(view.client_tuple()),
        _ => flag(view, name),
    }
}

/// A part of a segment.
fn tcp_part(view: &TcpView<'_>, name: &str) -> Answer {
    match name {
        "dst_mac" => joined(view.dst_mac()),
        "src_mac" => joined(view.src_mac()),
        "src" => long(view.src()),
        "dst" => long(view.dst()),
        "sport" => small(view.sport()),
        "dport" => small(view.dport()),
        _ => tcp_field(view, name),
    }
}

/// A part of a datagram.
fn udp_part(view: &UdpView<'_>, name: &str) -> Answer {
    match name {
        "dst_mac" => joined(view.dst_mac()),
        "src_mac" => joined(view.src_mac()),
        "src" => long(view.src()),
        "dst" => long(view.dst()),
        "sport" => small(view.sport()),
        "dport" => small(view.dport()),
        "payload" => joined(view.payload()),
        _ => no_such_call(),
    }
}

/// A part of a request.
fn arp_part(view: &ArpView<'_>, name: &str) -> Answer {
    match name {
        "sender_mac" => joined(view.sender_mac()),
        "sender" => long(view.sender()),
        "target" => long(view.target()),
        "is_answered" => yes_or_no(arp_reply(view, &GUEST_MAC).as_slice() == ARP_REPLY.as_slice()),
        _ => no_such_call(),
    }
}

/// Whether a segment's options are the bytes between two places.
fn has_options(frame: &[u8], from: u32, to: u32) -> Answer {
    match parse(frame) {
        Seen::Tcp(view) => {
            yes_or_no(frame.get(from as usize..to as usize) == Some(view.options()))
        }
        Seen::Arp(_) | Seen::Udp(_) | Seen::Other(_) => word("none"),
    }
}

fn part(frame: &[u8], name: &str) -> Answer {
    match parse(frame) {
        Seen::Tcp(view) => tcp_part(&view, name),
        Seen::Udp(view) => udp_part(&view, name),
        Seen::Arp(view) => arp_part(&view, name),
        Seen::Other(_) => word("none"),
    }
}

/// The connection of a frame of the guest.
fn counted_tuple(frame: &[u8]) -> Answer {
    match counted(frame) {
        Some(view) => tuple(view.tuple()),
        None => word("none"),
    }
}

/// The sum of the first bytes of a frame.
fn sum(frame: &[u8], count: u32) -> Answer {
    match frame.get(..count as usize) {
        Some(bytes) => small(ones_sum(0, bytes)),
        None => word("none"),
    }
}

/// The sum of a datagram of so many bytes, which follows an IPv4 header without options.
fn datagram_sum(frame: &[u8], count: u32) -> Answer {
    let len = u16::try_from(count).unwrap_or(0);
    match (frame.get(26..34), frame.get(34..)) {
        (Some(addresses), Some(bytes)) => small(ones_sum(pseudo_sum(addresses, 17, len), bytes)),
        _ => word("none"),
    }
}

/// Four bytes, each in a number after the first one.
fn options(n: &[u32; 6]) -> [u8; 4] {
    let [_, a, b, c, d, _] = *n;
    [low_byte(a), low_byte(b), low_byte(c), low_byte(d)]
}

/// The length of the first option of so many bytes.
fn option(count: u32, bytes: &[u8]) -> Answer {
    match bytes.get(..count as usize) {
        Some(options) => number(option_len(options) as u64),
        None => word("none"),
    }
}

/// A question about a frame.
fn asked(frame: &[u8], name: &str, n: &[u32; 6]) -> Answer {
    match name {
        "has_options" => has_options(frame, n[0], n[1]),
        "is_tcp" => yes_or_no(is_tcp(frame)),
        "is_arp" => yes_or_no(is_arp(frame)),
        "counted" => counted_tuple(frame),
        "sum" => sum(frame, n[0]),
        "datagram_sum" => datagram_sum(frame, n[0]),
        "option" => option(n[0], &options(n)),
        _ => part(frame, name),
    }
}

impl Scene for Reader {
    fn call(&mut self, name: &str, n: &[u32; 6]) -> Answer {
        match made(self.alloc, &self.frame, name, n) {
            Some(frame) => {
                self.frame = frame;
                drop_number(&self.frame)
            }
            None => asked(&self.frame, name, n),
        }
    }
}

impl Reader {
    fn new(alloc: Global) -> Reader {
        Reader {
            alloc,
            frame: Vec::new(alloc),
        }
    }
}

/// Each number with the first reason.
const NUMBERS: &str = "\
segment : 0
datagram : 0
summed : 0
request : 0
segment : 0
cut D : 1
zeros 5EB : 2
segment C 86 : 3
request 15 2 : 4
segment E 65 : 5
segment 19 74 : 6
segment 14 20 18 30 : 7
segment 17 1 19 78 : 8
segment 2E 40 : 9
segment 4A 48 : A
summed 27 C : B
summed 28 23 : C
";

/// The parts of a segment and of a datagram.
const VIEWS: &str = "\
segment : 0
dst_mac : 525400123456
src_mac : 525400AA0001
src : A000202
dst : A00020F
sport : 9C40
dport : 7
seq : 3E8
ack : DEADBEEF
flags : 1A
window : 1000
has_syn : yes
has_psh : yes
has_ack : yes
has_fin : no
has_rst : no
mss : 5B4
has_options 36 4A : yes
payload : 68656C6C6F
datagram : 0
dst_mac : 525400123456
src_mac : 525400AA0001
src : A000202
dst : A00020F
sport : 44
dport : 43
payload : 616263
";

/// The parts of a request, and its reply.
const REQUEST: &str = "\
request : 0
sender_mac : 525400AA0001
sender : A000202
target : A00020F
is_answered : yes
";

/// The example of RFC 1071, 3, whole and with an odd last byte, and the sum of a datagram.
const SUMS: &str = "\
example : 1
sum 8 : DDF2
sum 7 : DCFB
summed : 0
datagram_sum B : FFFF
";

/// How many bytes there are, the bytes, and the length that the first option states.
const OPTIONS: &str = "\
option 4 0 1 1 1 : 0
option 4 1 3 3 7 : 1
option 4 2 4 5 B4 : 4
option 2 3 2 : 2
option 1 3 : 0
option 4 3 0 7 1 : 0
option 4 3 1 7 1 : 0
option 4 8 5 0 0 : 0
";

/// The client's segment does not count; with the addresses exchanged it comes from the guest. The
/// sums stay, since only words change places.
const COUNTED: &str = "\
segment : 0
is_tcp : yes
counted : none
client : A0002029C400007
put 1A A00020F : 6
put 1E A000202 : 0
put 22 00079C40 : 0
counted : A0002029C400007
is_arp : no
request : 0
is_arp : yes
reply : 4
is_arp : yes
";

#[test]
fn dropped_frames_have_the_first_number(rt: HostRuntime) {
    play(&rt, &mut Reader::new(rt.alloc()), NUMBERS);
}

#[test]
fn views_hand_out_the_parts(rt: HostRuntime) {
    play(&rt, &mut Reader::new(rt.alloc()), VIEWS);
}

#[test]
fn an_arp_request_is_answered(rt: HostRuntime) {
    play(&rt, &mut Reader::new(rt.alloc()), REQUEST);
}

#[test]
fn sums_are_those_of_the_standard(rt: HostRuntime) {
    play(&rt, &mut Reader::new(rt.alloc()), SUMS);
}

#[test]
fn an_option_takes_its_stated_length(rt: HostRuntime) {
    play(&rt, &mut Reader::new(rt.alloc()), OPTIONS);
}

#[test]
fn a_frame_of_the_guest_counts(rt: HostRuntime) {
    play(&rt, &mut Reader::new(rt.alloc()), COUNTED);
}
