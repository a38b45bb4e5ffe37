//! Edits of a client's segment in place.

ghost use Rattle.std.specs.Prelude.{◌≡◌, ℕ, ◌+◌, ◌≤◌, length, IsSome};
ghost use Rattle.std.specs.Option.{option_map};
ghost use Rattle.shared_definitions.specs.Overwrite.{overwrite};
ghost use Rattle.shared_definitions.specs.Bytes.{AreBytes};
ghost use Rattle.inet_frame.specs.Counted.{tcp_in};
ghost use Rattle.inet_frame.specs.Frame.{IsSegment};
ghost use Rattle.inet_frame.specs.Place.{header_end, datagram_end};
ghost use Rattle.inet_build.specs.Edit.{update_checksum, shift_ack, shift_ack_fields, clean_syn, clean_syn_fields};

use crate::options::clean_options;
use inet_frame::place::{self, be32, data_offset};
use inet_frame::{flag, ones_sum, protocol, pseudo_sum};

/// Overwrites, in a segment with SYN, the options window scale, selective acknowledgements
/// permitted and timestamps by "no operation", and recomputes the checksum where there was one.
/// It takes no memory (RFC 9293, 3.2; RFC 7323; RFC 2018).
pub fn clean_syn(frame: &mut [u8])
    requires { IsSome (tcp_in frame.old) }
    ensures bytes { frame.new ≡ clean_syn frame.old }
    ensures parsed { tcp_in frame.new ≡ option_map clean_syn_fields (tcp_in frame.old) }
    ensures still_tcp { IsSome (tcp_in frame.new) }
    ensures once { clean_syn frame.new ≡ frame.new }
{
    let ends = find_ends(frame);
    clean(frame, &ends);
}

/// Raises the acknowledgement number by `by` modulo 2^32, and recomputes the checksum, also where
/// `by` is 0. It takes no memory (RFC 9293, 3.1).
pub fn shift_ack(frame: &mut [u8], by: u32)
    requires { IsSome (tcp_in frame.old) }
    ensures bytes { frame.new ≡ shift_ack frame.old by }
    ensures parsed { tcp_in frame.new ≡ option_map (shift_ack_fields by) (tcp_in frame.old) }
    ensures still_tcp { IsSome (tcp_in frame.new) }
    ensures sums { (more : ℕ) → shift_ack frame.new more ≡ shift_ack frame.old (by + more) }
{
    let ends = find_ends(frame);
    shift(frame, &ends, by);
}

/// Where the IPv4 header of a segment and its datagram end in the frame.
#[derive(Drop)]
struct Ends {
    header_end: usize,
    data_end: usize,
}

/// Finds the ends in a frame. The laws of the edits rest on the frame's bytes as they are here.
fn find_ends(frame: &[u8]) -> Ends
    requires { IsSegment frame.now }
    ensures header_end { result.header_end ≡ header_end frame.now }
    ensures data_end { result.data_end ≡ datagram_end frame.now }
    ensures bytes { AreBytes frame.now }
{
    Ends {
        header_end: place::header_end(frame),
        data_end: place::datagram_end(frame),
    }
}

/// What `clean_syn` does, with the ends at hand.
#[tactic(auto, unfolding(crate::specs::Edit::clean_syn, shared_definitions::specs::Overwrite::overwrite))]
fn clean(frame: &mut [u8], ends: &Ends)
    requires segment { IsSegment frame.old }
    requires header_end { ends.now.header_end ≡ header_end frame.old }
    requires data_end { ends.now.data_end ≡ datagram_end frame.old }
    ensures { frame.new ≡ clean_syn frame.old }
{
    if frame[ends.header_end + 13] & flag::SYN == 0 {
        return;
    }
    let options_end = ends.header_end + data_offset(frame, ends.header_end);
    if clean_options(&mut frame[ends.header_end + 20..options_end]) {
        update_checksum(frame, ends);
    }
}

/// What `shift_ack` does, with the ends at hand.
#[tactic(auto, unfolding(crate::specs::Edit::shift_ack))]
fn shift(frame: &mut [u8], ends: &Ends, by: u32)
    requires segment { IsSegment frame.old }
    requires header_end { ends.now.header_end ≡ header_end frame.old }
    requires data_end { ends.now.data_end ≡ datagram_end frame.old }
    ensures { frame.new ≡ shift_ack frame.old by }
{
    let at = ends.header_end + 8;
    let ack = be32(frame, at).wrapping_add(by);
    put(frame, at, &ack.to_be_bytes());
    update_checksum(frame, ends);
}

/// Recomputes the checksum of the segment between the ends.
#[tactic(auto, unfolding(crate::specs::Edit::update_checksum))]
fn update_checksum(frame: &mut [u8], ends: &Ends)
    requires after_ip { 34 ≤ ends.now.header_end }
    requires header { ends.now.header_end + 20 ≤ ends.now.data_end }
    requires within { ends.now.data_end ≤ length frame.old }
    requires short { length frame.old ≤ 1514 }
    ensures { frame.new ≡ update_checksum frame.old ends.now.header_end ends.now.data_end }
{
    let at = ends.header_end + 16;
    put(frame, at, &[0, 0]);
    let len = (ends.data_end - ends.header_end) as u16;
    let pseudo = pseudo_sum(&frame[26..34], protocol::TCP, len);
    let sum = 0xFFFF - ones_sum(pseudo, &frame[ends.header_end..ends.data_end]);
    put(frame, at, &sum.to_be_bytes());
}

/// Writes a part over the frame from a place on.
#[tactic(auto, unfolding(shared_definitions::specs::Overwrite::overwrite))]
fn put(frame: &mut [u8], at: usize, part: &[u8])
    requires { at + length part.now ≤ length frame.old }
    ensures { frame.new ≡ overwrite frame.old at part.now }
{
    frame[at..at + part.len()].copy_from_slice(part);
}
