//! Both known lines of one connection, and what goes out with each of its segments.

ghost use Rattle.std.specs.Prelude.{◌≡◌, ◌<◌, ◌^◌, min};
ghost use Rattle.std.specs.Option.{option_copied};
ghost use Rattle.tcp_track.specs.declared.offsets.TheConstants.{OFFSET_BOUND};
ghost use Rattle.settle_rules.specs.Matching.{has_one_client, their_acked, smaller_acked, client_or_zero, have_one_client, agreed_ack, agreed_window};
ghost use Rattle.line_release.specs.Both.{line_or_none};

use inet_frame::Tuple;
use tcp_track::{Line, Offset, Opening};

/// The node's own line of a connection, and what it knows of the other node's: `None` where that
/// has no entry. The number is the kept one, under which the client knows the connection.
#[derive(Drop)]
pub struct Both<'a> {
    pub tuple: Tuple,
    pub mine: &'a Line,
    pub theirs: Option<&'a Line>,
    pub number: u32,
    pub number_known: bool,
}

impl<'a> Both<'a> {
    ghost use Rattle.line_release.specs.Both.{both_of};

    /// Says whether both lines have an opening, of the same client.
    pub fn has_one_client(&self) -> bool
        ensures { result ≡ has_one_client (both_of self.now) }
    {
        have_one_client(opening(self.mine), their_opening(self.theirs))
    }

    /// The smaller of both lines' acknowledgements, as an offset in the client's stream. Where the
    /// lines have different clients that of the other line counts as 0.
    pub fn smaller_acked(&self) -> Offset
        ensures { result ≡ smaller_acked (both_of self.now) }
    {
        if self.has_one_client() {
            acked(self.mine).min(their_acked(self.theirs))
        } else {
            0
        }
    }

    /// The acknowledgement that goes out.
    pub fn agreed_ack(&self) -> u32
        ensures { result ≡ agreed_ack (both_of self.now) }
    {
        let client = client_or_zero(opening(self.mine));
        client.wrapping_add(self.smaller_acked())
    }

    /// The window that goes out: the smaller of both lines' windows.
    pub fn agreed_window(&self) -> u16
        ensures { result ≡ agreed_window (both_of self.now) }
    {
        window(self.mine).min(their_window(self.theirs))
    }

    /// The maximum segment size that goes out with a SYN: the smaller of both lines' sizes.
    pub fn agreed_mss(&self) -> u16
        ensures { result ≡ min (both_of self.now).mine.mss (both_of self.now).theirs.mss }
    {
        mss(self.mine).min(their_mss(self.theirs))
    }
}

fn have_one_client(mine: Option<Opening>, theirs: Option<Opening>) -> bool
    ensures { result ≡ have_one_client mine theirs }
{
    let Some(mine) = mine else { return false };
    let Some(theirs) = theirs else { return false };
    mine.client == theirs.client
}

fn client_or_zero(opening: Option<Opening>) -> u32
    ensures { result ≡ client_or_zero opening }
{
    match opening {
        None => 0,
        Some(opening) => opening.client,
    }
}

fn opening(line: &Line) -> Option<Opening>
    ensures { result ≡ line.now.opening }
{
    line.opening
}

fn acked(line: &Line) -> Offset
    ensures { result ≡ line.now.acked }
{
    line.acked
}

fn window(line: &Line) -> u16
    ensures { result ≡ line.now.window }
{
    line.window
}

fn mss(line: &Line) -> u16
    ensures { result ≡ line.now.mss }
{
    line.mss
}

fn their_opening(line: Option<&Line>) -> Option<Opening>
    ensures { result ≡ (line_or_none line.entry).opening }
{
    match line {
        None => None,
        Some(line) => opening(line),
    }
}

fn their_acked(line: Option<&Line>) -> Offset
    ensures { result ≡ (line_or_none line.entry).acked }
{
    match line {
        None => 0,
        Some(line) => acked(line),
    }
}

fn their_window(line: Option<&Line>) -> u16
    ensures { result ≡ (line_or_none line.entry).window }
{
    match line {
        None => 0,
        Some(line) => window(line),
    }
}

fn their_mss(line: Option<&Line>) -> u16
    ensures { result ≡ (line_or_none line.entry).mss }
{
    match line {
        None => 0,
        Some(line) => mss(line),
    }
}
