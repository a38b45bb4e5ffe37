//! The trait of a guest.

ghost use Rattle.std.specs.Prelude.{◌≡◌, ◌≤◌, ◌++◌, ℕ, List, IsTrue, OnOk, OnErr, IfSome, length, slice_get};
ghost use Rattle.std.specs.Io.{StartsWith};
ghost use Rattle.std.specs.Option.{ForSome, option_copied};

use colo_base::{Frames, NoMemory};

/// A machine that runs turn by turn, whose state can be read and loaded in parts.
///
/// Contracts see its ghost member `meaning`: a kind, which no call changes; a state; and how many
/// turns this value has made. What its calls answer and leave are functions of the kind, the state
/// and the arguments. After `NoMemory` from a call by `&mut self` nothing is said of the state.
pub trait Guest {
    ghost use Rattle.state_wire.specs.Guest.{BeginsWith, CanReceive, IsFrame, KeepsKind, Meaning, after_turn, sent_in, turn_of, with_bytes, with_page, with_sector};

    ghost meaning: { Self → Meaning };

    /// Whether a turn may receive a frame now.
    fn can_receive(&self) -> bool
        ensures { result ≡ (meaning self.now).kind.can_receive (meaning self.now).state };

    /// Makes one turn: the clock goes on by `ticks`, then `frame` is received, then at most
    /// `requests` block requests are served, then `steps` steps are made. The frames that are sent,
    /// other than ARP, are appended to `out`.
    ///
    /// A frame has 14 to 1,514 bytes, and is given only where `can_receive` holds. There are at
    /// most 256 requests and 100,000 steps. After `NoMemory` the turn isn't counted, and `out`
    /// begins with what it held.
    fn turn(
        &mut self,
        ticks: u64,
        frame: Option<&[u8]>,
        requests: u32,
        steps: u32,
        out: &mut Frames,
    ) -> Result<(), NoMemory>
        requires frame { ForSome frame (λ bytes. IsFrame bytes.now) }
        requires receives { CanReceive (meaning self.old) (option_copied frame) }
        requires requests { requests ≤ 256 }
        requires steps { steps ≤ 100000 }
        ensures after { OnOk result (meaning self.new
            ≡ after_turn (meaning self.old)
            (turn_of ticks (option_copied frame.entry) requests steps)) }
        ensures sent { OnOk result (out.new
            ≡ out.old ++ sent_in (meaning self.old)
            (turn_of ticks (option_copied frame.entry) requests steps)) }
        ensures front { BeginsWith out.new out.old }
        ensures failed { OnErr result (KeepsKind (meaning self.old) (meaning self.new)) };

    /// How many turns this value has made, modulo 2^64. A new guest has made none, and loading
    /// doesn't count.
    fn turned(&self) -> u64
        ensures { result ≡ (meaning self.now).turned };

    /// How many pages its memory has.
    fn pages(&self) -> u32
        ensures kind { result ≡ (meaning self.now).kind.page_count }
        ensures state { result ≡ length (meaning self.now).state.pages };

    /// The page with number `k`, counted from 0: 4,096 bytes. `None` exactly where `k` is not below
    /// `pages`.
    fn page(&self, k: u32) -> Option<&[u8]>
        ensures page { option_copied result ≡ slice_get (meaning self.now).state.pages k }
        ensures size { IfSome result (λ bytes. length bytes.now ≡ 4096) };

    /// How many sectors its disk has.
    fn sectors(&self) -> u32
        ensures kind { result ≡ (meaning self.now).kind.sector_count }
        ensures state { result ≡ length (meaning self.now).state.sectors };

    /// The sector with number `k`, counted from 0: 512 bytes. `None` exactly where `k` is not below
    /// `sectors`.
    fn sector(&self, k: u32) -> Option<&[u8]>
        ensures sector { option_copied result ≡ slice_get (meaning self.now).state.sectors k }
        ensures size { IfSome result (λ bytes. length bytes.now ≡ 512) };

    /// Appends the state's bytes to `into`. There are at most 16,777,216, and every guest of the
    /// kind accepts them.
    ///
    /// After `NoMemory` `into` begins with what it held.
    fn state(&self, into: &mut Vec<u8>) -> Result<(), NoMemory>
        ensures bytes { OnOk result (into.new.items
            ≡ into.old.items ++ (meaning self.now).state.bytes) }
        ensures accepted { OnOk result (IsTrue
            ((meaning self.now).kind.accepts (meaning self.now).state.bytes)) }
        ensures size { OnOk result (length (meaning self.now).state.bytes ≤ 16777216) }
        ensures front { StartsWith into.new.items into.old.items };

    /// Whether `state` is the bytes of some state of the kind. It has at most 16,777,216 bytes
    /// then.
    fn accepts(&self, state: &[u8]) -> bool
        ensures value { result ≡ (meaning self.now).kind.accepts state.now }
        ensures size { IsTrue result → length state.now ≤ 16777216 };

    /// Makes these the state's bytes. Pages, sectors and the count of turns stay.
    ///
    /// The guest must accept them.
    fn load_state(&mut self, state: &[u8]) -> Result<(), NoMemory>
        requires accepted { IsTrue ((meaning self.old).kind.accepts state.now) }
        ensures ok { OnOk result (meaning self.new ≡ with_bytes (meaning self.old) state.now) }
        ensures failed { OnErr result (KeepsKind (meaning self.old) (meaning self.new)) };

    /// Makes these 4,096 bytes the page with number `k`. All else stays. Where there is no such
    /// page nothing changes.
    fn load_page(&mut self, k: u32, bytes: &[u8])
        requires { length bytes.now ≡ 4096 }
        ensures { meaning self.new ≡ with_page (meaning self.old) k bytes.now };

    /// Makes these 512 bytes the sector with number `k`. All else stays. Where there is no such
    /// sector nothing changes.
    fn load_sector(&mut self, k: u32, bytes: &[u8])
        requires { length bytes.now ≡ 512 }
        ensures { meaning self.new ≡ with_sector (meaning self.old) k bytes.now };
}
