//! Messages, read.

ghost use Rattle.std.specs.Prelude.{◌≡◌, ◌≢◌, ◌<◌, ◌+◌, ◌^◌, ℕ, length, IfErr, IfOk, MatchResult};
ghost use Rattle.colo_wire.specs.Faults.{IsFault, IsFirst};
ghost use Rattle.colo_wire.specs.Forms.{lengths_of};
ghost use Rattle.colo_wire.specs.Lengths.{AllowsLength};
ghost use Rattle.colo_wire.specs.Making.{message_in};
ghost use Rattle.colo_wire.specs.Judging.{judge, judge_body, judge_rest};
ghost use Rattle.colo_wire.specs.declared.faults.WireFault.{WireFault};
ghost use Rattle.colo_wire.specs.declared.faults.WireFault.TheVariants.{NoMemory};
ghost use Rattle.colo_wire.specs.declared.messages.Message.{Message};

use crate::faults::WireFault;
use crate::forms::places_of;
use crate::kinds::{Kind, kind_at};
use crate::lengths::may_begin_length;
use crate::making::message_in;
use crate::messages::Message;
use crate::places::{cut, follows};
use std::alloc::Global;

/// The kind of the message in front, and the length of its body, where it is whole and good.
fn judge(bytes: &[u8]) -> Result<(Kind, usize), WireFault>
    ensures { result ≡ judge bytes.now }
{
    let [number, rest @ ..] = bytes else {
        return Err(WireFault::More);
    };
    match kind_at(*number) {
        Some(kind) => judge_rest(kind, rest),
        None => Err(WireFault::Kind),
    }
}

/// The same of what follows the kind.
#[tactic(auto, unfolding(crate::specs::Judging::judge_rest))]
fn judge_rest(kind: Kind, rest: &[u8]) -> Result<(Kind, usize), WireFault>
    ensures { result ≡ judge_rest kind rest.now }
{
    let (part, rest) = cut(rest, 4);
    if !may_begin_length(kind, part) {
        return Err(WireFault::Length);
    }
    if part.len() < 4 {
        return Err(WireFault::More);
    }
    let len = u32::from_be_bytes([part[0], part[1], part[2], part[3]]);
    judge_body(kind, len as usize, rest)
}

/// The same of what follows the length, where it is allowed.
#[tactic(auto, unfolding(crate::specs::Judging::judge_body))]
fn judge_body(kind: Kind, len: usize, rest: &[u8]) -> Result<(Kind, usize), WireFault>
    ensures { result ≡ judge_body kind len rest.now }
{
    let (body, _) = cut(rest, len);
    if !follows(places_of(kind), 0, body) {
        return Err(WireFault::Field);
    }
    if body.len() < len {
        return Err(WireFault::More);
    }
    Ok((kind, len))
}

/// The message of a whole body, and its size with kind and length.
fn made(alloc: Global, kind: Kind, body: &[u8]) -> Result<(Message, usize), WireFault>
    requires allowed { AllowsLength (lengths_of kind) (length body.now) }
    requires small { length body.now < 2 ^ 32 }
    ensures ok { IfOk result (λ r. r ≡ (message_in kind body.now, 5 + length body.now)) }
    ensures err { IfErr result (λ fault. fault ≡ NoMemory) }
{
    let message = message_in(alloc, kind, body)?;
    Ok((message, 5 + body.len()))
}

/// The message in front of `bytes`, and how many of them it takes.
///
/// `More` comes exactly where the bytes are the beginning of a message and not all of it. `Kind`,
/// `Length` and `Field` come exactly where no message goes on as the bytes do, by the first place
/// where they differ. What is taken of memory is at most the bytes that came.
pub fn decode(alloc: Global, bytes: &[u8]) -> Result<(Message, usize), WireFault>
    ensures found { IfOk result (λ r. IsFirst r.0 r.1 bytes.now) }
    ensures only { (m : Message) (k : ℕ) → IsFirst m k bytes.now →
        MatchResult result (λ r. r ≡ (m, k)) (λ fault. fault ≡ NoMemory) }
    ensures fault { IfErr result (λ fault. fault ≢ NoMemory → IsFault fault bytes.now) }
    ensures each { (fault : WireFault) → IsFault fault bytes.now → result ≡ Err fault }
{
    match judge(bytes) {
        Ok((kind, len)) => {
            let (_, rest) = cut(bytes, 5);
            let (body, _) = cut(rest, len);
            made(alloc, kind, body)
        }
        Err(fault) => Err(fault),
    }
}
