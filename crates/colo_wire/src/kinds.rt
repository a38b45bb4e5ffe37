//! The kinds of message, by their numbers.

ghost use Rattle.std.specs.Prelude.{◌≡◌};
ghost use Rattle.colo_wire.specs.Kinds.{kind_at, number_of_kind};

/// The kind of a message. To the secondary go the first eleven, to the primary the others.
#[derive(Clone, Copy)]
pub enum Kind {
    Frame,
    Number,
    Begin,
    State,
    Page,
    Disk,
    Write,
    Held,
    Line,
    Bytes,
    End,
    Known,
    Sent,
    Ack,
}

/// All kinds, in the order of their numbers.
const KINDS: [Kind; 14] = [
    Kind::Frame,
    Kind::Number,
    Kind::Begin,
    Kind::State,
    Kind::Page,
    Kind::Disk,
    Kind::Write,
    Kind::Held,
    Kind::Line,
    Kind::Bytes,
    Kind::End,
    Kind::Known,
    Kind::Sent,
    Kind::Ack,
];

/// The kind with a number, from 1 on.
pub fn kind_at(number: u8) -> Option<Kind>
    ensures { result ≡ kind_at number }
{
    if number == 0 {
        return None;
    }
    let kind = KINDS.get(number as usize - 1)?;
    Some(*kind)
}

/// The number of a kind.
pub fn number_of_kind(kind: Kind) -> u8
    ensures { result ≡ number_of_kind kind }
{
    match kind {
        Kind::Frame => 1,
        Kind::Number => 2,
        Kind::Begin => 3,
        Kind::State => 4,
        Kind::Page => 5,
        Kind::Disk => 6,
        Kind::Write => 7,
        Kind::Held => 8,
        Kind::Line => 9,
        Kind::Bytes => 10,
        Kind::End => 11,
        Kind::Known => 12,
        Kind::Sent => 13,
        Kind::Ack => 14,
    }
}
