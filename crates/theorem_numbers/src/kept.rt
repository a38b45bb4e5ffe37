//! One number for a client, as long as the run stays with it.

ghost use Rattle.theorem_numbers.specs.Kept.{NumbersWithPrimary, NumbersWithoutStop};

/// From each start, on every schedule with at most one stop, until a survivor releases: the number
/// of each SYN that was shown is the one that is kept for its client, or the primary left that
/// client for another one; and no two numbers were shown to a client that it did not leave and come
/// back to.
pub fn numbers_with_primary()
    ensures { NumbersWithPrimary }
{}

/// So Numbers, a part of the theorem, holds of each log without a stop of the primary.
pub fn numbers_without_stop()
    ensures { NumbersWithoutStop }
{}
