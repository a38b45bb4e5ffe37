//! One part of the theorem, Numbers.

ghost use Rattle.theorem_shown.specs.Shown.{NumbersOfEachLog, SecondaryCouldShow, SurvivorGoesOn};

/// From each start, on every schedule with at most one stop: two SYNs that were shown for one tuple
/// and client have one number, unless the run went over to another client and came back. On the
/// way: until a report each number that was shown is one that the secondary keeps, or what it sent
/// left the client, so that it could go on alone; and a survivor goes on with these numbers.
pub fn one_number_shown()
    ensures could { SecondaryCouldShow }
    ensures goes_on { SurvivorGoesOn }
    ensures numbers { NumbersOfEachLog }
{}
