//! Two parts of the theorem, Stands and Acks.

ghost use Rattle.theorem_joins.specs.Joins.{AcksOfEachLog, SecondaryCouldGoOn, SecondaryGoesOn, StandsOfEachLog};

/// From each start, on every schedule with at most one stop: all that was released stands in the
/// run that the log names, symbol by symbol, reset by reset and refusal by refusal, and each
/// acknowledgement is at most one that the run sent. On the way: until a report all of it stands in
/// what the secondary sent, so that it could go on alone; and once the primary is stopped it does
/// from then on, what the survivor releases with it.
pub fn released_stands()
    ensures could { SecondaryCouldGoOn }
    ensures goes_on { SecondaryGoesOn }
    ensures stands { StandsOfEachLog }
    ensures acks { AcksOfEachLog }
{}
