//! The numbers of a survivor.

ghost use Rattle.pair_theorem.specs.Splicing.{SplicesEachLog};
ghost use Rattle.theorem_survivor.specs.Survivor.{SurvivorNumbersOfEachLog};

/// From each start, on every schedule with at most one stop: a SYN that goes out at the report of
/// the primary's stop has the number that the survivor was told or took over with the last
/// committed checkpoint. Where it keeps none it has that of its guest's own SYN, and the primary
/// released no SYN of that tuple and client since the last committed capture. With it all six
/// sentences on splicing hold of each log.
pub fn survivor_numbers()
    ensures numbers { SurvivorNumbersOfEachLog }
    ensures splices { SplicesEachLog }
{}
