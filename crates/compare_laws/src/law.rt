//! What holds of a comparer after any list of calls that answered well. The functions do nothing:
//! their contracts are what is proved.

ghost use Rattle.compare_laws.specs.Laws.{KeepsOwnLines, TakesEachFrame, KeepsOwnOrder, GoesOn, KnowsWhatWasHeard, HearsEachFrame, KnowsACopy, KeepsNumbers, KnowsNumbers, SettlesWithKeptNumbers, IgnoresOthers, ReadsItsOwnSegments, KeepsProgress, KeepsShown, KeepsEdges, KeepsAges};

/// The lines of the node's own guest are those of all its frames taken, without the trimmed
/// symbols, in the order of first opening or refusal.
#[tactic(auto, using(crate::proofs::LineLemmas::keeps_own_lines, crate::proofs::LineLemmas::takes_each_frame, crate::proofs::LineLemmas::keeps_own_order, crate::proofs::LineLemmas::goes_on))]
pub fn keeps_own_lines()
    ensures lines { KeepsOwnLines }
    ensures frames { TakesEachFrame }
    ensures order { KeepsOwnOrder }
    ensures goes_on { GoesOn }
{}

/// The known lines of the other guest are those of its frames taken since the last acknowledgement,
/// over a copy of the node's own lines at that acknowledgement, without the symbols that a client's
/// trim took of both.
#[tactic(auto, using(crate::proofs::LineLemmas::knows_what_was_heard, crate::proofs::LineLemmas::hears_each_frame, crate::proofs::LineLemmas::knows_a_copy))]
pub fn knows_the_others_lines()
    ensures heard { KnowsWhatWasHeard }
    ensures frames { HearsEachFrame }
    ensures copied { KnowsACopy }
{}

/// The numbers are the kept numbers of all calls, the other node is known to have exactly those
/// that it was said or acknowledged to have, and a settling reads them.
#[tactic(auto, using(crate::proofs::NumberLemmas::keeps_numbers, crate::proofs::NumberLemmas::knows_numbers, crate::proofs::NumberLemmas::settles_with_kept_numbers))]
pub fn keeps_numbers()
    ensures numbers { KeepsNumbers }
    ensures known { KnowsNumbers }
    ensures settles { SettlesWithKeptNumbers }
{}

/// A frame that doesn't count changes nothing, and a connection is settled by its own segments.
#[tactic(auto, using(crate::proofs::SegmentLemmas::reads_its_own_segments))]
pub fn reads_each_segment_once()
    ensures others { IgnoresOthers }
    ensures own { ReadsItsOwnSegments }
{}

/// From a new comparer and from a survivor's on, edges and ages are those of the rules, and what is
/// due, last said and last shown is that of the connection's own calls.
#[tactic(auto, using(crate::proofs::AgeLemmas::keeps_edges, crate::proofs::AgeLemmas::keeps_ages, crate::proofs::AgeLemmas::keeps_progress, crate::proofs::AgeLemmas::keeps_shown))]
pub fn keeps_progress()
    ensures edges { KeepsEdges }
    ensures ages { KeepsAges }
    ensures progress { KeepsProgress }
    ensures shown { KeepsShown }
{}
