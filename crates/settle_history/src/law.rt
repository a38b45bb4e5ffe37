//! A comparer that stands for a history goes on to do so, call by call, and answers what the rules
//! say of that history. The functions do nothing: their contracts are what is proved.

ghost use Rattle.settle_history.specs.Laws.{BeginsWithNothing, TakesOwnFrame, TakesOwnFrames, AnswersOwnFrame, SaysNewNumbers, TakesHeardFrame, AnswersHeardFrame, LearnsNumber, LooksAtClient, Captures, Acknowledges, RemainsAlone, SettlesByTheRules, ReadsFromTheBase, SurvivesByTheRules};

/// A new comparer stands for an empty history. After `primary` and `own` it stands for one segment
/// more of the event's own, where the frame counts, and what they answer is what the rules say of
/// it, the newly kept number with it.
#[tactic(auto, using(crate::proofs::CallLemmas::begins_with_nothing))]
pub fn takes_own_frames()
    ensures new { BeginsWithNothing }
    ensures frame { TakesOwnFrame }
    ensures frames { TakesOwnFrames }
    ensures answer { AnswersOwnFrame }
    ensures numbers { SaysNewNumbers }
{}

/// After `secondary` it stands for one segment more of the other guest, where the frame counts, and
/// its tuple is among those restarted in the event where it is a restart.
pub fn takes_heard_frame()
    ensures frame { TakesHeardFrame }
    ensures answer { AnswersHeardFrame }
{}

/// After `known` the other node is known to have a number; after `captured` the numbers of current
/// openings alone are kept; after `acknowledged` the node's own items, with a commit, are what it
/// knows of the other guest's, and all numbers are known; after `alone` it is alone.
#[tactic(auto, using(crate::proofs::CallLemmas::remains_alone))]
pub fn follows_checkpoints()
    ensures known { LearnsNumber }
    ensures captured { Captures }
    ensures acknowledged { Acknowledges }
    ensures alone { RemainsAlone }
{}

/// `client` answers what the client was shown and how far its segment trims by the history, and
/// then it stands for both guests' items with that trim.
pub fn looks_at_client()
    ensures { LooksAtClient }
{}

/// `settle` releases what the rules say of the whole history, asks for a checkpoint where they name
/// a cause, with its tuple, and then stands for the history with the progress that they say. Of a
/// line it reads no symbol below the base, which is trimmed.
pub fn settles_by_the_rules()
    ensures settles { SettlesByTheRules }
    ensures reads { ReadsFromTheBase }
{}

/// `survive` releases what the rules say of the secondary's items and numbers, and the comparer
/// that it answers, alone, stands for them.
pub fn survives_by_the_rules()
    ensures { SurvivesByTheRules }
{}
