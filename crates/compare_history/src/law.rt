//! A comparer that stands for a past of the pair answers each event as the theorem says, and then
//! stands for the past after it. The functions do nothing: their contracts are what is proved.

ghost use Rattle.compare_history.specs.Laws.{BeginsAtBoot, PrimaryTurns, SurvivorTurns, HearsKnown, HearsSent, HearsAck, PrimarySurvives, SecondarySurvives, CapturesThePast, PrimaryLooks, SurvivorLooks};

/// A new comparer stands for the past of two guests that have sent nothing. A turn of the primary
/// or of a survivor releases what the event says, and the same numbers are told.
pub fn follows_turns()
    ensures boot { BeginsAtBoot }
    ensures primary { PrimaryTurns }
    ensures survivor { SurvivorTurns }
{}

/// So does each message that the primary hears, and a capture leaves the numbers of the past.
pub fn follows_messages()
    ensures known { HearsKnown }
    ensures sent { HearsSent }
    ensures acknowledged { HearsAck }
    ensures captured { CapturesThePast }
{}

/// And the report of either stop.
pub fn follows_reports()
    ensures primary { PrimarySurvives }
    ensures secondary { SecondarySurvives }
{}

/// A client's frame is answered as the past says, and trims what the past trims.
pub fn follows_clients()
    ensures primary { PrimaryLooks }
    ensures survivor { SurvivorLooks }
{}
