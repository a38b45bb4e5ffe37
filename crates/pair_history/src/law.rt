//! A pair that stands for a past makes the theorem's event of each line, and then stands for the
//! past after it. The functions do nothing: their contracts are what is proved.

ghost use Rattle.pair_history.specs.Laws.{BeginsAtBoot, DownIsDue, GoesOn, PrimaryGoesOn, RunsTheLog, SecondaryGoesOn, UpIsDue};
ghost use Rattle.replay_log.specs.declared.lines.Line.TheVariants.{Client, ToSecondary, ToPrimary, StopPrimary, StopSecondary, Report, Ask};

/// A pair of which no event has happened stands for the past of two guests that have sent nothing.
pub fn begins_at_boot()
    ensures { BeginsAtBoot }
{}

/// A turn of either node.
pub fn turns_go_on()
    ensures primary { PrimaryGoesOn }
    ensures secondary { SecondaryGoesOn }
{}

/// A client's frame comes.
pub fn clients_go_on()
    ensures { GoesOn Client }
{}

/// A message is delivered: what it brings is what the theorem says.
pub fn deliveries_go_on()
    ensures down { GoesOn ToSecondary }
    ensures up { GoesOn ToPrimary }
{}

/// Each message is due when it comes.
pub fn each_message_is_due()
    ensures down { DownIsDue }
    ensures up { UpIsDue }
{}

/// A node stops, or its stop is reported.
pub fn stops_go_on()
    ensures primary { GoesOn StopPrimary }
    ensures secondary { GoesOn StopSecondary }
    ensures report { GoesOn Report }
{}

/// A checkpoint is asked for.
pub fn asks_go_on()
    ensures { GoesOn Ask }
{}

/// So the events of a pair, one line after the other, are the log of the theorem.
pub fn runs_the_log()
    ensures { RunsTheLog }
{}
