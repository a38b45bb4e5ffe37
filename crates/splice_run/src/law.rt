//! Laws of the single run.

ghost use Rattle.std.specs.Prelude.{◌≡◌, ℕ, All, List, flat_map};
ghost use Rattle.replay_log.specs.Texts.{IsLog, IsSingle, turn_text};
ghost use Rattle.replay_log.specs.declared.records.Record.{Record};
ghost use Rattle.replay_log.specs.declared.turns.Turn.{Turn};
ghost use Rattle.splice_run.specs.Solo.{IsInLimits};
ghost use Rattle.splice_run.specs.Single.{single_run, taken_turns, turns_by_marks};

/// A law: the turns of the single run by the positions of a log's marks are those of its fold, on
/// every log.
pub fn splices_by_marks()
    ensures { (log : List Record) → taken_turns log ≡ turns_by_marks log }
{}

/// A law: the single run of a log that has a text has one too, the join of its turns' lines. So it
/// is read again.
pub fn single_run_is_spelled()
    ensures { (log : List Record) (text : List ℕ) → IsLog log text
        → IsSingle (single_run log) (flat_map turn_text (single_run log)) }
{}

/// A law: the turns of a single run that has a text are in the limits of a guest.
pub fn single_run_is_in_limits()
    ensures { (turns : List Turn) (text : List ℕ) → IsSingle turns text → All IsInLimits turns }
{}
