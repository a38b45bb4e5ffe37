//! The texts, read.

ghost use Rattle.std.specs.Prelude.{◌≡◌, List, IfOk, IfErr, MatchResult};
ghost use Rattle.replay_log.specs.Cases.{first_bad, IsFault};
ghost use Rattle.replay_log.specs.Forms.{schedule_forms, log_forms, single_forms};
ghost use Rattle.replay_log.specs.Texts.{IsSchedule, IsLog, IsSingle};
ghost use Rattle.replay_log.specs.declared.lines.Line.{Line};
ghost use Rattle.replay_log.specs.declared.records.Record.{Record};
ghost use Rattle.replay_log.specs.declared.turns.Turn.{Turn};
ghost use Rattle.replay_log.specs.declared.causes.LineFault.TheVariants as variant;

use crate::causes::LineFault;
use crate::gathering::{lines_in, records_in, turns_in};
use crate::lines::Line;
use crate::records::Record;
use crate::tables::{log_forms, schedule_forms, single_forms};
use crate::texts::read_items;
use crate::turns::Turn;
use std::alloc::Global;

/// The lines of a schedule. `Bad` exactly where the text is none, with its first bad line and that
/// line's first case.
pub fn parse_schedule(alloc: Global, text: &[u8]) -> Result<Vec<Line>, LineFault>
    ensures ok { IfOk result (λ lines. IsSchedule lines.items text.now) }
    ensures each { (all : List Line) → IsSchedule all text.now →
        MatchResult result (λ lines. lines.items ≡ all) (λ fault. fault ≡ variant.NoMemory) }
    ensures bad { IfErr result (λ fault. IsFault fault (first_bad schedule_forms text.now)) }
{
    let items = read_items(alloc, schedule_forms(), text)?;
    let lines = lines_in(alloc, &items)?;
    Ok(lines)
}

/// The turns of a single run. `Bad` exactly where the text is none, with its first bad line and
/// that line's first case.
pub fn parse_single(alloc: Global, text: &[u8]) -> Result<Vec<Turn>, LineFault>
    ensures ok { IfOk result (λ turns. IsSingle turns.items text.now) }
    ensures each { (all : List Turn) → IsSingle all text.now →
        MatchResult result (λ turns. turns.items ≡ all) (λ fault. fault ≡ variant.NoMemory) }
    ensures bad { IfErr result (λ fault. IsFault fault (first_bad single_forms text.now)) }
{
    let items = read_items(alloc, single_forms(), text)?;
    let turns = turns_in(alloc, &items)?;
    Ok(turns)
}

/// The events of a log. `Bad` exactly where the text is none, with its first bad line and that
/// line's first case.
pub fn parse_log(alloc: Global, text: &[u8]) -> Result<Vec<Record>, LineFault>
    ensures ok { IfOk result (λ records. IsLog records.items text.now) }
    ensures each { (all : List Record) → IsLog all text.now →
        MatchResult result (λ records. records.items ≡ all) (λ fault. fault ≡ variant.NoMemory) }
    ensures bad { IfErr result (λ fault. IsFault fault (first_bad log_forms text.now)) }
{
    let items = read_items(alloc, log_forms(), text)?;
    let records = records_in(alloc, &items)?;
    Ok(records)
}
