//! Worked examples: each form once, and bad texts.

use colo_base::Cause;
use replay_log::{
    Answer, Line, LineFault, LineWhy, Mark, TurnFrame, parse_log, parse_schedule, parse_single,
    write_line, write_record, write_turn,
};
use std::alloc::Global;
use std::process::Abort;
use std::test::Fail;

const SCHEDULE: &[u8] = b"P 4294967295 1 256 100000\nS 0 0 0 0\nc\n>\n<\nk\nx s\nr\n";

const LOG: &[u8] =
    b"c : 0 - 0 0\nc : 1 1000/5000 4 0\nc : 2 arp 1\nc : 3 drop 14\nc : 4 full\nc : 5 lost\nc : -\n\
P 1 1 0 0 : 0 1\nP 1 0 0 0 : - 0\nP 1 0 0 0 : -\n! q 1 differ\n! k 1\n! a 1\n\
S 2 1 256 100000 : 18446744073709551615 0\n\
S 1 0 0 0 : - 2\nS 1 0 0 0 : -\n\
> : 1\n> : 1 full\n> : 14\n> : -\n< : 12 0 0\n< : -\n\
! q 4294967295 restart\nk : 0\n! q 0 wait\n! q 1 asked\nk : -\nx p : 0\nr : 2\n";

const SINGLE: &[u8] =
    b"T 2 0 0 0\nT 4 - 256 100000\nT 4294967295 18446744073709551615/4294967295/0 0 0\n";

/// Bad schedules, the first bad line and why.
const BAD_SCHEDULES: [(&[u8], u64, LineWhy); 20] = [
    (b"x p\nx s\n", 2, LineWhy::SecondStop),
    (b"r\n", 1, LineWhy::FalseReport),
    (b"x p\nr\nr\n", 3, LineWhy::FalseReport),
    (b"P 1 2 0 0\n", 1, LineWhy::Number),
    (b"P 1 0 0 0", 1, LineWhy::Count),
    (b"Q", 1, LineWhy::Word),
    (b"\n", 1, LineWhy::Word),
    (b"P  1 0 0 0\n", 1, LineWhy::Count),
    (b"P 1 0 0\n", 1, LineWhy::Count),
    (b"P 01 0 0 0\n", 1, LineWhy::Number),
    (b"P - 0 0 0\n", 1, LineWhy::Number),
    (b"P 4294967296 0 0 0\n", 1, LineWhy::Number),
    (b"S 0 0 257 0\n", 1, LineWhy::Number),
    (b"S 0 0 0 100001\n", 1, LineWhy::Number),
    (b"x q\n", 1, LineWhy::Word),
    (b"x\n", 1, LineWhy::Count),
    (b"c \n", 1, LineWhy::Count),
    (b"c\n>\n! k 1\n", 3, LineWhy::Word),
    (b"c : -\n", 1, LineWhy::Count),
    (b"\xFF\n", 1, LineWhy::Word),
];

/// The same of logs.
const BAD_LOGS: [(&[u8], u64, LineWhy); 14] = [
    (b"! k 1\n", 1, LineWhy::Word),
    (b"x p : -\n", 1, LineWhy::Number),
    (b"> : 2 full\n", 1, LineWhy::Number),
    (b"c : 0 arp 2\n", 1, LineWhy::Number),
    (b"c : 0 flop 5\n", 1, LineWhy::Count),
    (b"c\n", 1, LineWhy::Count),
    (b"> : 15\n", 1, LineWhy::Number),
    (b"c : 0 drop 0\n", 1, LineWhy::Number),
    (b"c : 18446744073709551616 full\n", 1, LineWhy::Number),
    (b"c : 0 1/2/3 0 0\n", 1, LineWhy::Number),
    (b"k : -\n! q 1 because\n", 2, LineWhy::Word),
    (b"x p : 0\nx s : 0\n", 2, LineWhy::SecondStop),
    (b"r : 0\n", 1, LineWhy::FalseReport),
    (b"k : 0\n! k 1\n! a 4294967296\n", 3, LineWhy::Number),
];

/// A kind of text. No call has a clause, so that what the contracts say stands in no goal of a
/// test.
trait Text {
    /// How many items a text has, and the text as it is written again.
    fn read(&self, text: &[u8]) -> Result<(usize, Vec<u8>), Fail>;
    /// Where and why a text is refused.
    fn fault(&self, text: &[u8]) -> Option<LineFault>;
}

/// Schedules.
#[derive(Clone, Copy)]
struct Schedules(Global);

/// Logs.
#[derive(Clone, Copy)]
struct Logs(Global);

/// Single runs.
#[derive(Clone, Copy)]
struct Singles(Global);

impl Text for Schedules {
    fn read(&self, text: &[u8]) -> Result<(usize, Vec<u8>), Fail> {
        let lines = parse_schedule(self.0, text)?;
        let mut out = Vec::new(self.0);
        for line in &lines {
            write_line(line, &mut out)?;
        }
        Ok((lines.len(), out))
    }

    fn fault(&self, text: &[u8]) -> Option<LineFault> {
        parse_schedule(self.0, text).err()
    }
}

impl Text for Logs {
    fn read(&self, text: &[u8]) -> Result<(usize, Vec<u8>), Fail> {
        let records = parse_log(self.0, text)?;
        let mut out = Vec::new(self.0);
        for record in &records {
            write_record(record, &mut out)?;
        }
        Ok((records.len(), out))
    }

    fn fault(&self, text: &[u8]) -> Option<LineFault> {
        parse_log(self.0, text).err()
    }
}

impl Text for Singles {
    fn read(&self, text: &[u8]) -> Result<(usize, Vec<u8>), Fail> {
        let turns = parse_single(self.0, text)?;
        let mut out = Vec::new(self.0);
        for turn in &turns {
            write_turn(turn, &mut out)?;
        }
        Ok((turns.len(), out))
    }

    fn fault(&self, text: &[u8]) -> Option<LineFault> {
        parse_single(self.0, text).err()
    }
}

/// Asserts that a text is written again as it was read, and answers how many items it has.
fn count<R: Abort, T: Text>(rt: &R, kind: &T, text: &[u8]) -> Result<usize, Fail> {
    let (count, again) = kind.read(text)?;
    assert_eq!(rt; again.as_slice(), text);
    Ok(count)
}

/// Asserts where and why each text is refused.
fn are_refused<R: Abort, T: Text>(rt: &R, kind: &T, cases: &[(&[u8], u64, LineWhy)]) {
    for (text, line, why) in cases {
        let fault = LineFault::Bad {
            line: *line,
            why: *why,
        };
        assert_eq!(rt; kind.fault(text), Some(fault));
    }
}

/// A line of a schedule.
fn line_at(alloc: Global, text: &[u8], k: usize) -> Result<Option<Line>, Fail> {
    Ok(parse_schedule(alloc, text)?.get(k).copied())
}

/// The answer of a record of a log, and its first mark.
fn record_at(alloc: Global, text: &[u8], k: usize) -> Result<(Answer, Option<Mark>), Fail> {
    let records = parse_log(alloc, text)?;
    let record = records.get(k).ok_or("no record")?;
    Ok((record.answer, record.marks.as_slice().first().copied()))
}

/// The frame of the first turn of a single run.
fn first_frame(alloc: Global, text: &[u8]) -> Result<TurnFrame, Fail> {
    let turns = parse_single(alloc, text)?;
    Ok(turns.get(0).ok_or("no turn")?.frame)
}

#[test]
fn a_schedule_is_read_and_written(rt: HostRuntime) -> Result<(), Fail> {
    assert_eq!(rt; count(&rt, &Schedules(rt.alloc()), SCHEDULE)?, 8);
    assert_eq!(rt; count(&rt, &Schedules(rt.alloc()), b"")?, 0);
    assert_eq!(rt;
        line_at(rt.alloc(), SCHEDULE, 6)?,
        Some(Line::StopSecondary)
    );
    Ok(())
}

#[test]
fn a_log_is_read_and_written(rt: HostRuntime) -> Result<(), Fail> {
    assert_eq!(rt; count(&rt, &Logs(rt.alloc()), LOG)?, 23);
    assert_eq!(rt; count(&rt, &Logs(rt.alloc()), b"x s : 0\n")?, 1);
    let (paused, mark) = record_at(rt.alloc(), LOG, 9)?;
    assert_eq!(rt; paused, Answer::Nothing);
    let captured = Mark::Captured {
        e: 1,
        why: Cause::Differ,
    };
    assert_eq!(rt; mark, Some(captured));
    Ok(())
}

#[test]
fn a_single_run_is_read_and_written(rt: HostRuntime) -> Result<(), Fail> {
    assert_eq!(rt; count(&rt, &Singles(rt.alloc()), SINGLE)?, 3);
    let first = first_frame(rt.alloc(), SINGLE)?;
    assert_eq!(rt; first, TurnFrame::Plain { index: 0 });
    Ok(())
}

#[test]
fn a_bad_schedule_is_refused_at_its_first_bad_line(rt: HostRuntime) {
    are_refused(&rt, &Schedules(rt.alloc()), &BAD_SCHEDULES);
}

#[test]
fn a_bad_log_is_refused_at_its_first_bad_line(rt: HostRuntime) {
    are_refused(&rt, &Logs(rt.alloc()), &BAD_LOGS);
}
