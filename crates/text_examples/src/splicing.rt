//! Worked logs, and the single runs that they name.

use replay_log::{parse_log, write_turn};
use splice_run::splice;
use std::alloc::Global;
use std::test::Fail;

/// Two echoes of a connection, and a failover before any checkpoint.
const BEFORE: &[u8] = b"c : 0 - 0 0\nP 1 1 0 0 : 0 0\n> : 1\n> : 2\nS 2 1 0 0 : 0 0\n\
< : 12 0 0\n< : 13 1 1\n\
x p : 0\nr : 1\nS 4 0 0 0 : - 1\n";

/// A failover while a checkpoint is under way.
const WITHIN: &[u8] = b"c : 0 - 0 0\nP 1 1 0 0 : 0 0\n> : 1\n> : 2\nS 2 1 0 0 : 0 0\n\
< : 12 0 0\n< : 13 1 1\n\
P 6 0 0 0 : - 0\nS 7 0 0 0 : - 0\n< : 13 2 1\n! q 1 differ\nP 1 0 0 0 : -\n\
> : 3\n> : 4\n> : 9\n> : 10\nx p : 0\nr : 2\n";

/// A failover after its commit.
const AFTER: &[u8] = b"c : 0 - 0 0\nP 1 1 0 0 : 0 0\n> : 1\n> : 2\nS 2 1 0 0 : 0 0\n\
< : 12 0 0\n< : 13 1 1\n\
P 6 0 0 0 : - 0\nS 7 0 0 0 : - 0\n< : 13 2 1\n! q 1 differ\nP 1 0 0 0 : -\n\
> : 3\n> : 4\n> : 9\n> : 10\n> : 11\n! k 1\n\
x p : 0\nr : 2\n";

/// No stop, a frame with an opening seen, and marks that no pair makes.
const RUNNING: &[u8] =
    b"c : 3 1000/5000 4 0\nc : 3 - 0 0\nP 1 1 2 9 : 3 0\n! k 7\nP 9 0 0 0 : -\nS 5 0 0 0 : - 0\n! q 7 wait\n\
P 2 1 0 0 : 4 1\nx s : 0\n";

/// The single run of a log, as text.
fn single(alloc: Global, log: &[u8]) -> Result<Vec<u8>, Fail> {
    let records = parse_log(alloc, log)?;
    let turns = splice(alloc, &records)?;
    let mut text = Vec::new(alloc);
    for turn in &turns {
        write_turn(turn, &mut text)?;
    }
    Ok(text)
}

#[test]
fn a_failover_before_a_checkpoint_leaves_the_secondarys_turns(rt: HostRuntime) -> Result<(), Fail> {
    assert_eq!(rt;
        single(rt.alloc(), BEFORE)?.as_slice(),
        b"T 2 0 0 0\nT 4 - 0 0\n".as_slice()
    );
    assert_eq!(rt;
        single(rt.alloc(), WITHIN)?.as_slice(),
        b"T 2 0 0 0\nT 7 - 0 0\n".as_slice()
    );
    Ok(())
}

#[test]
fn a_failover_after_a_commit_leaves_the_captured_turns(rt: HostRuntime) -> Result<(), Fail> {
    assert_eq!(rt;
        single(rt.alloc(), AFTER)?.as_slice(),
        b"T 1 0 0 0\nT 6 - 0 0\n".as_slice()
    );
    Ok(())
}

#[test]
fn without_a_stop_the_primarys_turns_are_left(rt: HostRuntime) -> Result<(), Fail> {
    assert_eq!(rt;
        single(rt.alloc(), RUNNING)?.as_slice(),
        b"T 1 3/1000/5000 2 9\nT 2 4 0 0\n".as_slice()
    );
    Ok(())
}
