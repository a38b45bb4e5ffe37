//! A secondary whose primary stops: before a checkpoint, in the middle of one and after it. What
//! the guest sends goes out under the number 5000.

use crate::script::plays;
use node_secondary::Secondary;
use state_wire::ScriptGuest;
use std::process::Abort;
use std::test::Fail;

/// The guest takes the client's SYN and answers it. Two messages about that wait.
const OPENED: &str = "\
hear number 00001388 : 2
hear frame syn : 1
turn 1 1 : 5
";

/// What waits is lost, and from then on nothing is due.
const WAITING: &str = "\
client 6 ack-5004 : not alone
report : 1
out 0 syn-5000 : yes
says : nothing
hear number 00001388 : not due 2
hear begin 00000001 : not due 3
turn 4 0 : -
released : 1
out 0 first-5001 : yes
says : nothing
report : 0
";

/// The guest sends bytes that the primary's guest didn't send.
const SENT: &str = "\
turn 7 0 : -
";

/// The messages of a checkpoint without its end.
const PARTS: [&str; 5] = [
    "hear begin 00000001 : 3\n",
    "hear state 0000000000000064 : 4\n",
    "hear held syn : 8\n",
    "hear line 01 opened 00000000 : 9\n",
    "hear 0A 00000003 616263 : 10\n",
];

/// The guest's number is 31 * 0 + 1 + 1, which is 2, and then 31 * 2 + 7 + 1, which is 70.
const UNLOADED: &str = "\
report : 2
out 0 syn-5000 : yes
out 1 abd-5001 : yes
says : nothing
state 0000000000000046 syn : yes
turns : 2
";

/// The end of the checkpoint.
const COMMIT: &str = "\
hear end 00000001 : 11 commits 1
";

/// The acknowledgement waits, and is lost. The guest's number is 100, and then 31 * 100 + 0 + 1,
/// which is 3101.
const LOADED: &str = "\
report : 2
out 0 syn-5000 : yes
out 1 abc-5001 : yes
says : nothing
state 0000000000000064 : yes
turn 0 1 : 5
state 0000000000000C1D syn : yes
turns : 3
";

/// The guest opens again, with 5000 this time, and has sent no byte since.
const REOPENED: &str = "\
turn 6 0 : -
report : 1
out 0 syn-5000 : yes
";

/// The client acknowledges three bytes, which are forgotten, and then more than was sent. The guest
/// is told the acknowledgement of its own number, sends the next seven bytes, and then the first
/// three again: none of them is left, and a segment without bytes goes out. The guest's number is
/// 31 * 2 + 4 + 1, which is 67, and then 31 * 67 + 5 + 1, which is 2083.
const TRIMMED: &str = "\
client 6 ack-5004 : taken 1000 5000 4
released : 0
client 7 ack-5012 : taken 1000 5000 0
turn 5 1 : 6
released : 1
out 0 rest-5004 : yes
state 0000000000000823 ack-9004 : yes
turn 4 0 : -
released : 1
out 0 ack-5011 : yes
";

/// 4,096 frames wait, and one more finds room after a turn took one. An ARP request needs none.
const FULL: &str = "\
report : 0
crowd 5 syn : taken
client 6 syn : full
client 7 datagram : dropped 14
client 8 arp : answered
released : 1
out 0 reply : yes
turn 0 1 : 5
client 9 syn : taken
client 10 syn : full
";

/// A message of a checkpoint, where it is below so many.
fn part(k: usize, count: usize) -> &'static str {
    if k < count && k < PARTS.len() {
        PARTS[k]
    } else {
        ""
    }
}

/// Plays a stop after so many of the messages of a checkpoint.
fn stops_after<R: Abort + AllocGlobal>(rt: &R, count: usize) -> Result<(), Fail> {
    let scripts = [
        OPENED,
        SENT,
        part(0, count),
        part(1, count),
        part(2, count),
        part(3, count),
        part(4, count),
        UNLOADED,
    ];
    plays::<R, Secondary<ScriptGuest>>(rt, &scripts)
}

/// Plays what comes after the commit of a checkpoint.
fn stops_loaded<R: Abort + AllocGlobal>(rt: &R, script: &str) -> Result<(), Fail> {
    let [begin, state, held, line, bytes] = PARTS;
    let scripts = [
        OPENED, SENT, begin, state, held, line, bytes, COMMIT, script,
    ];
    plays::<R, Secondary<ScriptGuest>>(rt, &scripts)
}

#[test]
fn the_primary_stops_while_messages_wait(rt: HostRuntime) -> Result<(), Fail> {
    plays::<_, Secondary<ScriptGuest>>(&rt, &[OPENED, WAITING])
}

#[test]
fn the_primary_stops_before_a_checkpoint_is_whole(rt: HostRuntime) -> Result<(), Fail> {
    for count in 0..6 {
        stops_after(&rt, count)?;
    }
    Ok(())
}

#[test]
fn the_primary_stops_after_a_commit(rt: HostRuntime) -> Result<(), Fail> {
    stops_loaded(&rt, LOADED)?;
    stops_loaded(&rt, REOPENED)
}

#[test]
fn a_survivor_is_acknowledged_and_trimmed(rt: HostRuntime) -> Result<(), Fail> {
    plays::<_, Secondary<ScriptGuest>>(&rt, &[OPENED, WAITING, TRIMMED])
}

#[test]
fn a_survivor_with_a_full_inbox(rt: HostRuntime) -> Result<(), Fail> {
    plays::<_, Secondary<ScriptGuest>>(&rt, &[FULL])
}
