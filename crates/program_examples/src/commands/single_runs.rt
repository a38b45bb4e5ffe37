//! Single runs on one machine: their statuses, and a replay that is made again.

use super::play;
use super::program::Memory;

/// Runs that end well, runs that are cut off at a turn, and files that are refused. The second
/// client stream has two bytes after a frame of 60.
const ENDS: &str = "\
text schedule T 10 - 0 5;
run solo image disk client schedule one = 0 turns 1 sent 0;
size one.ram = 16777216
text schedule
run solo image disk client schedule none = 0 turns 0 sent 0;
size none.ram = 16777216
text schedule T 10 0 0 5;
run solo image disk client schedule first --ram 1 = 4 line 1;
size first.ram = 0
text schedule T 10 - 0 5;T 2 0 0 0;
run solo image disk client schedule second --ram 1 = 4 line 2;
size second.ram = 0
text schedule T 10 0 0 5;T 10
run solo image disk client schedule out --ram 1 = 4 line 2;
text schedule P 10 0 0 5;
run solo image disk client schedule out --ram 1 = 4 line 1;
text schedule T 10 - 257 5;
run solo image disk client schedule out --ram 1 = 4 line 1;
text schedule T 10 - 0 5;
bytes client 00011001
run solo image disk client schedule out --ram 1 = 5 client: 0;
bytes client 0000003C *62
run solo image disk client schedule out --ram 1 = 5 client: 64;
bytes client
bytes disk *513
run solo image disk client schedule out --ram 1 = 3 disk: 513;
bytes disk *512
bytes image
run solo image disk client schedule out --ram 1 = 2 image: 1;
size out.ram = none
";

#[test]
fn single_runs_end_by_their_statuses(rt: HostRuntime) {
    play::<_, Memory>(&rt, ENDS);
}

/// Memory is written, and the disk isn't.
const CUT_OFF: &str = "\
text schedule T 10 - 0 5;
fail 4104
run solo image disk client schedule out = 7 write failed;
jumps out.ram = yes
size out.disk = 0
run solo a = 1 usage;
run solo image missing client schedule out = 6 read failed;
";

#[test]
fn a_single_run_is_cut_off_by_a_failing_file(rt: HostRuntime) {
    play::<_, Memory>(&rt, CUT_OFF);
}

/// A frame of 1,600 bytes, which isn't accepted.
const LONG_FRAME: &str = "\
bytes client 00000640 *1600
text schedule T 10 - 0 5;
run solo image disk client schedule out --ram 1 = 0 turns 1 sent 0;
text schedule T 10 0 0 5;
run solo image disk client schedule out --ram 1 = 4 line 1;
size out.sent = 0
size out.ram = 0
size out.disk = 0
";

#[test]
fn a_frame_that_is_not_accepted_stops_a_single_run(rt: HostRuntime) {
    play::<_, Memory>(&rt, LONG_FRAME);
}

/// A replay of three turns, its log's single run, and that run.
const AGAIN: &str = "\
run image mute image = 0 bytes 88;
run replay image disk client schedule out --ram 1 = 0 lines 3 released 0 captured 0;
run splice out.log single = 0 turns 3;
run solo image disk client single again --ram 1 = 0 turns 3 sent 0;
size again.sent = 0
same again.ram out.ram = yes
same again.disk out.disk = yes
";

#[test]
fn a_replay_is_made_again_by_its_single_run(rt: HostRuntime) {
    play::<_, Memory>(&rt, AGAIN);
}
