//! What a secondary hears, and its turns between messages.

use crate::script::plays;
use node_secondary::Secondary;
use state_wire::ScriptGuest;
use std::test::Fail;

/// The guest's number is 31 * 0 + 2 + 1, which is 3, and then 31 * 3 + 1 + 1, which is 95.
const ONCE: &str = "\
hear number 00001388 : 2
says known 00001388 : yes
hear number 00001770 : 2
says known 00001388 : yes
says : nothing
hear end 00000001 : not due 11
hear end 00000001 00 : no message
hear frame syn : 1
turn 2 0 : -
turn 1 1 : 5
state 000000000000005F syn : yes
says sent answer : yes
hear begin 00000001 : 3
hear state 0000000000000064 : 4
hear end 00000001 : 11 commits 1
says ack 00000001 : yes
says : nothing
state 0000000000000064 : yes
turns : 2
";

/// Each message that isn't due outside a checkpoint, directly after its begin and within it: of
/// a checkpoint's numbers those below and above; a frame that isn't TCP; a state of 7 bytes and of
/// 1,523; a page and a sector where the guest has none; a line whose FIN would be at 2^31; and
/// bytes of no line, of a line that isn't opened, of one that ends at 2^31 - 1, and after a frame.
const NOT_DUE: &str = "\
hear plain datagram : not due 1
hear begin 00000000 : not due 3
hear begin 00000002 : not due 3
hear state 0000000000000064 : not due 4
hear page 00000000 *4096 : not due 5
hear disk 00000000 *512 : not due 6
hear write 00000000 *512 : not due 7
hear held syn : not due 8
hear line 01 opened 00000000 : not due 9
hear bytes 61 : not due 10
hear end 00000001 : not due 11
hear known 00001388 : not due 12
hear sent answer : not due 13
hear ack 00000001 : not due 14
hear begin 00000001 : 3
hear frame syn : not due 1
hear number 00001388 : not due 2
hear begin 00000001 : not due 3
hear 04 00000007 *7 : not due 4
hear 04 000005F3 *1523 : not due 4
hear page 00000000 *4096 : not due 5
hear disk 00000000 *512 : not due 6
hear write 00000000 *512 : not due 7
hear held syn : not due 8
hear line 01 opened 00000000 : not due 9
hear bytes 61 : not due 10
hear end 00000001 : not due 11
hear known 00001388 : not due 12
hear sent answer : not due 13
hear ack 00000001 : not due 14
hear state 0000000000000064 : 4
hear frame syn : not due 1
hear number 00001388 : not due 2
hear begin 00000001 : not due 3
hear begin 00000002 : not due 3
hear state 0000000000000064 : not due 4
hear page 00000000 *4096 : not due 5
hear disk 00000000 *512 : not due 6
hear write 00000000 *512 : not due 7
hear waits datagram : not due 8
hear line 09 opened 7FFFFFFF : not due 9
hear bytes 61 : not due 10
hear end 00000000 : not due 11
hear end 00000002 : not due 11
hear known 00001388 : not due 12
hear sent answer : not due 13
hear ack 00000001 : not due 14
hear line 00 *28 : 9
hear bytes 61 : not due 10
hear line 01 opened 7FFFFFFF : 9
hear bytes 61 : not due 10
hear line 01 opened 00000000 : 9
hear held syn : 8
hear bytes 61 : not due 10
hear line 01 opened 00000000 : 9
hear bytes 61 : 10
hear bytes 62 : 10
says : nothing
hear end 00000001 : 11 commits 1
says ack 00000001 : yes
says : nothing
turn 0 1 : 5
hear end 00000001 : not due 11
hear begin 00000001 : not due 3
hear begin 00000002 : 3
";

/// The guest's number is 2, 65, 2016 and 62497, which is 0xF421; the checkpoint's is 100, and then
/// 3104 and 96225, which are 0xC20 and 0x177E1; the second's is 200, and then 6201, which is
/// 0x1839.
const BETWEEN: &str = "\
hear number 00001770 : 2
says known 00001770 : yes
turn 1 0 : -
says sent answer : yes
hear begin 00000001 : 3
turn 2 0 : -
hear state 0000000000000064 : 4
turn 0 0 : -
hear held syn : 8
turn 0 1 : -
state 000000000000F421 : yes
turns : 4
hear line 01 opened 00000000 : 9
hear bytes 61 : 10
hear bytes 62 : 10
hear bytes 63 : 10
says : nothing
hear end 00000001 : 11 commits 1
says ack 00000001 : yes
state 0000000000000064 : yes
turns : 4
hear number 00001770 : 2
says known 00001388 : yes
turn 3 1 : 5
state 0000000000000C20 syn : yes
hear seen ack-5004 : 1
turn 0 1 : 6
state 00000000000177E1 ack-9004 : yes
hear begin 00000002 : 3
hear state 00000000000000C8 : 4
hear held syn : 8
hear state 0000000000000064 : not due 4
hear end 00000002 : 11 commits 2
says ack 00000002 : yes
state 00000000000000C8 : yes
hear number 00001770 : 2
says known 00001770 : yes
hear begin 00000003 : 3
hear state 0000000000000064 : 4
hear held syn : 8
hear begin 00000003 : not due 3
turn 0 1 : 5
state 0000000000001839 syn : yes
turn 0 1 : -
turns : 8
says : nothing
";

/// 4,096 frames wait.
const FULL: &str = "\
fill frame syn : 1
hear frame syn : 1 full
hear begin 00000001 : 3
hear state 0000000000000064 : 4
fill held syn : 8
hear held syn : not due 8
";

#[test]
fn a_number_a_frame_and_a_checkpoint_are_heard(rt: HostRuntime) -> Result<(), Fail> {
    plays::<_, Secondary<ScriptGuest>>(&rt, &[ONCE])
}

#[test]
fn what_is_not_due_is_refused_and_changes_nothing(rt: HostRuntime) -> Result<(), Fail> {
    plays::<_, Secondary<ScriptGuest>>(&rt, &[NOT_DUE])
}

#[test]
fn checkpoints_are_heard_between_turns(rt: HostRuntime) -> Result<(), Fail> {
    plays::<_, Secondary<ScriptGuest>>(&rt, &[BETWEEN])
}

#[test]
fn a_full_inbox_drops_frames_and_refuses_held_ones(rt: HostRuntime) -> Result<(), Fail> {
    plays::<_, Secondary<ScriptGuest>>(&rt, &[FULL])
}
