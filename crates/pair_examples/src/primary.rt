//! What a primary hears and captures.

use crate::script::plays;
use node_primary::Primary;
use state_wire::ScriptGuest;
use std::test::Fail;

/// Each message that isn't due: those to a secondary, a frame that isn't TCP, and acknowledgements
/// of a checkpoint other than the awaited one. Once the secondary stopped, none is due.
const NOT_DUE: &str = "\
hear known 00001388 : 12
hear sent answer : 13
hear frame syn : not due 1
hear number 00001388 : not due 2
hear begin 00000001 : not due 3
hear state 0000000000000064 : not due 4
hear page 00000000 *4096 : not due 5
hear disk 00000000 *512 : not due 6
hear write 00000000 *512 : not due 7
hear held syn : not due 8
hear line 01 opened 00000000 : not due 9
hear bytes 61 : not due 10
hear end 00000001 : not due 11
hear 0D 0000002D datagram : not due 13
hear ack 00000000 : not due 14
hear ack 00000001 : not due 14
hear ack 00000001 00 : no message
ask : 1
ask : -
turn 0 0 : paused
hear ack 00000000 : not due 14
hear ack 00000002 : not due 14
hear 0D 0000002D datagram : not due 13
hear known 00001388 : 12
hear ack 00000001 : 14 acknowledges 1
hear ack 00000001 : not due 14
ask : 2
report : 0
says : nothing
hear ack 00000002 : not due 14
hear known 00001388 : not due 12
hear sent answer : not due 13
ask : -
turn 0 0 : -
report : 0
";

/// The guest took the client's SYN, answered it and sent three bytes, and another frame waits. The
/// guest's number is 31 * 0 + 1 + 1, which is 2, and then 31 * 2 + 7 + 1, which is 70. Nothing went
/// out, since the secondary isn't known to have the number 9000.
const CAPTURE: &str = "\
client 5 syn : taken
says frame syn : yes
turn 1 1 : 5
says number 00002328 : yes
turn 7 0 : -
released : 0
client 5 syn : taken
says frame syn : yes
says : nothing
ask : 1
says begin 00000001 : yes
says 04 00000052 0000000000000046 syn : yes
says held syn : yes
says line 01 000003E8 00002328 00002328 00000000 00000001 1000 05B4 00000000 : yes
says 0A 00000003 616264 : yes
says end 00000001 : yes
says : nothing
";

/// With the acknowledgement both lines are the same, and the secondary has the number.
const ACKNOWLEDGED: &str = "\
turn 1 1 : paused
hear sent answer : 13
released : 0
hear ack 00000001 : 14 acknowledges 1
released : 2
out 0 answer : yes
out 1 abd-9001 : yes
turn 0 1 : 5
turns : 3
";

#[test]
fn what_is_not_due_is_refused_and_changes_nothing(rt: HostRuntime) -> Result<(), Fail> {
    plays::<_, Primary<ScriptGuest>>(&rt, &[NOT_DUE])
}

#[test]
fn a_checkpoint_is_captured_whole_and_acknowledged(rt: HostRuntime) -> Result<(), Fail> {
    plays::<_, Primary<ScriptGuest>>(&rt, &[CAPTURE, ACKNOWLEDGED])
}
