//! Single runs of the test guest, whose state shows how many turns it made and the last frame that
//! it received. The frames were put together by an independent script.

use colo_base::{Frames, NoMemory};
use replay_log::parse_single;
use splice_run::{SoloFault, single_run_is_in_limits, solo};
use state_wire::{Guest, ScriptGuest};
use std::alloc::Global;
use std::process::Abort;
use std::test::Fail;
use worked_frames::{ACK_5004, ACK_9004, CLEAN_SYN, CLIENT_SYN, OTHER_SYN};

/// A guest that sends its SYN in a turn whose clock goes on by 1.
fn guest(alloc: Global) -> Result<ScriptGuest, NoMemory> {
    let mut syn = Frames::new(alloc);
    syn.push(&OTHER_SYN)?;
    let mut table = Vec::new(alloc);
    table.push(Frames::new(alloc))?;
    table.push(syn)?;
    Ok(ScriptGuest::new(alloc, table))
}

/// A stream of a SYN, an acknowledgement and a frame that is too short.
fn stream(alloc: Global) -> Result<Frames, NoMemory> {
    let mut stream = Frames::new(alloc);
    stream.push(&CLIENT_SYN)?;
    stream.push(&ACK_5004)?;
    stream.push(b"short")?;
    Ok(stream)
}

/// A machine that runs texts of turns. No call has a clause, so that what the contracts say stands
/// in no goal of a test.
trait Machine {
    /// One that has made no turn.
    fn start(alloc: Global) -> Result<Self, NoMemory>
    where
        Self: Sized;
    /// Runs the turns of a text on the stream.
    fn run(&mut self, text: &[u8]) -> Result<Result<(), SoloFault>, Fail>;
    /// The guest's number in eight bytes, and the last frame that it received.
    fn state(&self) -> Result<Vec<u8>, NoMemory>;
    /// How many turns the guest made.
    fn turned(&self) -> u64;
    /// How many frames it sent.
    fn sent(&self) -> usize;
}

/// The test guest, and what it sent.
#[derive(Drop)]
struct Single {
    alloc: Global,
    guest: ScriptGuest,
    out: Frames,
}

impl Machine for Single {
    fn start(alloc: Global) -> Result<Single, NoMemory> {
        Ok(Single {
            alloc,
            guest: guest(alloc)?,
            out: Frames::new(alloc),
        })
    }

    fn run(&mut self, text: &[u8]) -> Result<Result<(), SoloFault>, Fail> {
        let turns = parse_single(self.alloc, text)?;
        let stream = stream(self.alloc)?;
        single_run_is_in_limits();
        Ok(solo(self.alloc, &mut self.guest, &stream, &turns, &mut self.out))
    }

    fn state(&self) -> Result<Vec<u8>, NoMemory> {
        let mut bytes = Vec::new(self.alloc);
        self.guest.state(&mut bytes)?;
        Ok(bytes)
    }

    fn turned(&self) -> u64 {
        self.guest.turned()
    }

    fn sent(&self) -> usize {
        self.out.len()
    }
}

/// Runs the turns of a text to their end, and asserts the guest's number and its last frame.
fn goes_on<R: Abort + AllocGlobal, M: Machine>(
    rt: &R,
    machine: &mut M,
    text: &[u8],
    number: u64,
    frame: &[u8],
) -> Result<(), Fail> {
    assert_eq!(rt; machine.run(text)?, Ok(()));
    let wanted = state_of(rt.alloc(), number, frame)?;
    assert_eq!(rt; machine.state()?.as_slice(), wanted.as_slice());
    Ok(())
}

/// Asserts that a run ends before its second turn.
fn ends_before_its_second_turn<R: Abort, M: Machine>(
    rt: &R,
    machine: &mut M,
    text: &[u8],
) -> Result<(), Fail> {
    assert_eq!(rt; machine.run(text)?, Err(SoloFault::NoFrame { turn: 2 }));
    assert_eq!(rt; machine.turned(), 1);
    assert_eq!(rt; machine.sent(), 1);
    Ok(())
}

/// A number in eight bytes, and a frame.
fn state_of(alloc: Global, number: u64, frame: &[u8]) -> Result<Vec<u8>, NoMemory> {
    let mut bytes = Vec::new(alloc);
    bytes.extend_from_slice(&number.to_be_bytes())?;
    bytes.extend_from_slice(frame)?;
    Ok(bytes)
}

/// Asserts what turns leave of which one has an early frame, and two the same.
fn is_given_any_frames<R: Abort + AllocGlobal, M: Machine + Drop>(rt: &R) -> Result<(), Fail> {
    let mut machine = M::start(rt.alloc())?;
    // 31 * 0 + 1 is 1, 31 * 1 + 1 is 32, and 31 * 32 + 1 is 993
    goes_on(
        rt,
        &mut machine,
        b"T 0 1 0 0\nT 0 0 0 0\nT 0 0 0 0\n",
        993,
        &CLEAN_SYN,
    )?;
    assert_eq!(rt; machine.turned(), 3);
    assert_eq!(rt; machine.sent(), 0);
    Ok(())
}

/// Asserts which acknowledgement is given before the opening was sent, and after.
fn is_given_raised<R: Abort + AllocGlobal, M: Machine + Drop>(rt: &R) -> Result<(), Fail> {
    let mut machine = M::start(rt.alloc())?;
    // no opening was sent yet: 31 * 0 + 1 is 1
    goes_on(rt, &mut machine, b"T 0 1/1000/5000 0 0\n", 1, &ACK_5004)?;
    // it is sent in one turn, and known in the next: 31 * 1 + 2 is 33, and 31 * 33 + 1 is 1024
    goes_on(
        rt,
        &mut machine,
        b"T 1 - 0 0\nT 0 1/1000/5000 0 0\n",
        1024,
        &ACK_9004,
    )?;
    assert_eq!(rt; machine.sent(), 1);
    // and in a run that goes on from it: 31 * 1024 + 1 is 31745
    goes_on(rt, &mut machine, b"T 0 1/1000/5000 0 0\n", 31745, &ACK_9004)
}

/// Runs of which the second turn has no frame.
const WITHOUT_FRAME: [&[u8]; 3] = [
    b"T 1 0 0 0\nT 1 2 0 0\nT 1 - 0 0\n",
    b"T 1 0 0 0\nT 1 3 0 0\nT 1 - 0 0\n",
    b"T 1 0 0 0\nT 1 18446744073709551615 0 0\nT 1 - 0 0\n",
];

/// Asserts that each run without a frame ends before it.
fn ends_without_frame<R: Abort + AllocGlobal, M: Machine + Drop>(rt: &R) -> Result<(), Fail> {
    for text in WITHOUT_FRAME {
        ends_before_its_second_turn(rt, &mut M::start(rt.alloc())?, text)?;
    }
    Ok(())
}

#[test]
fn frames_are_given_in_any_order_and_twice(rt: HostRuntime) -> Result<(), Fail> {
    is_given_any_frames::<_, Single>(&rt)
}

#[test]
fn an_acknowledgement_is_raised_to_the_opening_sent_before(rt: HostRuntime) -> Result<(), Fail> {
    is_given_raised::<_, Single>(&rt)
}

#[test]
fn a_turn_without_its_frame_ends_the_run_before_it(rt: HostRuntime) -> Result<(), Fail> {
    ends_without_frame::<_, Single>(&rt)
}
