//! The schedule and the frames that a number makes.

ghost use Rattle.std.specs.Prelude.{◌≡◌, ◌+◌, ◌<◌, ◌≤◌, ◌^◌, ◌++◌, ◌∷◌, IfOk, OnOk};
ghost use Rattle.std.specs.List.{count_by};
ghost use Rattle.input_maker.specs.Draws.{draw};
ghost use Rattle.input_maker.specs.Made.{ask_lines, client_lines, delivery_lines, first_line, frames_for, is_client, made_frames, made_lines, schedule_text, second_line, turn_lines};

use crate::client::client_frame;
use colo_base::{Frames, NoMemory};
use replay_log::{Line, write_line};
use std::alloc::Global;

/// An input: the frames that a client sends, and a schedule.
#[derive(Drop)]
pub struct Made {
    /// The frames, one for each line `c`.
    pub frames: Frames,
    /// The lines of the schedule.
    pub lines: Vec<Line>,
}

/// The number that is drawn after this one.
#[tactic(auto, unfolding(crate::specs::Draws::draw))]
fn draw(x: u32) -> u32
    ensures { result ≡ draw x }
{
    let first = x ^ (x << 13);
    let second = first ^ (first >> 17);
    second ^ (second << 5)
}

/// Adds the line of a client's frame and the frame, where the number asks for one.
fn add_client(alloc: Global, made: &mut Made, x: u32) -> Result<(), NoMemory>
    requires few { count_by is_client made.old.lines.items < 2 ^ 32 }
    requires each { made.old.frames ≡ frames_for made.old.lines.items }
    ensures lines { OnOk result (made.new.lines.items ≡ made.old.lines.items ++ client_lines x) }
    ensures frames { OnOk result (made.new.frames ≡ frames_for made.new.lines.items) }
{
    if x % 4 != 0 {
        return Ok(());
    }
    let frame = client_frame(alloc, made.frames.len() as u32)?;
    made.frames.add(frame)?;
    made.lines.push(Line::Client)?;
    Ok(())
}

/// Adds the line that asks for a checkpoint, where the number asks for one.
fn add_ask(lines: &mut Vec<Line>, x: u32) -> Result<(), NoMemory>
    ensures { OnOk result (lines.new.items ≡ lines.old.items ++ ask_lines x) }
{
    if x % 64 == 1 {
        lines.push(Line::Ask)?;
    }
    Ok(())
}

/// Adds the lines of a turn that come after the client's frame.
fn add_rest(lines: &mut Vec<Line>, x: u32) -> Result<(), NoMemory>
    ensures { OnOk result (lines.new.items ≡ lines.old.items
        ++ (first_line x ∷ (second_line x ∷ (delivery_lines ++ ask_lines x)))) }
{
    lines.push(Line::Primary {
        d: (x >> 8) % 1024,
        i: true,
        b: 8,
        n: 2000,
    })?;
    lines.push(Line::Secondary {
        d: (x >> 18) % 1024,
        i: true,
        b: 8,
        n: 2000,
    })?;
    lines.extend_from_slice(&[Line::ToSecondary; 16])?;
    lines.extend_from_slice(&[Line::ToPrimary; 16])?;
    add_ask(lines, x)
}

/// Adds the lines of a turn, and the client's frame where one of them is its.
fn add_turn(alloc: Global, made: &mut Made, x: u32) -> Result<(), NoMemory>
    requires few { count_by is_client made.old.lines.items < 2 ^ 32 }
    requires each { made.old.frames ≡ frames_for made.old.lines.items }
    ensures lines { OnOk result (made.new.lines.items ≡ made.old.lines.items ++ turn_lines x) }
    ensures frames { OnOk result (made.new.frames ≡ frames_for made.new.lines.items) }
    ensures few { OnOk result (count_by is_client made.new.lines.items
        ≤ count_by is_client made.old.lines.items + 1) }
{
    add_client(alloc, made, x)?;
    add_rest(&mut made.lines, x)
}

/// The input of so many turns that a number makes.
#[tactic(auto, unfolding(crate::specs::Made::made_lines, crate::specs::Made::made_frames))]
pub fn make_input(alloc: Global, number: u32, turns: u32) -> Result<Made, NoMemory>
    ensures lines { IfOk result (λ made. made.lines.items ≡ made_lines number turns) }
    ensures frames { IfOk result (λ made. made.frames ≡ made_frames number turns) }
{
    let mut made = Made {
        frames: Frames::new(alloc),
        lines: Vec::new(alloc),
    };
    let mut x = number;
    for _ in 0..turns {
        x = draw(x);
        add_turn(alloc, &mut made, x)?;
    }
    Ok(made)
}

/// The text of a schedule.
pub fn schedule_text(alloc: Global, lines: &[Line]) -> Result<Vec<u8>, NoMemory>
    ensures { IfOk result (λ text. text.items ≡ schedule_text lines.now) }
{
    let mut text = Vec::new(alloc);
    for line in lines {
        write_line(line, &mut text)?;
    }
    Ok(text)
}
