//! One plan a command: what each command makes of what it reads, as steps and a line.
#![tactic(auto)]

mod image;
mod one_file;
mod replay;
mod solo;
mod splice;

pub use image::write_image;
pub use replay::{
    Counts, REPLAY_FILES, count_step, run_line, stream, summary, write_state, write_step,
};
pub use solo::{RunEnd, SoloRun, make_run, plan_solo, run_solo};
pub use splice::{FilePlan, plan_splice, write_splice};
