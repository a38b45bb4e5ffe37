//! What every log of the pair's definitions releases stands in the run that it names. A crate of
//! laws: its functions do nothing.
#![tactic(auto)]

mod lines;
mod prompt;
mod shapes;
mod standing;

pub use lines::lines_are_sound;
pub use prompt::symbols_of_each_log;
pub use shapes::{settling_builds, shape_of_each_log, surviving_builds};
pub use standing::{places_go_on, what_stands_goes_on};
