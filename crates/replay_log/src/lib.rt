//! The three texts of a pair's history: the schedule that is read, the log that is written, and the
//! single run that a log names. Each is read exactly and written in its one spelling.
//!
//! A text is lines, each ended by a newline; a line is words, separated by one space. Numbers are
//! decimal, without sign or needless zeros. Each form that a line may have is a row of a table:
//! fixed words, and places of numbers with their ranges.
#![tactic(auto)]

mod causes;
mod forms;
mod gathering;
mod items;
mod judging;
mod keywords;
mod lines;
mod making;
mod parsing;
mod parts;
mod places;
mod reading;
mod records;
mod rows;
mod tables;
mod texts;
mod turns;
mod writing;

pub use causes::{LineFault, LineWhy};
pub use lines::Line;
pub use parsing::{parse_log, parse_schedule, parse_single};
pub use records::{Answer, Mark, Marks, Record};
pub use turns::{Turn, TurnFrame};
pub use writing::{write_line, write_record, write_turn};
