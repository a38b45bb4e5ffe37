//! The assembler and the disassembler.
#![tactic(auto)]

mod fault;
mod grammar;
mod lines;
mod loads;
mod operands;
mod places;
mod program;
mod reading;
mod statements;
mod writing;

pub use fault::{AsmFault, Why};
pub use grammar::{
    first_bad_line_is_refused, grammar_is_read, li_loads_its_number, refusals_are_at_their_place,
};
pub use program::assemble;
pub use writing::disassemble;
