//! Worked examples of the instruction set: words and instructions both ways, texts that are
//! assembled, control and status registers, and steps of a hart. The values come from the
//! standard's tables and from other assemblers.
#![tactic(auto)]

#[cfg(test)]
mod assembler;
#[cfg(test)]
mod forms;
#[cfg(test)]
mod hart;
#[cfg(test)]
mod instructions;
#[cfg(test)]
mod registers;
#[cfg(test)]
mod scene;
