//! Worked examples of the program: commands with their files and statuses, and a secondary over the
//! machine.
#![tactic(auto)]

#[cfg(test)]
mod commands;
