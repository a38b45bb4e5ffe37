//! The statements of assembly text: the name of each instruction, what its operands are, and the
//! word that a statement stands for, both ways.
#![tactic(auto)]

mod kinds;
mod laws;
mod mnemonic;
mod mnemonics;
mod names;
mod words;

pub use kinds::{Kind, Operands, Syntax, kinds_of};
pub use laws::{names_are_of_the_instruction_table, names_are_read, words_and_operands_agree};
pub use mnemonic::Mnemonic;
pub use mnemonics::mnemonic_of;
pub use names::{Name, push_name, read_name};
pub use words::{operands_of, word_of};
