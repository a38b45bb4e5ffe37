//! The instruction table of RV32IMA, both ways: from words to instructions and back.
#![tactic(auto)]

mod decoder;
mod encoder;
pub mod fields;
pub mod formats;
mod instr;

pub use decoder::decode;
pub use encoder::encode;
pub use instr::Instr;
