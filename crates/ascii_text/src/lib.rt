//! ASCII text: numbers read and written, and a text cut in two.
#![tactic(auto)]

mod cuts;
mod numbers;
mod writing;

pub use cuts::{cut, cut_is_at_the_first};
pub use numbers::{
    NumberFault, decimal_is_read, hexadecimal_is_read, read_decimal, read_hexadecimal,
};
pub use writing::{push_decimal, push_hexadecimal, push_hexadecimal_digits};
