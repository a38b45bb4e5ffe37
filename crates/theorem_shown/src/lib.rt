//! One number is shown to a client in every log of the pair's definitions, across a stop of the
//! primary too. A crate of laws: its functions do nothing.
#![tactic(auto)]

mod shown;

pub use shown::one_number_shown;
