//! What a survivor releases goes on with what the primary released: the numbers of its SYNs, in
//! every log of the pair's definitions. A crate of laws: its functions do nothing.
#![tactic(auto)]

mod survivor;

pub use survivor::survivor_numbers;
