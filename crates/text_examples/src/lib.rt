//! Worked examples of the outside, of the texts and of single runs.
#![tactic(auto)]

#[cfg(test)]
mod ascii;
#[cfg(test)]
mod framing;
#[cfg(test)]
mod outside;
#[cfg(test)]
mod solo;
#[cfg(test)]
mod splicing;
#[cfg(test)]
mod texts;
