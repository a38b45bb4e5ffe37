//! Worked examples of the machine: images, the platform, the bytes of a state, turns, and the demo
//! guests with their texts.
#![tactic(auto)]

#[cfg(test)]
mod elf;
#[cfg(test)]
mod guest_texts;
#[cfg(test)]
mod guests;
#[cfg(test)]
mod machine;
#[cfg(test)]
mod platform;
#[cfg(test)]
mod state_bytes;
