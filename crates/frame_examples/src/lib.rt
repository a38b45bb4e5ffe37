//! Worked examples of frames: reading and building, lines, kept numbers and the mirror.
#![tactic(auto)]

#[cfg(test)]
mod building;
#[cfg(test)]
mod frames;
#[cfg(test)]
mod lines;
#[cfg(test)]
mod mirror;
#[cfg(test)]
mod numbers;
#[cfg(test)]
mod reading;
#[cfg(test)]
mod scene;
