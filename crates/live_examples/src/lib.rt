//! Worked examples of the real link and the real clock.
#![tactic(auto)]

#[cfg(test)]
mod live;
