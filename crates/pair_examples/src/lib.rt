//! Worked examples of the pair: the guest for tests, messages, a checkpoint kept apart, both nodes,
//! what goes out and the comparer.
#![tactic(auto)]

#[cfg(test)]
mod apart;
#[cfg(test)]
mod checkpoint;
#[cfg(test)]
mod comparer;
#[cfg(test)]
mod exchange;
#[cfg(test)]
mod guest;
#[cfg(test)]
mod messages;
#[cfg(test)]
mod node;
#[cfg(test)]
mod primary;
#[cfg(test)]
mod release;
#[cfg(test)]
mod script;
#[cfg(test)]
mod secondary;
#[cfg(test)]
mod survivor;
#[cfg(test)]
mod words;
