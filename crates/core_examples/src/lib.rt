//! Worked examples of a pair: the logs of schedules over two test guests, with the frames that go
//! out and the bytes of messages; and a checkpoint of a machine.
#![tactic(auto)]

#[cfg(test)]
mod capture;
#[cfg(test)]
mod logs;
#[cfg(test)]
mod session;
#[cfg(test)]
mod told;
#[cfg(test)]
mod words;
