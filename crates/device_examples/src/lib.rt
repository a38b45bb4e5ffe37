//! Worked examples of the devices: memory in pages, rings, the registers of a device, the block
//! device, its disk and the network device.
#![tactic(auto)]

#[cfg(test)]
mod block;
#[cfg(test)]
mod calls;
#[cfg(test)]
mod disk;
#[cfg(test)]
mod network;
#[cfg(test)]
mod pages;
#[cfg(test)]
mod registers;
#[cfg(test)]
mod rings;
#[cfg(test)]
mod scene;
