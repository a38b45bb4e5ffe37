//! A RISC-V platform: one RV32IMA hart with its CSRs and timer over its memory and two virtio
//! devices, a network card and a block device. It goes on step by step; between steps the clock
//! goes on, a frame is received and block requests are served.
//!
//! The disk stands beside the platform: no store reaches it, and the block device gets it where it
//! serves a request.
#![tactic(auto)]

mod board;
mod clint;
mod memo;
mod parts;
mod platform;

pub use platform::Platform;
