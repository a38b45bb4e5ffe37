//! The demo guests: images of servers, by name.
#![tactic(auto)]

mod images;
mod words;

pub use images::{has_image, image};
