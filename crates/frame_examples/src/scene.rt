//! How the tests play their texts.

use std::process::Abort;
use worked_steps::{Scene, is_answered};

/// Makes the calls of a text in order, and compares their answers.
pub fn play<R: Abort, S: Scene>(rt: &R, scene: &mut S, text: &str) {
    for line in text.lines() {
        assert!(rt; is_answered(scene, line), "{line}");
    }
}
