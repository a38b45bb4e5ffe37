//! Each text assembles to the words of its image.

use crate::guest_texts::{CLOCKED, DISK_LOG, ECHO, MUTE, TCP};
use colo_guests::image;
use rv_asm::assemble;
use std::alloc::{AllocError, Global};
use std::process::Abort;
use std::test::Fail;

/// Adds the statements of a text, without comments and spaces around them.
fn add_plain(into: &mut String, text: &str) -> Result<(), AllocError> {
    for line in text.split('\n') {
        let statement = match line.split_once('#') {
            Some((statement, _)) => statement.trim(),
            None => line.trim(),
        };
        into.push_str(statement)?;
        into.push_str("\n")?;
    }
    Ok(())
}

/// The words of a text, and the image of a name. They have no clause, so that what the contracts
/// say stands in no goal of the tests.
fn words_of(alloc: Global, text: &str) -> Result<Vec<u8>, Fail> {
    Ok(assemble(alloc, text)?)
}

fn image_of(alloc: Global, name: &str) -> Result<Option<Vec<u8>>, Fail> {
    Ok(image(alloc, name)?)
}

/// Whether a file is so many bytes of headers and then these words.
fn are_words_of(file: &[u8], words: &[u8]) -> bool {
    file.get(84..).is_some_and(|found| found == words)
}

/// Compares the words of a text with those of the image.
fn compare<R: Abort + AllocGlobal>(rt: &R, name: &str, parts: &[&str]) -> Result<(), Fail> {
    let mut text = String::new(rt.alloc());
    for part in parts {
        add_plain(&mut text, part)?;
    }
    let words = words_of(rt.alloc(), text.as_str())?;
    let file = image_of(rt.alloc(), name)?.ok_or("no image")?;
    assert!(rt; are_words_of(file.as_slice(), words.as_slice()), "{name}");
    Ok(())
}

#[test]
fn mute_is_its_text(rt: HostRuntime) -> Result<(), Fail> {
    assert!(rt; image_of(rt.alloc(), "Mute")?.is_none());
    assert_eq!(rt; image_of(rt.alloc(), "mute")?.ok_or("no image")?.len(), 88);
    compare(&rt, "mute", &[MUTE])
}

#[test]
fn echo_is_its_text(rt: HostRuntime) -> Result<(), Fail> {
    compare(&rt, "echo", &[ECHO, TCP])
}

#[test]
fn clocked_is_its_text(rt: HostRuntime) -> Result<(), Fail> {
    compare(&rt, "clocked", &[CLOCKED, TCP])
}

#[test]
fn disk_log_is_its_text(rt: HostRuntime) -> Result<(), Fail> {
    compare(&rt, "disk_log", &[DISK_LOG, TCP])
}
