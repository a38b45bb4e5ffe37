//! What no clause says: that calls succeed where there is memory, and what the real files and
//! standard output do.

use colo_base::{
    FileShelf, Frames, Heard, Link, MemoryLink, MemoryShelf, MemorySink, OutSink, Shelf,
    ShelfFault, Sink,
};
use std::alloc::Global;

fn is_added(alloc: Global, frames: &mut Frames) -> bool {
    match [2].to_vec(alloc) {
        Ok(frame) => frames.add(frame).is_ok(),
        Err(_) => false,
    }
}

fn are_kept(alloc: Global, frames: &mut Frames) -> bool {
    frames.push(b"first").is_ok() && is_added(alloc, frames) && frames.len() == 2
}

#[test]
fn keeps_frames(rt: HostRuntime) {
    assert!(rt; are_kept(rt.alloc(), &mut Frames::new(rt.alloc())));
}

/// Writes a file in two parts and reads it again, after what `into` holds.
fn write_and_read<S: Shelf>(shelf: &mut S, name: &str, into: &mut Vec<u8>) -> bool {
    shelf.create(name).is_ok()
        && shelf.append(name, b"one ").is_ok()
        && shelf.append(name, b"two").is_ok()
        && shelf.fetch(name, into).is_ok()
}

fn is_prepared(shelf: &mut MemoryShelf) -> bool {
    shelf.set("file", b"old").is_ok() && shelf.fail(9).is_ok()
}

#[test]
fn keeps_files(rt: HostRuntime) {
    let mut shelf = MemoryShelf::new(rt.alloc());
    let mut into = Vec::new(rt.alloc());
    assert!(rt; is_prepared(&mut shelf) && write_and_read(&mut shelf, "file", &mut into));
    assert!(rt; into.as_slice() == b"one two".as_slice());
}

fn is_gone<S: Shelf>(shelf: &mut S, name: &str, into: &mut Vec<u8>) -> bool {
    shelf.fetch(name, into) == Err(ShelfFault::Failed)
}

#[test]
fn writes_real_files(rt: HostRuntime) {
    let name = "colo_base_test_file";
    let mut shelf = FileShelf::new(rt.alloc(), &rt);
    let mut into = Vec::new(rt.alloc());
    let is_written = write_and_read(&mut shelf, name, &mut into);
    let is_written_again = write_and_read(&mut shelf, name, &mut into);
    let is_removed = std::fs::remove_file(&rt, name).is_ok();
    assert!(rt; is_written && is_written_again && is_removed);
    assert!(rt; into.as_slice() == b"one twoone two".as_slice());
    assert!(rt; is_gone(&mut shelf, name, &mut into));
}

/// Lets a piece of two bytes come to a link.
fn is_coming(link: &mut MemoryLink) -> bool {
    link.quiet().is_ok() && link.piece(b"ab").is_ok() && link.fail(9).is_ok()
}

/// Whether the link is quiet, brings two bytes and takes some.
fn hears_and_takes<L: Link>(link: &mut L) -> bool {
    let mut into = [0u8; 3];
    link.open("10.0.2.2:7").is_ok()
        && link.receive(&mut into) == Ok(Heard::Quiet)
        && link.receive(&mut into) == Ok(Heard::Took(2))
        && link.send(b"sent").is_ok()
}

#[test]
fn hears_and_sends(rt: HostRuntime) {
    let mut link = MemoryLink::new(rt.alloc());
    assert!(rt; is_coming(&mut link));
    assert!(rt; hears_and_takes(&mut link));
}

fn is_put<S: Sink>(sink: &mut S, bytes: &[u8]) -> bool {
    sink.put(bytes).is_ok()
}

#[test]
fn puts_bytes(rt: HostRuntime) {
    let mut sink = MemorySink::new(rt.alloc());
    assert!(rt; sink.fail(2).is_ok() && is_put(&mut sink, b"line\n"));
    assert!(rt; is_put(&mut OutSink::new(&rt), b"to standard output\n"));
}
