//! `colo`: carries out the command that its words spell, and ends with its status.
#![tactic(auto)]

use colo_base::{FileShelf, MemoryLink, NoMemory, OutSink, ScriptClock};
use colo_top::{Fault, colo};
use std::env;
use std::io::ErrorKind;
use std::process::ExitCode;
use std::rt::Env;

/// The words after the program's name. None where they can't be read, as words that are no text.
fn words(rt: &(impl Env + AllocGlobal)) -> Result<Vec<String>, NoMemory> {
    let mut words = Vec::new(rt.alloc());
    let args = match env::args(rt) {
        Ok(args) => args,
        Err(error) => match error.kind() {
            ErrorKind::OutOfMemory => return Err(NoMemory),
            _ => return Ok(words),
        },
    };
    for word in args.skip(1) {
        words.push(word)?;
    }
    Ok(words)
}

fn main(rt: HostRuntime) -> ExitCode {
    let mut out = OutSink::new(&rt);
    let Ok(words) = words(&rt) else {
        let _ = Fault::NoMemory.put(&mut out);
        return ExitCode::from(Fault::NoMemory.status());
    };
    let mut shelf = FileShelf::new(rt.alloc(), &rt);
    let mut link = MemoryLink::new(rt.alloc());
    let mut clock = ScriptClock::new(Vec::new(rt.alloc()));
    let status = colo(
        rt.alloc(),
        &words,
        &mut shelf,
        &mut link,
        &mut clock,
        &mut out,
    );
    ExitCode::from(status)
}
