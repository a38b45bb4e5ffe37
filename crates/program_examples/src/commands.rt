//! The top call over files in memory, played from scripts: what runs leave, and each status with
//! its line. A line of a script is a step and, after `=`, what it answers.
//!
//! `text FILE TEXT` and `bytes FILE WORDS` make the contents of a file: words are four bytes in
//! hexadecimal, `*` with a count of zeros, and `headers`. `fail N` lets the call N of the files
//! fail. `run WORDS` calls the program, and answers its status and what is printed, and
//! `image NAME` whether a demo image is written with a line of its size. `read FILE` answers a
//! file's text, `size FILE` its size, `same FILE FILE` whether both have the same bytes, and
//! `jumps FILE` whether it is 16 MiB of memory with a jump to itself. In texts `;` ends a line.

mod program;
mod secondary;
mod single_runs;

use program::{Memory, Program};
use std::alloc::Global;
use std::process::Abort;

/// The file header and the front of the program header of an image, up to the offset in the file
/// and the virtual address of its one segment, which stands directly after the headers.
const HEADERS: &str = "\
7F454C46 01010100 00000000 00000000 0200F300 01000000 00000080 34000000 00000000 00000000 \
34002000 01000000 00000000 01000000 54000000 00000080";

/// The files of a replay: an image of one segment of four bytes at 0x80000000, a jump to itself; a
/// disk of one sector of zeros; a client that sends nothing; and three turns of five steps.
const FILES: &str = "\
bytes image headers 00000080 04000000 04000000 05000000 04000000 6F000000
bytes disk *512
bytes client
text schedule P 10 0 0 5;P 10 0 0 5;P 10 0 0 5;
";

/// The first word of a text, and the rest.
fn cut(text: &str) -> (&str, &str) {
    text.split_once(' ').unwrap_or((text, ""))
}

/// Appends so many zeros; `false` where memory ran out.
fn put_zeros(count: u32, out: &mut Vec<u8>) -> bool {
    for _ in 0..count {
        if out.push(0).is_err() {
            return false;
        }
    }
    true
}

/// Appends the bytes of a word.
fn put_word(word: &str, out: &mut Vec<u8>) -> bool {
    match word.strip_prefix('*') {
        Some(count) => put_zeros(count.parse().unwrap_or(0), out),
        None => match u32::from_str_radix(word, 16) {
            Ok(number) => out.extend_from_slice(&number.to_be_bytes()).is_ok(),
            Err(_) => false,
        },
    }
}

/// Appends the bytes of words.
fn put_words(words: &str, out: &mut Vec<u8>) -> bool {
    for word in words.split_whitespace() {
        if !put_word(word, out) {
            return false;
        }
    }
    true
}

/// Appends the bytes of words, of which the first may be `headers`.
fn put_contents(words: &str, out: &mut Vec<u8>) -> bool {
    match words.strip_prefix("headers ") {
        Some(rest) => put_words(HEADERS, out) && put_words(rest, out),
        None => put_words(words, out),
    }
}

/// Makes bytes the contents of a file.
fn is_made<P: Program>(alloc: Global, program: &mut P, words: &str) -> bool {
    let (name, words) = cut(words);
    let mut bytes = Vec::new(alloc);
    put_contents(words, &mut bytes) && program.set(name, &bytes)
}

/// Makes a text, with line feeds for semicolons, the contents of a file.
fn is_written<P: Program>(alloc: Global, program: &mut P, words: &str) -> bool {
    let (name, text) = cut(words);
    match text.replace(alloc, ';', "\n") {
        Ok(lines) => program.set(name, lines.as_bytes()),
        Err(_) => false,
    }
}

/// Lets a call of the files fail.
fn fails<P: Program>(program: &mut P, word: &str) -> bool {
    match word.parse() {
        Ok(call) => program.fail(call),
        Err(_) => false,
    }
}

/// Whether bytes are a text, with line feeds for semicolons.
fn is_text(alloc: Global, bytes: &[u8], text: &str) -> bool {
    match text.replace(alloc, ';', "\n") {
        Ok(lines) => lines.as_bytes() == bytes,
        Err(_) => false,
    }
}

/// Appends a word; `false` where memory ran out.
fn put_own(alloc: Global, word: &str, words: &mut Vec<String>) -> bool {
    match String::from_str(alloc, word) {
        Ok(word) => words.push(word).is_ok(),
        Err(_) => false,
    }
}

/// The words of a command line.
fn command_line(alloc: Global, words: &str) -> Option<Vec<String>> {
    let mut command_line = Vec::new(alloc);
    for word in words.split_whitespace() {
        if !put_own(alloc, word, &mut command_line) {
            return None;
        }
    }
    Some(command_line)
}

/// Calls the program with these words. Gives its status, but none where memory ran out.
fn status_of<P: Program>(alloc: Global, program: &mut P, words: &str) -> Option<u8> {
    match command_line(alloc, words) {
        Some(words) => Some(program.run(&words)),
        None => None,
    }
}

/// Whether the program ends with this status, and prints this text.
fn ends<P: Program>(alloc: Global, program: &mut P, words: &str, answer: &str) -> bool {
    let (status, text) = cut(answer);
    match status.parse() {
        Ok(status) => {
            status_of(alloc, program, words) == Some(status)
                && is_text(alloc, program.printed(), text)
        }
        Err(_) => false,
    }
}

/// How many bytes a file has.
fn size_of<P: Program>(program: &P, name: &str) -> Option<usize> {
    match program.contents(name) {
        Some(bytes) => Some(bytes.len()),
        None => None,
    }
}

/// Whether the size of the file `image` is printed.
fn prints_size<P: Program>(alloc: Global, program: &P) -> bool {
    let size = size_of(program, "image").unwrap_or(0);
    match format!(in alloc; "bytes {size};") {
        Ok(text) => is_text(alloc, program.printed(), &text),
        Err(_) => false,
    }
}

/// Whether a demo image is written to the file `image`, and its size is printed.
fn is_image<P: Program>(alloc: Global, program: &mut P, name: &str) -> bool {
    match format!(in alloc; "image {name} image") {
        Ok(words) => { status_of(alloc, program, &words) == Some(0) && prints_size(alloc, program) }
        Err(_) => false,
    }
}

/// Whether a file has this text.
fn reads<P: Program>(alloc: Global, program: &P, name: &str, text: &str) -> bool {
    match program.contents(name) {
        Some(bytes) => is_text(alloc, bytes, text),
        None => false,
    }
}

/// Whether a file has so many bytes; `none` where it isn't there.
fn has_size<P: Program>(program: &P, name: &str, size: &str) -> bool {
    match size_of(program, name) {
        Some(count) => size.parse().ok() == Some(count),
        None => size == "none",
    }
}

/// Whether two files have the same bytes.
fn are_same<P: Program>(program: &P, names: &str) -> bool {
    let (one, other) = cut(names);
    match program.contents(one) {
        Some(bytes) => program.contents(other) == Some(bytes),
        None => false,
    }
}

/// Whether memory is 16 MiB with a jump to itself, and zeros from there on.
fn is_jump(memory: &[u8]) -> bool {
    match memory.strip_prefix(&[0x6F, 0, 0, 0]) {
        Some(rest) => memory.len() == 16_777_216 && rest.iter().all(|byte| *byte == 0),
        None => false,
    }
}

/// Whether a file is memory with a jump to itself.
fn jumps<P: Program>(program: &P, name: &str) -> bool {
    match program.contents(name) {
        Some(memory) => is_jump(memory),
        None => false,
    }
}

/// Changes the files as a line says.
fn is_set<P: Program>(alloc: Global, program: &mut P, verb: &str, words: &str) -> bool {
    match verb {
        "text" => is_written(alloc, program, words),
        "bytes" => is_made(alloc, program, words),
        "fail" => fails(program, words),
        _ => false,
    }
}

/// What is answered to a question; `None` where the line is no question.
fn asked<P: Program>(alloc: Global, program: &mut P, verb: &str, words: &str) -> Option<bool> {
    match verb {
        "image" => Some(is_image(alloc, program, words)),
        "same" => Some(are_same(program, words)),
        "jumps" => Some(jumps(program, words)),
        _ => None,
    }
}

/// Makes the step of a line without its answer, or asks its question.
fn is_yes<P: Program>(alloc: Global, program: &mut P, line: &str, answer: &str) -> bool {
    let (verb, words) = cut(line);
    match asked(alloc, program, verb, words) {
        Some(yes) => yes == (answer == "yes"),
        None => is_set(alloc, program, verb, words),
    }
}

/// Makes the step of a line; says whether it answers what stands there.
fn is_so<P: Program>(alloc: Global, program: &mut P, line: &str) -> bool {
    let (asked, answer) = line.split_once(" = ").unwrap_or((line, ""));
    let (verb, words) = cut(asked);
    match verb {
        "run" => ends(alloc, program, words, answer),
        "read" => reads(alloc, program, words, answer),
        "size" => has_size(program, words, answer),
        _ => is_yes(alloc, program, asked, answer),
    }
}

/// Asserts that each line of a script is so.
fn make_all<R: Abort + AllocGlobal, P: Program>(rt: &R, program: &mut P, script: &str) {
    for line in script.lines() {
        assert!(rt; is_so(rt.alloc(), program, line), "{line}");
    }
}

/// Plays a script over the files of a replay.
fn play<R: Abort + AllocGlobal, P: Program + Drop>(rt: &R, script: &str) {
    let mut program = P::start(rt.alloc());
    make_all(rt, &mut program, FILES);
    make_all(rt, &mut program, script);
}

/// Three turns and none, and a client's frame of 1,600 bytes, which isn't accepted.
const IDLE: &str = "\
run replay image disk client schedule out = 0 lines 3 released 0 captured 0;
read out.log = P 10 0 0 5 : - 0;P 10 0 0 5 : - 0;P 10 0 0 5 : - 0;
size out.released = 0
size out.wire = 0
jumps out.ram = yes
same out.disk disk = yes
bytes client 00000640 *1600
text schedule c;
run replay image disk client schedule long --ram 1 = 0 lines 1 released 0 captured 0;
read long.log = c : 0 drop 2;
bytes client
text schedule
run replay image disk client schedule none = 0 lines 0 released 0 captured 0;
size none.log = 0
size none.released = 0
size none.wire = 0
jumps none.ram = yes
same none.disk disk = yes
";

#[test]
fn idle_turns_leave_five_files(rt: HostRuntime) {
    play::<_, Memory>(&rt, IDLE);
}

/// The image's segment has its fifth byte after the end of memory.
const FAULTS: &str = "\
bytes image headers FCFFFF80 04000000 05000000 05000000 04000000 6F000000
text schedule not tested
run replay a = 1 usage;
run replay image disk client schedule out = 2 image: 10;
run replay missing disk client schedule out = 6 read failed;
";

/// The second event's record isn't written.
const WRITE_FAULT: &str = "\
fail 11
run replay image disk client schedule out = 7 write failed;
read out.log = P 10 0 0 5 : - 0;
";

#[test]
fn each_status_prints_its_line(rt: HostRuntime) {
    play::<_, Memory>(&rt, FAULTS);
    play::<_, Memory>(&rt, WRITE_FAULT);
}

/// Options of memory.
const SIZES: &str = "\
run replay image disk client schedule least --ram 1 = 0 lines 3 released 0 captured 0;
size least.ram = 1048576
run replay image disk client schedule most --ram 64 = 0 lines 3 released 0 captured 0;
size most.ram = 67108864
run replay image disk client schedule out --ram 0 = 1 usage;
run replay image disk client schedule out --ram 65 = 1 usage;
run replay image disk client schedule out --ram 01 = 1 usage;
run replay image disk client schedule out --ram +1 = 1 usage;
run replay image disk client schedule out --ram = 1 usage;
run replay image disk client schedule out --rom 1 = 1 usage;
run replay image disk client schedule out --ram 1 --ram 1 = 1 usage;
size out.ram = none
";

#[test]
fn memory_has_the_size_that_the_words_say(rt: HostRuntime) {
    play::<_, Memory>(&rt, SIZES);
}

/// The second client stream has two bytes after a frame of 60.
const REFUSED: &str = "\
bytes disk *513
run replay image disk client schedule out --ram 1 = 3 disk: 513;
bytes disk
run replay image disk client schedule out --ram 1 = 3 disk: 0;
bytes disk *512
bytes client 00011001
run replay image disk client schedule out --ram 1 = 5 client: 0;
bytes client 0000003C *62
run replay image disk client schedule out --ram 1 = 5 client: 64;
bytes client
text schedule x p;x s;
run replay image disk client schedule out --ram 1 = 4 line 2;
text schedule r;
run replay image disk client schedule out --ram 1 = 4 line 1;
text schedule P 1 2 0 0;
run replay image disk client schedule out --ram 1 = 4 line 1;
text schedule P 1 0 0 0
run replay image disk client schedule out --ram 1 = 4 line 1;
size out.log = none
";

#[test]
fn a_refused_file_leaves_the_others_as_they_are(rt: HostRuntime) {
    play::<_, Memory>(&rt, REFUSED);
}

/// A failover while a checkpoint is under way: the secondary's turns from the start on are left.
/// The same after the secondary took the checkpoint: the primary's turns before it are left.
const LOGS: &str = "\
text log c : 0 - 0 0;P 1 1 0 0 : 0 0;> : 1;> : 2;S 2 1 0 0 : 0 0;< : 12 0 0;< : 13 1 1;\
P 6 0 0 0 : - 0;S 7 0 0 0 : - 0;< : 13 2 1;! q 1 differ;P 1 0 0 0 : -;> : 3;> : 4;> : 9;> : 10;\
x p : 0;r : 2;
run splice log single = 0 turns 2;
read single = T 2 0 0 0;T 7 - 0 0;
text log c : 0 - 0 0;P 1 1 0 0 : 0 0;> : 1;> : 2;S 2 1 0 0 : 0 0;< : 12 0 0;< : 13 1 1;\
P 6 0 0 0 : - 0;S 7 0 0 0 : - 0;< : 13 2 1;! q 1 differ;P 1 0 0 0 : -;> : 3;> : 4;> : 9;> : 10;\
> : 11;! k 1;x p : 0;r : 2;
run splice log single = 0 turns 2;
read single = T 1 0 0 0;T 6 - 0 0;
text log ! q 1 differ;
run splice log single = 4 line 1;
run splice none single = 6 read failed;
run splice log = 1 usage;
";

#[test]
fn a_log_is_spliced(rt: HostRuntime) {
    play::<_, Memory>(&rt, LOGS);
}

/// The last of the images is the jump to itself.
const IMAGES: &str = "\
image echo = yes
image clocked = yes
image disk_log = yes
image mute = yes
size image = 88
run image Mute image = 1 usage;
run replay image disk client schedule out = 0 lines 3 released 0 captured 0;
jumps out.ram = yes
";

#[test]
fn images_are_written_by_their_names_and_mute_runs(rt: HostRuntime) {
    play::<_, Memory>(&rt, IMAGES);
}
