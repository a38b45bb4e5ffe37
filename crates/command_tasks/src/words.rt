//! The words of a command line.

ghost use Rattle.std.specs.Prelude.{◌≡◌, IfSome, IsSome, option_map};
ghost use Rattle.std.specs.List.{list_all};
ghost use Rattle.std.specs.Str.{bytes_eq};
ghost use Rattle.colo_guests.specs.Images.{image};
ghost use Rattle.colo_words.specs.Words.{is_name, texts};
ghost use Rattle.command_tasks.specs.Held.{HasRam, IsWell, command_of, image_of, run_of, splice_of};
ghost use Rattle.command_tasks.specs.Words.{read_image, read_run, read_splice, read_verb, read_words};

use colo_guests::has_image;
use colo_words::{Opt, is_name, read_options};

/// The words of a run: the names of four files that are read, and what the files that are written
/// are named after.
#[derive(Clone, Copy)]
pub struct Run<'a> {
    /// An ELF file.
    pub image: &'a str,
    /// The disk's bytes.
    pub disk: &'a str,
    /// The client's frames, each after its length.
    pub client: &'a str,
    /// The lines of the events.
    pub lines: &'a str,
    /// What the written files are named after.
    pub out: &'a str,
    /// The size of memory in MiB.
    pub mib: u32,
}

/// The words of `splice`: the log that is read, and the file that is written.
#[derive(Clone, Copy)]
pub struct Splice<'a> {
    /// The log.
    pub log: &'a str,
    /// The written file.
    pub out: &'a str,
}

/// The words of `image`: the name of a demo image, and that of the file that is written.
#[derive(Clone, Copy)]
pub struct WriteImage<'a> {
    /// The image's name.
    pub name: &'a str,
    /// The written file.
    pub out: &'a str,
}

/// A command.
#[derive(Clone, Copy)]
pub enum Command<'a> {
    /// Runs a schedule.
    Replay(Run<'a>),
    /// Makes a single run again.
    Solo(Run<'a>),
    /// Writes the single run that a log names.
    Splice(Splice<'a>),
    /// Writes a demo image.
    WriteImage(WriteImage<'a>),
}

/// Whether each word is a name.
fn are_names(words: &[&str]) -> bool
    ensures { result ≡ list_all (λ word. is_name word.now) words.now }
{
    words.iter().all(|word| is_name(word))
}

/// Whether the word is this one.
fn is_word(word: &str, wanted: &str) -> bool
    ensures { result ≡ bytes_eq word.now wanted.now }
{
    word == wanted
}

/// What follows the verb of a run: five names, and then options.
fn read_run(words: &[String]) -> Option<Run<'_>>
    ensures run { option_map run_of result ≡ read_run (texts words.now) }
    ensures ram { IfSome result HasRam }
{
    let [image, disk, client, lines, out, options @ ..] = words else {
        return None;
    };
    let run = Run {
        image: image.as_str(),
        disk: disk.as_str(),
        client: client.as_str(),
        lines: lines.as_str(),
        out: out.as_str(),
        mib: read_options(options, &[Opt::Ram])?.ram,
    };
    if !are_names(&[run.image, run.disk, run.client, run.lines, run.out]) {
        return None;
    }
    Some(run)
}

/// What follows `splice`: two names.
fn read_splice(words: &[String]) -> Option<Splice<'_>>
    ensures { option_map splice_of result ≡ read_splice (texts words.now) }
{
    let [log, out] = words else {
        return None;
    };
    let splice = Splice {
        log: log.as_str(),
        out: out.as_str(),
    };
    if !are_names(&[splice.log, splice.out]) {
        return None;
    }
    Some(splice)
}

/// What follows `image`: the image's name, and a name.
fn read_image(words: &[String]) -> Option<WriteImage<'_>>
    ensures image { option_map image_of result ≡ read_image (texts words.now) }
    ensures named { IfSome result (λ c. IsSome (image c.name.now)) }
{
    let [name, out] = words else {
        return None;
    };
    if !has_image(name.as_str()) || !is_name(out.as_str()) {
        return None;
    }
    Some(WriteImage {
        name: name.as_str(),
        out: out.as_str(),
    })
}

/// The command that a first word and the words after it spell.
fn read_verb<'a>(verb: &str, words: &'a [String]) -> Option<Command<'a>>
    ensures command { option_map command_of result ≡ read_verb verb.now (texts words.now) }
    ensures well { IfSome result IsWell }
{
    if is_word(verb, "replay") {
        Some(Command::Replay(read_run(words)?))
    } else if is_word(verb, "solo") {
        Some(Command::Solo(read_run(words)?))
    } else if is_word(verb, "splice") {
        Some(Command::Splice(read_splice(words)?))
    } else if is_word(verb, "image") {
        Some(Command::WriteImage(read_image(words)?))
    } else {
        None
    }
}

/// The command that the words spell; `None` exactly where they spell none.
pub fn read_words(words: &[String]) -> Option<Command<'_>>
    ensures command { option_map command_of result ≡ read_words (texts words.now) }
    ensures well { IfSome result IsWell }
{
    let (verb, words) = words.split_first()?;
    read_verb(verb.as_str(), words)
}
