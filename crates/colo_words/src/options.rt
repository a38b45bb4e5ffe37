//! The options that follow the other words of a command.

ghost use Rattle.std.specs.Prelude.{◌≡◌, ◌≤◌, IfSome};
ghost use Rattle.std.specs.List.{list_any};
ghost use Rattle.std.specs.Str.{bytes_eq};
ghost use Rattle.colo_words.specs.Options.{AreInRange, IsInRow, are_options, is_given, read_each, read_last, read_one, read_options, row_of};
ghost use Rattle.colo_words.specs.Words.{read_number, texts};

use crate::numbers::read_number;

/// An option: a word, and then its number.
#[derive(Clone, Copy, Debug, PartialEq, Eq)]
pub enum Opt {
    /// `--ram`: MiB of memory, 1 to 64; 16 where it is absent.
    Ram,
    /// `--rounds`: how many rounds there are at most, 1 to 4294967295; 1000000.
    Rounds,
    /// `--every`: after how many rounds a checkpoint is asked for, 0 to 4294967295; 0, for none.
    Every,
    /// `--steps`: the steps of a turn, 1 to 100000; 20000.
    Steps,
    /// `--stop`: the round that a node stops in, 0 to 4294967295; 0, for none.
    Stop,
}

/// The numbers of the options.
#[derive(Clone, Copy, Debug, PartialEq, Eq)]
pub struct Options {
    /// That of `--ram`.
    pub ram: u32,
    /// That of `--rounds`.
    pub rounds: u32,
    /// That of `--every`.
    pub every: u32,
    /// That of `--steps`.
    pub steps: u32,
    /// That of `--stop`.
    pub stop: u32,
}

impl Opt {
    /// Its word.
    #[tactic(auto, unfolding(crate::specs::Options::row_of))]
    fn word(self) -> &'static str
        ensures { result.now ≡ (row_of self).word }
    {
        match self {
            Opt::Ram => "--ram",
            Opt::Rounds => "--rounds",
            Opt::Every => "--every",
            Opt::Steps => "--steps",
            Opt::Stop => "--stop",
        }
    }

    /// Its least number.
    #[tactic(auto, unfolding(crate::specs::Options::row_of))]
    fn least(self) -> u32
        ensures { result ≡ (row_of self).least }
    {
        match self {
            Opt::Ram | Opt::Rounds | Opt::Steps => 1,
            Opt::Every | Opt::Stop => 0,
        }
    }

    /// Its greatest number.
    #[tactic(auto, unfolding(crate::specs::Options::row_of))]
    fn most(self) -> u32
        ensures { result ≡ (row_of self).most }
    {
        match self {
            Opt::Ram => 64,
            Opt::Steps => 100_000,
            Opt::Rounds | Opt::Every | Opt::Stop => 4_294_967_295,
        }
    }

    /// Its number where it is absent.
    #[tactic(auto, unfolding(crate::specs::Options::row_of))]
    fn absent(self) -> u32
        ensures value { result ≡ (row_of self).absent }
        ensures range { IsInRow (row_of self) result }
    {
        match self {
            Opt::Ram => 16,
            Opt::Rounds => 1_000_000,
            Opt::Steps => 20_000,
            Opt::Every | Opt::Stop => 0,
        }
    }

    /// The number that a word spells for it.
    fn number(self, word: &str) -> Option<u32>
        ensures value { result ≡ read_number (row_of self).least (row_of self).most word.now }
        ensures range { IfSome result (IsInRow (row_of self)) }
    {
        match read_number(word, u64::from(self.least()), u64::from(self.most())) {
            Some(number) => Some(number as u32),
            None => None,
        }
    }
}

/// Whether the word is this one.
fn is_word(word: &str, wanted: &str) -> bool
    ensures { result ≡ bytes_eq word.now wanted.now }
{
    word == wanted
}

/// Whether the word is that of an option that is allowed.
fn is_allowed(word: &str, allowed: &[Opt]) -> bool
    ensures { result ≡ list_any (λ opt. bytes_eq word.now (row_of opt).word) allowed.now }
{
    allowed.iter().any(|opt| is_word(word, opt.word()))
}

/// Whether the words are pairs, each of which begins with the word of an option that is allowed.
fn are_options(words: &[String], allowed: &[Opt]) -> bool
    ensures { result ≡ are_options allowed.now (texts words.now) }
{
    match words {
        [] => true,
        [_] => false,
        [word, _, rest @ ..] => is_allowed(word.as_str(), allowed) && are_options(rest, allowed),
    }
}

/// Whether a pair of the words begins with this word.
fn is_given(words: &[String], word: &str) -> bool
    ensures { result ≡ is_given word.now (texts words.now) }
{
    match words {
        [] => false,
        [_] => false,
        [first, _, rest @ ..] => is_word(first.as_str(), word) || is_given(rest, word),
    }
}

/// The number that a word spells for an option, where the rest of the words doesn't give it again.
fn read_last(number: &str, rest: &[String], opt: Opt) -> Option<u32>
    ensures value { result ≡ read_last (row_of opt) number.now (texts rest.now) }
    ensures range { IfSome result (IsInRow (row_of opt)) }
{
    if is_given(rest, opt.word()) {
        return None;
    }
    opt.number(number)
}

/// The number of an option, which is given at most once.
fn read_one(words: &[String], opt: Opt) -> Option<u32>
    ensures value { result ≡ read_one (row_of opt) (texts words.now) }
    ensures range { IfSome result (IsInRow (row_of opt)) }
{
    match words {
        [] => Some(opt.absent()),
        [_] => None,
        [word, number, rest @ ..] => {
            if is_word(word.as_str(), opt.word()) {
                read_last(number.as_str(), rest, opt)
            } else {
                read_one(rest, opt)
            }
        }
    }
}

/// The numbers of all options.
fn read_each(words: &[String]) -> Option<Options>
    ensures value { result ≡ read_each (texts words.now) }
    ensures range { IfSome result AreInRange }
{
    Some(Options {
        ram: read_one(words, Opt::Ram)?,
        rounds: read_one(words, Opt::Rounds)?,
        every: read_one(words, Opt::Every)?,
        steps: read_one(words, Opt::Steps)?,
        stop: read_one(words, Opt::Stop)?,
    })
}

/// What the words say: pairs of an option's word and its number, each option one of the allowed and
/// each at most once, in any order. An option that is absent has its own number. `None` exactly
/// where the words aren't such pairs.
pub fn read_options(words: &[String], allowed: &[Opt]) -> Option<Options>
    ensures value { result ≡ read_options allowed.now (texts words.now) }
    ensures range { IfSome result AreInRange }
{
    if are_options(words, allowed) {
        read_each(words)
    } else {
        None
    }
}
