//! The fixed words of the three texts.

ghost use Rattle.std.specs.Prelude.{◌≡◌};
ghost use Rattle.replay_log.specs.Keywords.{keyword_text};

/// A fixed word.
#[derive(Clone, Copy)]
pub enum Keyword {
    Primary,
    Secondary,
    Client,
    ToSecondary,
    ToPrimary,
    Stop,
    OfPrimary,
    OfSecondary,
    Report,
    Ask,
    Answered,
    Absent,
    Arp,
    Drop,
    Full,
    Lost,
    Mark,
    Captured,
    Committed,
    Acknowledged,
    Differ,
    Restart,
    Wait,
    Asked,
    Turn,
}

/// The word as it is written.
pub fn keyword_text(keyword: Keyword) -> &'static [u8]
    ensures { result.now ≡ keyword_text keyword }
{
    match keyword {
        Keyword::Primary => b"P",
        Keyword::Secondary => b"S",
        Keyword::Client => b"c",
        Keyword::ToSecondary => b">",
        Keyword::ToPrimary => b"<",
        Keyword::Stop => b"x",
        Keyword::OfPrimary => b"p",
        Keyword::OfSecondary => b"s",
        Keyword::Report => b"r",
        Keyword::Ask => b"k",
        Keyword::Answered => b":",
        Keyword::Absent => b"-",
        Keyword::Arp => b"arp",
        Keyword::Drop => b"drop",
        Keyword::Full => b"full",
        Keyword::Lost => b"lost",
        Keyword::Mark => b"!",
        Keyword::Captured => b"q",
        Keyword::Committed => b"k",
        Keyword::Acknowledged => b"a",
        Keyword::Differ => b"differ",
        Keyword::Restart => b"restart",
        Keyword::Wait => b"wait",
        Keyword::Asked => b"asked",
        Keyword::Turn => b"T",
    }
}
