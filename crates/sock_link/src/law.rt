//! What holds of an unframer over a whole stream. Each law is the contract of a call that does
//! nothing.

ghost use Rattle.sock_link.specs.Laws.{KeepsStream, BeginsStream, GivesNext, TellsTooLong, TellsBoundary, StaysStuck, StreamStaysStuck, IsReadOnce, ReadsBack, AddsRecord};

/// Over any list of pieces, and so however a stream was cut: the frames that were given and those
/// that wait are the frames of all that was fed, in order. `Feeds` is what each `feed` does, also
/// one that answers `TooLong`.
pub fn keeps_the_stream()
    ensures begins { BeginsStream }
    ensures keeps { KeepsStream }
    ensures gives { GivesNext }
{}

/// What an unframer tells of the unfinished record is so of the stream's rest: that it is too long,
/// that there is none, and where it begins.
pub fn tells_the_rest()
    ensures too_long { TellsTooLong }
    ensures boundary { TellsBoundary }
{}

/// After a length above the limit nothing changes but the count of bytes: `TooLong` comes again
/// with the same place, and the frames stay those before it.
pub fn stays_stuck()
    ensures unframer { StaysStuck }
    ensures stream { StreamStaysStuck }
{}

/// No other frames are: bytes are the stream of one list of frames and one rest.
pub fn reads_one_way()
    ensures { IsReadOnce }
{}

/// What `frame_into` appends for frames of at most 69,632 bytes, one after another, is read back as
/// those frames.
pub fn reads_back()
    ensures reads { ReadsBack }
    ensures adds { AddsRecord }
{}
