//! What holds of accepted frames, as lists of bytes. Each law is the contract of a call that does
//! nothing.

ghost use Rattle.frame_mirror.specs.Laws.{AcceptedIsKept, KeptIsAccepted};

/// What `accept` keeps is the clean frame: a TCP segment of the same connection to the guest. It is
/// accepted itself, and cleaning it again changes nothing.
pub fn accepted_frames_are_clean()
    ensures kept { AcceptedIsKept }
    ensures again { KeptIsAccepted }
{}
