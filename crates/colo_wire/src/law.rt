//! What holds of all messages. The law is the contract of a call that does nothing.

ghost use Rattle.colo_wire.specs.Reader.{ReadsMessages};

/// The bytes of a message are read as it.
pub fn reads_messages()
    ensures { ReadsMessages }
{}
