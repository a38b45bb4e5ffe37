//! What holds of the bytes of states, for callers that reason about a state which no call has in
//! hand. The law is the contract of a call that does nothing.

ghost use Rattle.machine_bytes.specs.Laws.{ReadsBack, AreAccepted, AreLegalFields, WritesBack};

/// Values that a machine can have are read again from their bytes, which are accepted. Bytes that
/// are accepted stand for such values, and are written again as they are.
pub fn states_read_back()
    ensures reads { ReadsBack }
    ensures accepted { AreAccepted }
    ensures legal { AreLegalFields }
    ensures writes { WritesBack }
{}
