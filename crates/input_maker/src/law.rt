//! What holds of each input that a number makes. Each law is the contract of a call that does
//! nothing.

ghost use Rattle.input_maker.specs.Laws.{MakesBytes, MakesFrames, MakesSchedules, MakesStreams};

/// A law: what a number makes is read back.
pub fn inputs_read_back()
    ensures schedule { MakesSchedules }
    ensures stream { MakesStreams }
    ensures bytes { MakesBytes }
{}

/// A law: each frame of the client is one that the pair takes in, and not one that it drops.
pub fn frames_are_accepted()
    ensures { MakesFrames }
{}
