//! Laws of lines, whatever was sent.

ghost use Rattle.theorem_frames.specs.Lines.{LinesAreSound};

/// A line with an opening is SYN, then bytes, then FIN where it ended; without one it is empty. It
/// is shorter than the bound of offsets, no trim passes its end or its FIN, and what it
/// acknowledges is below the bound.
pub fn lines_are_sound()
    ensures { LinesAreSound }
{}
