//! What both nodes agree on goes out at once.

ghost use Rattle.theorem_frames.specs.Prompt.{SymbolsOfEachLog};

/// From each start, on every schedule, each event releases the symbols that both nodes agree on,
/// from the old edge to the matched end, each in a segment that carries it at its offset from the
/// number that the client knows; and the report those that a survivor's lines hold.
pub fn symbols_of_each_log()
    ensures { SymbolsOfEachLog }
{}
