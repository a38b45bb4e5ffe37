//! The symbol of a line at an offset.

ghost use Rattle.std.specs.Prelude.{◌≡◌, ◌≤◌, ◌<◌, ◌++◌, is_some, true, map, option_map, slice_get, None};
ghost use Rattle.tcp_track.specs.Segments.{byte, fin_if};
ghost use Rattle.line_release.specs.Whole.{whole_of};
ghost use Rattle.line_release.specs.Both.{line_or_none};
ghost use Rattle.settle_rules.specs.Matching.{known_symbol, are_different};
ghost use Rattle.line_match.specs.Untrimmed.{IsUntrimmed};
ghost use Rattle.line_match.specs.SymbolOf.{symbol_of};

use tcp_track::{Line, Offset};

/// A symbol of a line.
#[derive(Clone, Copy)]
pub(crate) enum LineSymbol {
    Syn,
    Byte(u8),
    Fin,
}

/// The symbol at a place among some bytes and a FIN after them.
fn data_symbol(bytes: &[u8], fin: bool, place: usize) -> Option<LineSymbol>
    ensures { option_map symbol_of result ≡ slice_get (map byte bytes.now ++ fin_if fin) place }
{
    if place < bytes.len() {
        return Some(LineSymbol::Byte(bytes[place]));
    }
    if fin && place == bytes.len() {
        return Some(LineSymbol::Fin);
    }
    None
}

/// The symbol of a line with an opening at an offset after its SYN.
fn symbol_later(line: &Line, offset: Offset) -> Option<LineSymbol>
    requires opened { is_some line.now.opening ≡ true }
    requires untrimmed { line.now.base ≤ offset }
    requires later { 0 < offset }
    ensures { option_map symbol_of result ≡ slice_get (whole_of line.now).symbols offset }
{
    let place = (offset - line.base.max(1)) as usize;
    data_symbol(line.bytes.as_slice(), line.fin, place)
}

/// The symbol of a line at an offset, from which on nothing of it is forgotten.
pub(crate) fn symbol_at(line: &Line, offset: Offset) -> Option<LineSymbol>
    requires { IsUntrimmed line.now offset }
    ensures { option_map symbol_of result ≡ slice_get (whole_of line.now).symbols offset }
{
    if line.opening.is_none() {
        return None;
    }
    if offset == 0 {
        return Some(LineSymbol::Syn);
    }
    symbol_later(line, offset)
}

/// The symbol that the other line is known to have: none below its base.
pub(crate) fn known_symbol(line: Option<&Line>, offset: Offset) -> Option<LineSymbol>
    ensures { option_map symbol_of result ≡ known_symbol (line_or_none line.entry) offset }
{
    let Some(line) = line else { return None };
    if offset < line.base {
        return None;
    }
    symbol_at(line, offset)
}

/// Says whether there are two symbols that differ.
pub(crate) fn are_different(mine: Option<LineSymbol>, theirs: Option<LineSymbol>) -> bool
    ensures { result ≡ are_different (option_map symbol_of mine) (option_map symbol_of theirs) }
{
    let Some(mine) = mine else { return false };
    let Some(theirs) = theirs else { return false };
    match (mine, theirs) {
        (LineSymbol::Syn, LineSymbol::Syn) => false,
        (LineSymbol::Byte(x), LineSymbol::Byte(y)) => x != y,
        (LineSymbol::Fin, LineSymbol::Fin) => false,
        _ => true,
    }
}
