//! A name as it is written: after a name of the A extension `.w` and the order bits stand.

ghost use Rattle.std.specs.Prelude.{◌≡◌, ◌∷◌, ◌++◌, OnOk, OnErr, option_map};
ghost use Rattle.std.specs.Option.{option_copied};
ghost use Rattle.std.specs.String.{string_bytes};
ghost use Rattle.shared_definitions.specs.Ascii.{full_stop};
ghost use Rattle.shared_definitions.specs.Begins.{Begins};
ghost use Rattle.rv_forms.specs.Forms.{is_ordered};
ghost use Rattle.rv_forms.specs.Names.{mnemonic, name, order_of, order_after, order_text, with_order, name_text, name_of};

use crate::kinds::Syntax;
use crate::mnemonic::Mnemonic;
use crate::mnemonics::named;
use ascii_text::cut;
use std::alloc::AllocError;

/// A mnemonic with its order bits, acquire and release.
#[derive(Clone, Copy)]
pub struct Name {
    pub mnemonic: Mnemonic,
    pub aq: bool,
    pub rl: bool,
}

/// The order bits that a text writes.
fn order_of(text: &[u8]) -> Option<(bool, bool)>
    ensures { result ≡ order_of text.now }
{
    if text == b"w".as_slice() {
        Some((false, false))
    } else if text == b"w.aq".as_slice() {
        Some((true, false))
    } else if text == b"w.rl".as_slice() {
        Some((false, true))
    } else if text == b"w.aqrl".as_slice() {
        Some((true, true))
    } else {
        None
    }
}

/// The order bits that stand after a full stop.
fn order_after(text: Option<&[u8]>) -> Option<(bool, bool)>
    ensures { result ≡ order_after (option_copied text.entry) }
{
    match text {
        None => None,
        Some(text) => order_of(text),
    }
}

/// Whether the order bits are written after the name.
fn is_ordered(syntax: Syntax) -> bool
    ensures { result ≡ is_ordered syntax }
{
    matches!(syntax, Syntax::LrType | Syntax::AmoType)
}

/// The mnemonic with these order bits, which only the names of the A extension have, and they
/// always.
fn with_order(order: Option<(bool, bool)>, row: Mnemonic) -> Option<Name>
    ensures { option_map name result ≡ with_order order (mnemonic row) }
{
    match order {
        None => {
            if is_ordered(row.syntax) {
                return None;
            }
            Some(Name {
                mnemonic: row,
                aq: false,
                rl: false,
            })
        }
        Some((aq, rl)) => {
            if is_ordered(row.syntax) {
                return Some(Name {
                    mnemonic: row,
                    aq,
                    rl,
                });
            }
            None
        }
    }
}

/// The mnemonic and the order bits that a text names.
#[tactic(auto, unfolding(crate::specs::Names::name_of))]
pub fn read_name(text: &[u8]) -> Option<Name>
    ensures { option_map name result ≡ name_of text.now }
{
    let (front, after) = cut(text, b'.');
    match order_after(after) {
        None => {
            let row = named(text)?;
            with_order(None, row)
        }
        Some(order) => {
            let row = named(front)?;
            with_order(Some(order), row)
        }
    }
}

/// The order bits as they are written, after a full stop.
fn order_text(aq: bool, rl: bool) -> &'static str
    ensures { result.now ≡ full_stop ∷ order_text aq rl }
{
    match (aq, rl) {
        (false, false) => ".w",
        (true, false) => ".w.aq",
        (false, true) => ".w.rl",
        (true, true) => ".w.aqrl",
    }
}

/// Appends a name. After an error the string begins with what it held.
pub fn push_name(into: &mut String, name: Name) -> Result<(), AllocError>
    ensures ok { OnOk result (string_bytes into.new
        ≡ string_bytes into.old ++ name_text (mnemonic name.mnemonic) name.aq name.rl) }
    ensures err { OnErr result (Begins (string_bytes into.old) (string_bytes into.new)) }
{
    into.push_str(name.mnemonic.name)?;
    if is_ordered(name.mnemonic.syntax) {
        into.push_str(order_text(name.aq, name.rl))?;
    }
    Ok(())
}
