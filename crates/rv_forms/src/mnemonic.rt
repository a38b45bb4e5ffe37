//! An instruction as a statement names it.

ghost use Rattle.std.specs.Prelude.{◌≤◌};
ghost use Rattle.rv_forms.specs.Forms.{mask_of};

use crate::kinds::Syntax;

/// An instruction's name, what stands after it, and its word without operands. The order bits that
/// stand after a name of the A extension are no part of the name.
#[derive(Clone, Copy)]
pub struct Mnemonic {
    pub name: &'static str,
    pub syntax: Syntax,
    pub value: u32,
    ghost fixed: { value ≤ mask_of syntax },
}
