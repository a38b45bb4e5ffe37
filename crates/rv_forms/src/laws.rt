//! What holds of the table of names, of names and of words.

ghost use Rattle.std.specs.Prelude.{◌≡◌, ℕ, ◌^◌, ◌<◌, ◌==◌, ◌&&◌, Bool, false, List, Some, IsTrue, Contains, bit_and};
ghost use Rattle.std.specs.Bool.{OnFalse};
ghost use Rattle.std.specs.List.{list_all, list_any};
ghost use Rattle.rv_isa.specs.Table.{table};
ghost use Rattle.rv_forms.specs.declared.kinds.Syntax.{Syntax};
ghost use Rattle.rv_forms.specs.declared.kinds.Operands.{Operands};
ghost use Rattle.rv_forms.specs.Forms.{kinds_of, mask_of, is_ordered, operands_of, word_of};
ghost use Rattle.rv_forms.specs.Mnemonics.{Mnemonic, mnemonics, mnemonic_of};
ghost use Rattle.rv_forms.specs.Names.{Name, name_text, name_of};
ghost use Rattle.rv_forms.specs.Ranges.{AreInRange, Keeps};

/// Each row of the instruction table has a name, and a word that fits a name fits its row of the
/// table.
#[tactic(auto, unfolding(crate::specs::Mnemonics::mnemonics, rv_isa::specs::Table::table))]
pub fn names_are_of_the_instruction_table()
    ensures rows { IsTrue (list_all (λ row. list_any (λ m. m.value == row.value) mnemonics) table) }
    ensures names { IsTrue (list_all (λ m. list_any (λ row. m.value == row.value
        && bit_and row.mask (mask_of m.syntax) == row.mask) table) mnemonics) }
{}

/// A text is read as a name exactly where it is a row's name with its order bits.
pub fn names_are_read()
    ensures row { (text : List ℕ) (n : Name) → name_of text ≡ Some n
        → Contains mnemonics n.mnemonic }
    ensures written { (text : List ℕ) (n : Name) → name_of text ≡ Some n
        → text ≡ name_text n.mnemonic n.aq n.rl }
    ensures read { (m : Mnemonic) (aq rl : Bool) → Contains mnemonics m
        → OnFalse (is_ordered m.syntax) ((aq ≡ false) × (rl ≡ false))
        → name_of (name_text m aq rl) ≡ Some (record { mnemonic = m; aq = aq; rl = rl }) }
{}

/// A word is put together of its own operands, and has the operands that it was put together of.
pub fn words_and_operands_agree()
    ensures word { (w : ℕ) (m : Mnemonic) → w < 2 ^ 32 → mnemonic_of w ≡ Some m
        → word_of m.syntax m.value (operands_of m.syntax w) ≡ w }
    ensures ranges { (w : ℕ) (syntax : Syntax) → w < 2 ^ 32
        → AreInRange (kinds_of syntax) (operands_of syntax w) }
    ensures operands { (m : Mnemonic) (f : Operands) → Contains mnemonics m
        → AreInRange (kinds_of m.syntax) f → Keeps m.syntax m.value f }
{}
