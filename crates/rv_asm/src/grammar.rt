//! The grammar of a statement, how it is read, what is refused, and what `li` loads.

ghost use Rattle.std.specs.Prelude.{◌≡◌, ◌↔◌, ℕ, ◌<◌, ◌^◌, ◌*◌, ◌+◌, ◌%◌, List, Option, Ok, Err, Some};
ghost use Rattle.rv_isa.specs.Table.{decode};
ghost use Rattle.rv_isa.specs.Words.{unsigned, word_of};
ghost use Rattle.rv_isa.specs.declared.instr.Instr.TheVariants.{Lui, Addi};
ghost use Rattle.rv_asm.specs.declared.fault.Why.{Why};
ghost use Rattle.rv_asm.specs.Grammar.{IsStatement};
ghost use Rattle.rv_asm.specs.Program.{Bad, program};
ghost use Rattle.rv_asm.specs.Refusals.{IsFirstBad, Stops};
ghost use Rattle.rv_asm.specs.Statements.{statement, upper_part, lower_part};

/// A text stands by the grammar for exactly the words that reading it from left to right gives.
pub fn grammar_is_read()
    ensures found { (places : List ℕ → Option ℕ) (here : ℕ) (text words : List ℕ)
        → statement places here text ≡ Ok words → IsStatement places here text words }
    ensures only { (places : List ℕ → Option ℕ) (here : ℕ) (text words : List ℕ)
        → IsStatement places here text words → statement places here text ≡ Ok words }
{}

/// A text is refused exactly where it stands for no words, and for the fault of its earliest bad
/// place: a word of a label's form that is no register (`Register`), a number or distance out of
/// its bounds or an odd distance (`Range`), a label without a place (`Label`), or no such statement
/// or operand (`Word`).
pub fn refusals_are_at_their_place()
    ensures without_words { (places : List ℕ → Option ℕ) (here : ℕ) (text : List ℕ)
        → ((why : Why) × (statement places here text ≡ Err why))
        ↔ ((words : List ℕ) → ¬ IsStatement places here text words) }
    ensures first { (places : List ℕ → Option ℕ) (here : ℕ) (text : List ℕ) (why : Why)
        → (statement places here text ≡ Err why) ↔ Stops places here text why }
{}

/// A text's lines are refused exactly where one of them is bad, and for the first bad one: a line
/// whose label an earlier line gives (`Label`, whatever follows the label), or else one whose
/// statement is refused. So of two lines that give a label the second is bad, and the first isn't
/// for that.
pub fn first_bad_line_is_refused()
    ensures { (lines : List (List ℕ)) (bad : Bad)
        → (program lines ≡ Err bad) ↔ IsFirstBad lines bad }
{}

/// The words of `li` are LUI and ADDI to the register, and what LUI puts there and the
/// sign-extended number that ADDI adds give the number, modulo 2^32.
pub fn li_loads_its_number()
    ensures upper { (rd n : ℕ) → rd < 32
        → decode (word_of (Lui rd (upper_part n))) ≡ Some (Lui rd (upper_part n)) }
    ensures lower { (rd n : ℕ) → rd < 32
        → decode (word_of (Addi rd rd (lower_part n))) ≡ Some (Addi rd rd (lower_part n)) }
    ensures sum { (n : ℕ) → n < 2 ^ 32
        → (upper_part n * 2 ^ 12 + unsigned 32 (lower_part n)) % 2 ^ 32 ≡ n }
{}
