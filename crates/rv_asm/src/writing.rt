//! The text of a word.

ghost use Rattle.std.specs.Prelude.{◌≡◌, Some, IsTrue, [], ◌∷◌, ◌++◌, OnOk, OnErr, decimal, option_map};
ghost use Rattle.std.specs.String.{string_bytes};
ghost use Rattle.shared_definitions.specs.Begins.{Begins};
ghost use Rattle.rv_isa.specs.Fields.{aq, rl};
ghost use Rattle.rv_forms.specs.Names.{mnemonic};
ghost use Rattle.rv_asm.specs.Program.{Assembles};
ghost use Rattle.rv_asm.specs.Statements.{no_operands};
ghost use Rattle.rv_asm.specs.Texts.{register_text, signed_text, upper_text, bracket_text, word_text, operand_text, operand_texts, statement_text, data_text, text_by, text_of, is_one_line};

use ascii_text::{push_hexadecimal, push_hexadecimal_digits};
use colo_base::NoMemory;
use itoa::Buffer;
use rv_forms::{Kind, Mnemonic, Name, Operands, kinds_of, mnemonic_of, operands_of, push_name};

/// Appends a number in decimal.
fn push_decimal(into: &mut String, number: u32) -> Result<(), NoMemory>
    ensures ok { OnOk result (string_bytes into.new ≡ string_bytes into.old ++ decimal number) }
    ensures err { OnErr result (Begins (string_bytes into.old) (string_bytes into.new)) }
{
    let mut buffer = Buffer::new();
    into.push_str(buffer.format(number))?;
    Ok(())
}

/// Appends a register's name.
fn push_register(into: &mut String, register: u8) -> Result<(), NoMemory>
    ensures ok { OnOk result (string_bytes into.new
        ≡ string_bytes into.old ++ register_text register) }
    ensures err { OnErr result (Begins (string_bytes into.old) (string_bytes into.new)) }
{
    into.push_str("x")?;
    push_decimal(into, register as u32)
}

/// Appends a signed number in decimal.
fn push_signed(into: &mut String, number: i32) -> Result<(), NoMemory>
    ensures ok { OnOk result (string_bytes into.new ≡ string_bytes into.old ++ signed_text number) }
    ensures err { OnErr result (Begins (string_bytes into.old) (string_bytes into.new)) }
{
    if number < 0 {
        into.push_str("-")?;
    }
    push_decimal(into, number.unsigned_abs())
}

/// Appends `0x` and a number's hexadecimal digits, without needless zeros.
fn push_upper(into: &mut String, number: u32) -> Result<(), NoMemory>
    ensures ok { OnOk result (string_bytes into.new ≡ string_bytes into.old ++ upper_text number) }
    ensures err { OnErr result (Begins (string_bytes into.old) (string_bytes into.new)) }
{
    into.push_str("0x")?;
    push_hexadecimal(into, number)?;
    Ok(())
}

/// Appends `0x` and eight hexadecimal digits.
fn push_word(into: &mut String, number: u32) -> Result<(), NoMemory>
    ensures ok { OnOk result (string_bytes into.new ≡ string_bytes into.old ++ word_text number) }
    ensures err { OnErr result (Begins (string_bytes into.old) (string_bytes into.new)) }
{
    into.push_str("0x")?;
    push_hexadecimal_digits(into, 8, number)?;
    Ok(())
}

/// Appends a register's name in parentheses.
fn push_bracket(into: &mut String, register: u8) -> Result<(), NoMemory>
    ensures ok { OnOk result (string_bytes into.new
        ≡ string_bytes into.old ++ bracket_text register) }
    ensures err { OnErr result (Begins (string_bytes into.old) (string_bytes into.new)) }
{
    into.push_str("(")?;
    push_register(into, register)?;
    into.push_str(")")?;
    Ok(())
}

/// Appends an address: a number, and a register's name in parentheses.
fn push_address(into: &mut String, offset: i32, register: u8) -> Result<(), NoMemory>
    ensures ok { OnOk result (string_bytes into.new
        ≡ string_bytes into.old ++ (signed_text offset ++ bracket_text register)) }
    ensures err { OnErr result (Begins (string_bytes into.old) (string_bytes into.new)) }
{
    push_signed(into, offset)?;
    push_bracket(into, register)
}

/// Appends an operand of this kind.
#[tactic(auto, unfolding(crate::specs::Texts::operand_text))]
fn push_operand(into: &mut String, kind: Kind, values: Operands) -> Result<(), NoMemory>
    ensures ok { OnOk result (string_bytes into.new
        ≡ string_bytes into.old ++ operand_text kind values) }
    ensures err { OnErr result (Begins (string_bytes into.old) (string_bytes into.new)) }
{
    match kind {
        Kind::Rd => push_register(into, values.rd),
        Kind::Rs1 => push_register(into, values.rs1),
        Kind::Rs2 => push_register(into, values.rs2),
        Kind::Immediate | Kind::Branch | Kind::Jump => push_signed(into, values.imm),
        Kind::Shift => push_decimal(into, values.rs2 as u32),
        Kind::Small => push_decimal(into, values.rs1 as u32),
        Kind::Csr | Kind::Upper => push_upper(into, values.wide),
        Kind::Address => push_address(into, values.imm, values.rs1),
        Kind::Base => push_bracket(into, values.rs1),
        Kind::Word | Kind::Value => push_word(into, values.wide),
    }
}

/// Appends operands, a comma and a space between them.
#[tactic(auto, unfolding(crate::specs::Texts::operand_texts))]
fn push_operands(
    into: &mut String,
    kind: Kind,
    more: &[Kind],
    values: Operands,
) -> Result<(), NoMemory>
    ensures ok { OnOk result (string_bytes into.new
        ≡ string_bytes into.old ++ operand_texts kind more.now values) }
    ensures err { OnErr result (Begins (string_bytes into.old) (string_bytes into.new)) }
{
    push_operand(into, kind, values)?;
    match more {
        [] => Ok(()),
        [next, more @ ..] => {
            into.push_str(", ")?;
            push_operands(into, *next, more, values)
        }
    }
}

/// Appends the operands after a name, if there are any.
#[tactic(auto, unfolding(crate::specs::Texts::statement_text))]
fn push_after_name(into: &mut String, kinds: &[Kind], values: Operands) -> Result<(), NoMemory>
    ensures ok { OnOk result (string_bytes into.new
        ≡ statement_text (string_bytes into.old) kinds.now values) }
    ensures err { OnErr result (Begins (string_bytes into.old) (string_bytes into.new)) }
{
    match kinds {
        [] => Ok(()),
        [kind, more @ ..] => {
            into.push_str(" ")?;
            push_operands(into, *kind, more, values)
        }
    }
}

/// Appends `.word` and the word as a number.
fn push_data(into: &mut String, word: u32) -> Result<(), NoMemory>
    ensures ok { OnOk result (string_bytes into.new ≡ string_bytes into.old ++ data_text word) }
    ensures err { OnErr result (Begins (string_bytes into.old) (string_bytes into.new)) }
{
    into.push_str(".word ")?;
    push_word(into, word)
}

/// Appends the statement of the instruction that the word is.
fn push_instruction(into: &mut String, row: Mnemonic, word: u32) -> Result<(), NoMemory>
    ensures ok { OnOk result (string_bytes into.new
        ≡ string_bytes into.old ++ text_by (Some (mnemonic row)) word) }
    ensures err { OnErr result (Begins (string_bytes into.old) (string_bytes into.new)) }
{
    let values = operands_of(row.syntax, word);
    let name = Name {
        mnemonic: row,
        aq: values.aq,
        rl: values.rl,
    };
    push_name(into, name)?;
    push_after_name(into, kinds_of(row.syntax), values)
}

/// Appends the text of a word.
#[tactic(auto, unfolding(crate::specs::Texts::text_of))]
fn push_text(word: u32, into: &mut String) -> Result<(), NoMemory>
    ensures ok { OnOk result (string_bytes into.new ≡ string_bytes into.old ++ text_of word) }
    ensures err { OnErr result (Begins (string_bytes into.old) (string_bytes into.new)) }
{
    match mnemonic_of(word) {
        None => push_data(into, word),
        Some(row) => push_instruction(into, row, word),
    }
}

/// Appends the text of a word, one line that assembles to it: the statement of its instruction with
/// `x` names, immediates and distances in decimal, CSR numbers and the upper 20 bits of LUI and
/// AUIPC as `0x` and upper case digits without needless zeros, or `.word` with eight upper case
/// digits where the word is no instruction or, as a fence with other bits, one without a statement.
pub fn disassemble(word: u32, into: &mut String) -> Result<(), NoMemory>
    ensures ok { OnOk result (string_bytes into.new ≡ string_bytes into.old ++ text_of word) }

    // After a refused allocation the string begins with what it held.
    ensures err { OnErr result (Begins (string_bytes into.old) (string_bytes into.new)) }

    // The text of each word assembles to the word, and has no newline.
    ensures assembles { Assembles (text_of word) (word ∷ []) }
    ensures line { IsTrue (is_one_line (text_of word)) }
{
    push_text(word, into)
}
