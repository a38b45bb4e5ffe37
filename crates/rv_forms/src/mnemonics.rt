//! The names of the instructions.

ghost use Rattle.std.specs.Prelude.{◌≡◌, ◌≤◌, IsTrue, map, option_map};
ghost use Rattle.std.specs.Cmp.Lexicographic.{slice_cmp};
ghost use Rattle.std.specs.List.{find};
ghost use Rattle.std.specs.Ordering.{nat_cmp};
ghost use Rattle.std.specs.Str.{bytes_eq};
ghost use Rattle.rv_forms.specs.Forms.{mask_of};
ghost use Rattle.rv_forms.specs.Mnemonics.{row as row_of, is_table, fits, mnemonic_of};
ghost use Rattle.rv_forms.specs.Names.{mnemonic, named};

use crate::kinds::Syntax;
use crate::mnemonic::Mnemonic;
use crate::words::mask_of;
use std::cmp::Ordering;

/// A name, what stands after it, and its word without operands.
type Row = (&'static str, Syntax, u32);

/// The names in the order of the alphabet.
const ROWS: [Row; 68] = [
    ("add", Syntax::RType, 0x0000_0033),
    ("addi", Syntax::IType, 0x0000_0013),
    ("amoadd", Syntax::AmoType, 0x0000_202F),
    ("amoand", Syntax::AmoType, 0x6000_202F),
    ("amomax", Syntax::AmoType, 0xA000_202F),
    ("amomaxu", Syntax::AmoType, 0xE000_202F),
    ("amomin", Syntax::AmoType, 0x8000_202F),
    ("amominu", Syntax::AmoType, 0xC000_202F),
    ("amoor", Syntax::AmoType, 0x4000_202F),
    ("amoswap", Syntax::AmoType, 0x0800_202F),
    ("amoxor", Syntax::AmoType, 0x2000_202F),
    ("and", Syntax::RType, 0x0000_7033),
    ("andi", Syntax::IType, 0x0000_7013),
    ("auipc", Syntax::UType, 0x0000_0017),
    ("beq", Syntax::BType, 0x0000_0063),
    ("bge", Syntax::BType, 0x0000_5063),
    ("bgeu", Syntax::BType, 0x0000_7063),
    ("blt", Syntax::BType, 0x0000_4063),
    ("bltu", Syntax::BType, 0x0000_6063),
    ("bne", Syntax::BType, 0x0000_1063),
    ("csrrc", Syntax::CsrType, 0x0000_3073),
    ("csrrci", Syntax::CsrNumberType, 0x0000_7073),
    ("csrrs", Syntax::CsrType, 0x0000_2073),
    ("csrrsi", Syntax::CsrNumberType, 0x0000_6073),
    ("csrrw", Syntax::CsrType, 0x0000_1073),
    ("csrrwi", Syntax::CsrNumberType, 0x0000_5073),
    ("div", Syntax::RType, 0x0200_4033),
    ("divu", Syntax::RType, 0x0200_5033),
    ("ebreak", Syntax::Exact, 0x0010_0073),
    ("ecall", Syntax::Exact, 0x0000_0073),
    ("fence", Syntax::Exact, 0x0000_000F),
    ("fence.i", Syntax::Exact, 0x0000_100F),
    ("jal", Syntax::JType, 0x0000_006F),
    ("jalr", Syntax::IType, 0x0000_0067),
    ("lb", Syntax::LoadType, 0x0000_0003),
    ("lbu", Syntax::LoadType, 0x0000_4003),
    ("lh", Syntax::LoadType, 0x0000_1003),
    ("lhu", Syntax::LoadType, 0x0000_5003),
    ("lr", Syntax::LrType, 0x1000_202F),
    ("lui", Syntax::UType, 0x0000_0037),
    ("lw", Syntax::LoadType, 0x0000_2003),
    ("mret", Syntax::Exact, 0x3020_0073),
    ("mul", Syntax::RType, 0x0200_0033),
    ("mulh", Syntax::RType, 0x0200_1033),
    ("mulhsu", Syntax::RType, 0x0200_2033),
    ("mulhu", Syntax::RType, 0x0200_3033),
    ("or", Syntax::RType, 0x0000_6033),
    ("ori", Syntax::IType, 0x0000_6013),
    ("rem", Syntax::RType, 0x0200_6033),
    ("remu", Syntax::RType, 0x0200_7033),
    ("sb", Syntax::SType, 0x0000_0023),
    ("sc", Syntax::AmoType, 0x1800_202F),
    ("sh", Syntax::SType, 0x0000_1023),
    ("sll", Syntax::RType, 0x0000_1033),
    ("slli", Syntax::ShiftType, 0x0000_1013),
    ("slt", Syntax::RType, 0x0000_2033),
    ("slti", Syntax::IType, 0x0000_2013),
    ("sltiu", Syntax::IType, 0x0000_3013),
    ("sltu", Syntax::RType, 0x0000_3033),
    ("sra", Syntax::RType, 0x4000_5033),
    ("srai", Syntax::ShiftType, 0x4000_5013),
    ("srl", Syntax::RType, 0x0000_5033),
    ("srli", Syntax::ShiftType, 0x0000_5013),
    ("sub", Syntax::RType, 0x4000_0033),
    ("sw", Syntax::SType, 0x0000_2023),
    ("wfi", Syntax::Exact, 0x1050_0073),
    ("xor", Syntax::RType, 0x0000_4033),
    ("xori", Syntax::IType, 0x0000_4013),
];

/// A row of the table as a mnemonic.
fn mnemonic_of_row(name: &'static str, syntax: Syntax, value: u32) -> Mnemonic
    requires { value ≤ mask_of syntax }
    ensures { mnemonic result ≡ row_of name.now syntax value }
{
    Mnemonic {
        name,
        syntax,
        value,
    }
}

/// The row with this name, found by halving the table.
fn row_named(rows: &[Row], name: &[u8]) -> Option<Mnemonic>
    requires { IsTrue (is_table (map (λ r. row_of r.0.now r.1 r.2) rows.now)) }
    ensures { option_map mnemonic result
        ≡ find (λ m. bytes_eq m.name name.now) (map (λ r. row_of r.0.now r.1 r.2) rows.now) }
{
    let by_name = |row: &Row| -> Ordering
        ensures { result ≡ slice_cmp nat_cmp row.now.0.now name.entry.now }
    { row.0.as_bytes().cmp(&name) };
    match rows.binary_search_by(by_name) {
        Ok(index) => {
            let (name, syntax, value) = rows[index];
            Some(mnemonic_of_row(name, syntax, value))
        }
        Err(_) => None,
    }
}

/// The first row that the word fits.
fn row_that_fits(rows: &[Row], word: u32) -> Option<Mnemonic>
    requires { IsTrue (is_table (map (λ r. row_of r.0.now r.1 r.2) rows.now)) }
    ensures { option_map mnemonic result
        ≡ find (λ m. fits m word) (map (λ r. row_of r.0.now r.1 r.2) rows.now) }
{
    for (name, syntax, value) in rows {
        if word & mask_of(*syntax) == *value {
            return Some(mnemonic_of_row(name, *syntax, *value));
        }
    }
    None
}

/// The mnemonic with this name, its order bits left out.
#[tactic(auto, unfolding(crate::specs::Mnemonics::mnemonics, crate::specs::Names::named))]
pub fn named(name: &[u8]) -> Option<Mnemonic>
    ensures { option_map mnemonic result ≡ named name.now }
{
    row_named(&ROWS, name)
}

/// The mnemonic whose instruction the word is, if it has a statement.
#[tactic(auto, unfolding(crate::specs::Mnemonics::mnemonics, crate::specs::Mnemonics::mnemonic_of))]
pub fn mnemonic_of(word: u32) -> Option<Mnemonic>
    ensures { option_map mnemonic result ≡ mnemonic_of word }
{
    row_that_fits(&ROWS, word)
}
