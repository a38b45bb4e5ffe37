//! What the operands of a statement are, and their values.

ghost use Rattle.std.specs.Prelude.{◌≡◌};
ghost use Rattle.rv_forms.specs.Forms.{kinds_of};

/// What an operand is.
#[derive(Clone, Copy)]
pub enum Kind {
    /// The destination register.
    Rd,
    /// The first source register.
    Rs1,
    /// The second source register.
    Rs2,
    /// A number from -2048 to 2047.
    Immediate,
    /// A shift amount, 0 to 31.
    Shift,
    /// A 5-bit number in the place of the first source register, 0 to 31.
    Small,
    /// A CSR's number, 0 to 4095.
    Csr,
    /// The upper 20 bits, 0 to 0xFFFFF.
    Upper,
    /// A label or an even distance from -4096 to 4094.
    Branch,
    /// A label or an even distance from -1048576 to 1048574.
    Jump,
    /// A number from -2048 to 2047, and the first source register in parentheses.
    Address,
    /// The first source register in parentheses.
    Base,
    /// A number from -2147483648 to 4294967295, modulo 2^32.
    Word,
    /// A label or such a number.
    Value,
}

/// What stands after an instruction's name, and where the operands stand in the word.
#[derive(Clone, Copy)]
pub enum Syntax {
    /// LUI and AUIPC.
    UType,
    /// JAL.
    JType,
    /// JALR and arithmetic with an immediate.
    IType,
    /// Shifts by an immediate.
    ShiftType,
    /// Loads.
    LoadType,
    /// Stores.
    SType,
    /// Branches.
    BType,
    /// Arithmetic of registers.
    RType,
    /// CSR instructions with a register.
    CsrType,
    /// CSR instructions with a 5-bit number.
    CsrNumberType,
    /// A name alone, which stands for one word.
    Exact,
    /// LR, with the order bits after its name.
    LrType,
    /// SC and the atomic memory operations, with the order bits after their names.
    AmoType,
}

/// The values of a statement's operands. `imm` is a signed immediate or a distance, and `wide` a
/// CSR's number, the upper 20 bits or a word. A shift amount stands in `rs2`, a 5-bit number in
/// `rs1`. `aq` and
/// `rl` are the order bits, acquire and release.
#[derive(Clone, Copy)]
pub struct Operands {
    pub rd: u8,
    pub rs1: u8,
    pub rs2: u8,
    pub imm: i32,
    pub wide: u32,
    pub aq: bool,
    pub rl: bool,
}

/// What the operands are, in the order in which they are written.
pub fn kinds_of(syntax: Syntax) -> &'static [Kind]
    ensures { result.now ≡ kinds_of syntax }
{
    match syntax {
        Syntax::UType => &[Kind::Rd, Kind::Upper],
        Syntax::JType => &[Kind::Rd, Kind::Jump],
        Syntax::IType => &[Kind::Rd, Kind::Rs1, Kind::Immediate],
        Syntax::ShiftType => &[Kind::Rd, Kind::Rs1, Kind::Shift],
        Syntax::LoadType => &[Kind::Rd, Kind::Address],
        Syntax::SType => &[Kind::Rs2, Kind::Address],
        Syntax::BType => &[Kind::Rs1, Kind::Rs2, Kind::Branch],
        Syntax::RType => &[Kind::Rd, Kind::Rs1, Kind::Rs2],
        Syntax::CsrType => &[Kind::Rd, Kind::Csr, Kind::Rs1],
        Syntax::CsrNumberType => &[Kind::Rd, Kind::Csr, Kind::Small],
        Syntax::Exact => &[],
        Syntax::LrType => &[Kind::Rd, Kind::Base],
        Syntax::AmoType => &[Kind::Rd, Kind::Rs2, Kind::Base],
    }
}
