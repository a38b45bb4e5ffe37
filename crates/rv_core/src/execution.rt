//! What each instruction does.

ghost use Rattle.std.specs.Prelude.{◌≡◌, ℕ, ◌*◌, ◌^◌, ◌<◌, IfOk, IsErr, OnOk, OnErr};
ghost use Rattle.rv_traps.specs.CsrState.{KeepsLines};
ghost use Rattle.rv_core.specs.Stores.{IsOneStore, MayRunOut, request_of};
ghost use Rattle.rv_isa.specs.Table.{IsEncodable};
ghost use Rattle.rv_isa.specs.Ranges.{IsWithin};
ghost use Rattle.rv_core.specs.Registers.{x_of};
ghost use Rattle.rv_core.specs.Arithmetic.{add, word_of};
ghost use Rattle.rv_core.specs.Effect.{IsWordOf, KeepsOnTrap, effect, add_signed, clear_bit_0};
ghost use Rattle.rv_core.specs.Reach.{execution_result, hart_result, write_rd, jump, branch};
ghost use Rattle.rv_core.specs.Choices.{apply, holds};

use crate::access::{Load, Store};
use crate::arithmetic::{AluOp, Comparison};
use crate::buses::Bus;
use crate::control::CsrOp;
use crate::registers::{Hart, Outcome};
use colo_base::NoMemory;
use rv_isa::Instr;
use rv_traps::Csrs;
use rv_traps::cause::{BREAKPOINT, ENVIRONMENT_CALL_FROM_M_MODE};

impl Hart {
    /// Executes one instruction over a bus, exactly as its row of the instruction table says. Some
    /// word has to decode to it. `Trap` changes no register, no CSR and no memory. The bus
    /// afterwards is as before, or as one store left it. No instruction changes the lines, the
    /// timer and the count of steps of the CSRs.
    /// `NoMemory` comes only where the bus tells that the instruction's store may run out of
    /// memory. The CSRs are then as before, and nothing is stated of the hart and the bus.
    #[tactic(auto, unfolding(crate::specs::Effect::effect))]
    #[inline(always)]
    pub fn execute<B: Bus>(
        &mut self,
        instr: &Instr,
        csrs: &mut Csrs,
        bus: &mut B,
    ) -> Result<Outcome, NoMemory>
        requires { IsEncodable instr.now }
        ensures effect { (w : ℕ) → IsWordOf w instr.now → IfOk result (λ o.
            execution_result o self.new csrs.new bus.new
            ≡ effect B.acts self.old csrs.old bus.old w instr.now) }
        ensures trap { IfOk result (λ o.
            KeepsOnTrap o self.old self.new csrs.old csrs.new bus.old bus.new) }
        ensures one_store { OnOk result (IsOneStore B.acts bus.old bus.new) }
        ensures lines { OnOk result (KeepsLines csrs.old csrs.new) }
        ensures memory { IsErr result
            → MayRunOut B.acts bus.old (request_of B.acts self.old bus.old instr.now) }
        ensures csrs { OnErr result (csrs.new ≡ csrs.old) }
    {
        self.execute_in_range(instr, csrs, bus)
    }

    /// The effect alone, where each field is within its range.
    #[tactic(auto, unfolding(crate::specs::Effect::effect))]
    #[inline(always)]
    fn execute_in_range<B: Bus>(
        &mut self,
        instr: &Instr,
        csrs: &mut Csrs,
        bus: &mut B,
    ) -> Result<Outcome, NoMemory>
        requires { IsWithin instr.now }
        ensures effect { (w : ℕ) → IsWordOf w instr.now → IfOk result (λ o.
            execution_result o self.new csrs.new bus.new
            ≡ effect B.acts self.old csrs.old bus.old w instr.now) }
        ensures memory { IsErr result
            → MayRunOut B.acts bus.old (request_of B.acts self.old bus.old instr.now) }
        ensures csrs { OnErr result (csrs.new ≡ csrs.old) }
    {
        match *instr {
            Instr::Lui { rd, imm } => Ok(self.put(rd, imm << 12)),
            Instr::Auipc { rd, imm } => Ok(self.put_above_pc(rd, imm)),
            Instr::Jal { rd, imm } => Ok(self.jump_by(rd, imm)),
            Instr::Jalr { rd, rs1, imm } => Ok(self.jump_to(rd, rs1, imm)),
            Instr::Beq { rs1, rs2, imm } => Ok(self.branch(Comparison::Eq, rs1, rs2, imm)),
            Instr::Bne { rs1, rs2, imm } => Ok(self.branch(Comparison::Ne, rs1, rs2, imm)),
            Instr::Blt { rs1, rs2, imm } => Ok(self.branch(Comparison::Lt, rs1, rs2, imm)),
            Instr::Bge { rs1, rs2, imm } => Ok(self.branch(Comparison::Ge, rs1, rs2, imm)),
            Instr::Bltu { rs1, rs2, imm } => Ok(self.branch(Comparison::Ltu, rs1, rs2, imm)),
            Instr::Bgeu { rs1, rs2, imm } => Ok(self.branch(Comparison::Geu, rs1, rs2, imm)),
            Instr::Lb { rd, rs1, imm } => Ok(self.load(Load::Lb, rd, rs1, imm, bus)),
            Instr::Lh { rd, rs1, imm } => Ok(self.load(Load::Lh, rd, rs1, imm, bus)),
            Instr::Lw { rd, rs1, imm } => Ok(self.load(Load::Lw, rd, rs1, imm, bus)),
            Instr::Lbu { rd, rs1, imm } => Ok(self.load(Load::Lbu, rd, rs1, imm, bus)),
            Instr::Lhu { rd, rs1, imm } => Ok(self.load(Load::Lhu, rd, rs1, imm, bus)),
            Instr::Sb { rs1, rs2, imm } => self.store(Store::Sb, rs1, rs2, imm, bus),
            Instr::Sh { rs1, rs2, imm } => self.store(Store::Sh, rs1, rs2, imm, bus),
            Instr::Sw { rs1, rs2, imm } => self.store(Store::Sw, rs1, rs2, imm, bus),
            Instr::Addi { rd, rs1, imm } => Ok(self.combine_immediate(AluOp::Add, rd, rs1, imm)),
            Instr::Slti { rd, rs1, imm } => Ok(self.combine_immediate(AluOp::Slt, rd, rs1, imm)),
            Instr::Sltiu { rd, rs1, imm } => Ok(self.combine_immediate(AluOp::Sltu, rd, rs1, imm)),
            Instr::Xori { rd, rs1, imm } => Ok(self.combine_immediate(AluOp::Xor, rd, rs1, imm)),
            Instr::Ori { rd, rs1, imm } => Ok(self.combine_immediate(AluOp::Or, rd, rs1, imm)),
            Instr::Andi { rd, rs1, imm } => Ok(self.combine_immediate(AluOp::And, rd, rs1, imm)),
            Instr::Slli { rd, rs1, shamt } => Ok(self.shift(AluOp::Sll, rd, rs1, shamt)),
            Instr::Srli { rd, rs1, shamt } => Ok(self.shift(AluOp::Srl, rd, rs1, shamt)),
            Instr::Srai { rd, rs1, shamt } => Ok(self.shift(AluOp::Sra, rd, rs1, shamt)),
            Instr::Add { rd, rs1, rs2 } => Ok(self.combine(AluOp::Add, rd, rs1, rs2)),
            Instr::Sll { rd, rs1, rs2 } => Ok(self.combine(AluOp::Sll, rd, rs1, rs2)),
            Instr::Slt { rd, rs1, rs2 } => Ok(self.combine(AluOp::Slt, rd, rs1, rs2)),
            Instr::Sltu { rd, rs1, rs2 } => Ok(self.combine(AluOp::Sltu, rd, rs1, rs2)),
            Instr::Xor { rd, rs1, rs2 } => Ok(self.combine(AluOp::Xor, rd, rs1, rs2)),
            Instr::Srl { rd, rs1, rs2 } => Ok(self.combine(AluOp::Srl, rd, rs1, rs2)),
            Instr::Or { rd, rs1, rs2 } => Ok(self.combine(AluOp::Or, rd, rs1, rs2)),
            Instr::And { rd, rs1, rs2 } => Ok(self.combine(AluOp::And, rd, rs1, rs2)),
            Instr::Sub { rd, rs1, rs2 } => Ok(self.combine(AluOp::Sub, rd, rs1, rs2)),
            Instr::Sra { rd, rs1, rs2 } => Ok(self.combine(AluOp::Sra, rd, rs1, rs2)),
            Instr::Mul { rd, rs1, rs2 } => Ok(self.combine(AluOp::Mul, rd, rs1, rs2)),
            Instr::Mulh { rd, rs1, rs2 } => Ok(self.combine(AluOp::Mulh, rd, rs1, rs2)),
            Instr::Mulhsu { rd, rs1, rs2 } => Ok(self.combine(AluOp::Mulhsu, rd, rs1, rs2)),
            Instr::Mulhu { rd, rs1, rs2 } => Ok(self.combine(AluOp::Mulhu, rd, rs1, rs2)),
            Instr::Div { rd, rs1, rs2 } => Ok(self.combine(AluOp::Div, rd, rs1, rs2)),
            Instr::Divu { rd, rs1, rs2 } => Ok(self.combine(AluOp::Divu, rd, rs1, rs2)),
            Instr::Rem { rd, rs1, rs2 } => Ok(self.combine(AluOp::Rem, rd, rs1, rs2)),
            Instr::Remu { rd, rs1, rs2 } => Ok(self.combine(AluOp::Remu, rd, rs1, rs2)),
            Instr::Fence { .. } | Instr::FenceI { .. } | Instr::Wfi => Ok(self.go_on()),
            Instr::Csrrw { rd, rs1, csr } => Ok(self.access_by_register(
                CsrOp::Write,
                rd,
                rs1,
                csr,
                instr,
                csrs,
            )),
            Instr::Csrrs { rd, rs1, csr } => Ok(self.access_by_register(
                CsrOp::Set,
                rd,
                rs1,
                csr,
                instr,
                csrs,
            )),
            Instr::Csrrc { rd, rs1, csr } => Ok(self.access_by_register(
                CsrOp::Clear,
                rd,
                rs1,
                csr,
                instr,
                csrs,
            )),
            Instr::Csrrwi { rd, imm, csr } => Ok(self.access_by_number(
                CsrOp::Write,
                rd,
                imm,
                csr,
                instr,
                csrs,
            )),
            Instr::Csrrsi { rd, imm, csr } => Ok(self.access_by_number(
                CsrOp::Set,
                rd,
                imm,
                csr,
                instr,
                csrs,
            )),
            Instr::Csrrci { rd, imm, csr } => Ok(self.access_by_number(
                CsrOp::Clear,
                rd,
                imm,
                csr,
                instr,
                csrs,
            )),
            Instr::Ecall => Ok(Outcome::Trap {
                cause: ENVIRONMENT_CALL_FROM_M_MODE,
                value: 0,
            }),
            Instr::Ebreak => Ok(Outcome::Trap {
                cause: BREAKPOINT,
                value: self.pc(),
            }),
            Instr::Mret => Ok(self.leave(csrs)),
            Instr::Lr { rd, rs1, .. } => Ok(self.load_reserved(rd, rs1, bus)),
            Instr::Sc { rd, rs1, rs2, .. } => self.store_conditional(rd, rs1, rs2, bus),
            Instr::AmoSwap { rd, rs1, rs2, .. } => self.modify(AluOp::Swap, rd, rs1, rs2, bus),
            Instr::AmoAdd { rd, rs1, rs2, .. } => self.modify(AluOp::Add, rd, rs1, rs2, bus),
            Instr::AmoXor { rd, rs1, rs2, .. } => self.modify(AluOp::Xor, rd, rs1, rs2, bus),
            Instr::AmoAnd { rd, rs1, rs2, .. } => self.modify(AluOp::And, rd, rs1, rs2, bus),
            Instr::AmoOr { rd, rs1, rs2, .. } => self.modify(AluOp::Or, rd, rs1, rs2, bus),
            Instr::AmoMin { rd, rs1, rs2, .. } => self.modify(AluOp::Min, rd, rs1, rs2, bus),
            Instr::AmoMax { rd, rs1, rs2, .. } => self.modify(AluOp::Max, rd, rs1, rs2, bus),
            Instr::AmoMinu { rd, rs1, rs2, .. } => self.modify(AluOp::Minu, rd, rs1, rs2, bus),
            Instr::AmoMaxu { rd, rs1, rs2, .. } => self.modify(AluOp::Maxu, rd, rs1, rs2, bus),
        }
    }

    /// AUIPC.
    #[inline(always)]
    fn put_above_pc(&mut self, rd: u8, imm: u32) -> Outcome
        requires register { rd < 32 }
        requires upper { imm < 2 ^ 20 }
        ensures { hart_result result self.new
            ≡ write_rd self.old rd (add self.old.pc (imm * 2 ^ 12)) }
    {
        let sum = self.pc().wrapping_add(imm << 12);
        self.put(rd, sum)
    }

    /// JAL.
    #[inline(always)]
    fn jump_by(&mut self, rd: u8, imm: i32) -> Outcome
        requires { rd < 32 }
        ensures { hart_result result self.new ≡ jump self.old rd (add_signed self.old.pc imm) }
    {
        let target = self.pc().wrapping_add_signed(imm);
        self.jump(rd, target)
    }

    /// JALR, which clears bit 0 of its target.
    #[inline(always)]
    fn jump_to(&mut self, rd: u8, rs1: u8, imm: i32) -> Outcome
        requires target { rd < 32 }
        requires source { rs1 < 32 }
        ensures { let target = clear_bit_0 (add_signed (x_of self.old rs1) imm) in
            hart_result result self.new ≡ jump self.old rd target }
    {
        let target = self.at(rs1).wrapping_add_signed(imm) / 2 * 2;
        self.jump(rd, target)
    }

    /// The branches.
    #[inline(always)]
    fn branch(&mut self, comparison: Comparison, rs1: u8, rs2: u8, imm: i32) -> Outcome
        requires left { rs1 < 32 }
        requires right { rs2 < 32 }
        ensures { let taken = holds comparison (x_of self.old rs1) (x_of self.old rs2) in
            hart_result result self.new ≡ branch self.old taken (add_signed self.old.pc imm) }
    {
        if comparison.holds(self.at(rs1), self.at(rs2)) {
            let target = self.pc().wrapping_add_signed(imm);
            self.jump(0, target)
        } else {
            self.go_on()
        }
    }

    /// An operation on two registers.
    #[inline(always)]
    fn combine(&mut self, operation: AluOp, rd: u8, rs1: u8, rs2: u8) -> Outcome
        requires target { rd < 32 }
        requires left { rs1 < 32 }
        requires right { rs2 < 32 }
        ensures { hart_result result self.new
            ≡ write_rd self.old rd (apply operation (x_of self.old rs1) (x_of self.old rs2)) }
    {
        let value = operation.apply(self.at(rs1), self.at(rs2));
        self.put(rd, value)
    }

    /// An operation on a register and an immediate.
    #[inline(always)]
    fn combine_immediate(&mut self, operation: AluOp, rd: u8, rs1: u8, imm: i32) -> Outcome
        requires target { rd < 32 }
        requires source { rs1 < 32 }
        ensures { let value = apply operation (x_of self.old rs1) (word_of imm) in
            hart_result result self.new ≡ write_rd self.old rd value }
    {
        let value = operation.apply(self.at(rs1), imm.cast_unsigned());
        self.put(rd, value)
    }

    /// A shift of a register by a number.
    #[inline(always)]
    fn shift(&mut self, operation: AluOp, rd: u8, rs1: u8, shamt: u8) -> Outcome
        requires target { rd < 32 }
        requires source { rs1 < 32 }
        ensures { let value = apply operation (x_of self.old rs1) shamt in
            hart_result result self.new ≡ write_rd self.old rd value }
    {
        let value = operation.apply(self.at(rs1), u32::from(shamt));
        self.put(rd, value)
    }
}
