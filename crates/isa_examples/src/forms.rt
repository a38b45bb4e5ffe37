//! Worked words: those of the standard's listings.

use rv_forms::{kinds_of, mnemonic_of, operands_of, push_name, read_name};
use std::test::Fail;

#[test]
fn an_atomic_operation_is_named_with_its_order_bits(rt: HostRuntime) -> Result<(), Fail> {
    let name = read_name(b"amoadd.w.aq").ok_or("no name")?;
    let mut text = String::new(rt.alloc());
    push_name(&mut text, name)?;
    assert_eq!(rt; text.as_str(), "amoadd.w.aq");
    assert!(rt; read_name(b"add.w").is_none());
    assert!(rt; read_name(b"amoadd").is_none());
    assert!(rt; read_name(b"fence.i").is_some());
    Ok(())
}

#[test]
fn a_word_gives_its_operands(rt: HostRuntime) -> Result<(), Fail> {
    // lw x5, -2048(x6)
    let row = mnemonic_of(0x80032283).ok_or("no row")?;
    let operands = operands_of(row.syntax, 0x80032283);
    assert_eq!(rt; row.name, "lw");
    assert_eq!(rt; kinds_of(row.syntax).len(), 2);
    assert_eq!(rt; operands.rd, 5);
    assert_eq!(rt; operands.rs1, 6);
    assert_eq!(rt; operands.imm, -2048);
    Ok(())
}
