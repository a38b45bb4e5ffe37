//! Each public call once, with ample memory.

use crate::calls::{joined, memory};
use crate::scene::play;
use page_track::Ram;
use std::test::Fail;
use worked_steps::{Answer, Scene, nothing, number, word, yes_or_no};

/// The memory whose calls are made.
#[derive(Drop)]
struct Memory(Ram);

impl Scene for Memory {
    /// `part` answers the bytes of a part as one number, and `nowhere` the length of the part
    /// without bytes at the last address. `lend` writes two bytes, `put` one, and `fill` one byte
    /// over a part.
    fn call(&mut self, name: &str, n: &[u32; 6]) -> Answer {
        match name {
            "size" => number(self.0.size()),
            "pages" => number(u64::from(self.0.pages())),
            "holds" => yes_or_no(self.0.holds(u64::from(n[0]), u64::from(n[1]))),
            "part" => joined(self.0.part(u64::from(n[0]), u64::from(n[1]))),
            "nowhere" => length_of(self.0.part(u64::MAX, 0)),
            "page" => length_of(self.0.page(n[0])),
            "lend" => lend(
                &mut self.0,
                u64::from(n[0]),
                [low_byte(n[1]), low_byte(n[2])],
            ),
            "put" => put(&mut self.0, u64::from(n[0]), low_byte(n[1])),
            "fill" => fill(
                &mut self.0,
                u64::from(n[0]),
                u64::from(n[1]),
                low_byte(n[2]),
            ),
            _ => memory(&mut self.0, name, n),
        }
    }
}

/// The byte that a number has in its lowest bits.
fn low_byte(number: u32) -> u8 {
    (number & 0xFF) as u8
}

/// The number of bytes of a part.
fn length_of(part: Option<&[u8]>) -> Answer {
    match part {
        Some(part) => number(part.len() as u64),
        None => word("none"),
    }
}

/// Writes two bytes into a part that is lent.
fn lend(ram: &mut Ram, addr: u64, bytes: [u8; 2]) -> Answer {
    if !ram.holds(addr, 2) {
        return word("outside");
    }
    ram.lent(addr, 2).copy_from_slice(&bytes);
    nothing()
}

/// Writes a byte.
fn put(ram: &mut Ram, addr: u64, byte: u8) -> Answer {
    if !ram.holds(addr, 1) {
        return word("outside");
    }
    ram.write(addr, &[byte]);
    nothing()
}

/// Writes a byte over a part.
fn fill(ram: &mut Ram, addr: u64, len: u64, byte: u8) -> Answer {
    match ram.part_mut(addr, len) {
        Some(part) => {
            part.fill(byte);
            nothing()
        }
        None => word("none"),
    }
}

/// A MiB, from 0x80000000 on.
const CALLS: &str = "\
size : 100000
pages : 100
sw 80000FFE 12345678
sw 800FFFFD 0 : outside
lh 80001000 : 1234
lb 7FFFFFFF : none
holds 80001001 2 : yes
lend 80001001 7 8
holds 80000FFF 1 : yes
put 80000FFF 6
fill 80001002 1 9
part 80000FFE 5 : 7806340709
nowhere : 0
part 80100000 1 : none
page FF : 1000
page 100 : none
";

#[test]
fn a_mebibyte_is_loaded_stored_and_lent(rt: HostRuntime) -> Result<(), Fail> {
    play(&rt, &mut Memory(Ram::new(rt.alloc(), 1)?), &[CALLS]);
    Ok(())
}
