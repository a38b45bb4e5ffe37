//! The twelve cases by one change of an image each, and where segments come to stand.

ghost use Rattle.std.specs.Prelude.{◌+◌, ◌≤◌, length};

use elf_load::{ElfFault, load};

/// One segment of one word, a jump to itself, at 0x80000000.
const IMAGE: [u8; 88] = [
    0x7F, b'E', b'L', b'F', 1, 1, 1, 0, 0, 0, 0, 0, 0, 0, 0, 0, // e_ident
    2, 0, 243, 0, 1, 0, 0, 0, // e_type, e_machine, e_version
    0, 0, 0, 0x80, 52, 0, 0, 0, // e_entry, e_phoff
    0, 0, 0, 0, 0, 0, 0, 0, // e_shoff, e_flags
    52, 0, 32, 0, 1, 0, 0, 0, 0, 0, 0, 0, // e_ehsize, e_phentsize, e_phnum, sections
    1, 0, 0, 0, 84, 0, 0, 0, // p_type, p_offset
    0, 0x10, 0, 0, 0, 0, 0, 0x80, // p_vaddr, p_paddr
    4, 0, 0, 0, 4, 0, 0, 0, // p_filesz, p_memsz
    5, 0, 0, 0, 4, 0, 0, 0, // p_flags, p_align
    0x6F, 0, 0, 0,
];

/// A copy of the image, to be changed.
fn image() -> [u8; 88] {
    IMAGE
}

/// Writes a word at a place of an image, the lowest byte first.
fn put(image: &mut [u8], at: usize, word: u32)
    requires { at + 4 ≤ length image.old }
{
    image[at..at + 4].copy_from_slice(&word.to_le_bytes());
}

/// Loads an image. `None` is a memory that no machine has. It has no clause, so that what the
/// loader's contract says stands in no goal of the tests.
fn loaded(image: &[u8], memory: &mut [u8]) -> Option<Result<u32, ElfFault>> {
    if memory.len() > 0x400_0000 {
        return None;
    }
    Some(load(image, memory))
}

/// The number of the case that memory of 64 bytes meets, or 0 where the image is loaded.
fn case_of(image: &[u8]) -> u8 {
    match loaded(image, &mut [0xAA; 64]) {
        Some(Ok(_)) => 0,
        Some(Err(fault)) => fault.number,
        None => 255,
    }
}

/// The case of the image with one word changed.
fn case_with(at: usize, word: u32) -> u8
    requires { at ≤ 84 }
{
    let mut image = image();
    put(&mut image, at, word);
    case_of(&image)
}

#[test]
fn one_change_gives_each_case(rt: HostRuntime) {
    assert_eq!(rt; case_of(&IMAGE[..51]), 1);
    assert_eq!(rt; case_with(0, 0x464C_457E), 2);
    assert_eq!(rt; case_with(4, 0x0001_0102), 3);
    assert_eq!(rt; case_with(4, 0x0001_0201), 4);
    assert_eq!(rt; case_with(16, 0x00F3_0001), 5);
    assert_eq!(rt; case_with(16, 0x0003_0002), 6);
    assert_eq!(rt; case_with(40, 0x0028_0034), 7);
    assert_eq!(rt; case_with(28, 57), 8);
    assert_eq!(rt; case_with(28, 0xFFFF_FFE0), 8);
    assert_eq!(rt; case_with(68, 5), 9);
    assert_eq!(rt; case_with(56, 85), 9);
    assert_eq!(rt; case_with(64, 0x7FFF_FFFC), 10);
    assert_eq!(rt; case_with(64, 0x8000_003D), 10);
    assert_eq!(rt; case_with(64, 0x8000_003C), 0);
    assert_eq!(rt; case_with(72, 0x8000_0000), 10);
    assert_eq!(rt; case_with(52, 2), 11);
    assert_eq!(rt; case_with(24, 0x8000_0002), 12);
    assert_eq!(rt; case_with(24, 0x8000_0040), 12);
}

/// Two segments: the first fills eight bytes from 0x80000000 on, the second three from 0x80000004
/// on, of which two stand in the file.
const OVERLAP: [u8; 124] = [
    0x7F, b'E', b'L', b'F', 1, 1, 1, 0, 0, 0, 0, 0, 0, 0, 0, 0, // e_ident
    2, 0, 243, 0, 1, 0, 0, 0, // e_type, e_machine, e_version
    4, 0, 0, 0x80, 52, 0, 0, 0, // e_entry, e_phoff
    0, 0, 0, 0, 0, 0, 0, 0, // e_shoff, e_flags
    52, 0, 32, 0, 2, 0, 0, 0, 0, 0, 0, 0, // e_ehsize, e_phentsize, e_phnum, sections
    1, 0, 0, 0, 116, 0, 0, 0, 0, 0, 0, 0, 0, 0, 0, 0x80, // p_type, p_offset, p_vaddr, p_paddr
    8, 0, 0, 0, 8, 0, 0, 0, 4, 0, 0, 0, 4, 0, 0, 0, // p_filesz, p_memsz, p_flags, p_align
    1, 0, 0, 0, 120, 0, 0, 0, 0, 0, 0, 0, 4, 0, 0, 0x80, // p_type, p_offset, p_vaddr, p_paddr
    2, 0, 0, 0, 3, 0, 0, 0, 6, 0, 0, 0, 4, 0, 0, 0, // p_filesz, p_memsz, p_flags, p_align
    1, 2, 3, 4, 5, 6, 7, 8,
];

#[test]
fn segments_stand_at_their_physical_addresses(rt: HostRuntime) {
    let mut memory = [0xAA; 16];
    assert_eq!(rt; loaded(&OVERLAP, &mut memory), Some(Ok(0x8000_0004)));
    assert_eq!(rt; memory, [1, 2, 3, 4, 5, 6, 0, 8, 0, 0, 0, 0, 0, 0, 0, 0]);
    let mut least = [0xAA; 8];
    assert_eq!(rt; loaded(&OVERLAP, &mut least), Some(Ok(0x8000_0004)));
    assert_eq!(rt; least, [1, 2, 3, 4, 5, 6, 0, 8]);
    let mut short = [0xAA; 7];
    assert_eq!(rt; loaded(&OVERLAP, &mut short), Some(Err(ElfFault::OUTSIDE)));
    assert_eq!(rt; short, [0xAA; 7]);
}

#[test]
fn a_table_without_entries_has_a_place_too(rt: HostRuntime) {
    let mut memory = [0xAA; 16];
    let mut image = image();
    put(&mut image, 44, 0);
    put(&mut image, 28, 88);
    assert_eq!(rt; loaded(&image, &mut memory), Some(Err(ElfFault::EMPTY)));
    put(&mut image, 28, 89);
    assert_eq!(rt; loaded(&image, &mut memory), Some(Err(ElfFault::TABLE)));
}
