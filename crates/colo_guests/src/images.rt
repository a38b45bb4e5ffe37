//! An image by its name, as an ELF file.

ghost use Rattle.std.specs.Prelude.{◌≡◌, ◌≤◌, ◌<◌, ◌^◌, ◌+◌, ◌*◌, ℕ, ◌++◌, None, length};
ghost use Rattle.std.specs.Prelude.{OnOk, IfOk, IfSome, option_map, is_some};
ghost use Rattle.std.specs.Int.{w32, to_le_bytes};
ghost use Rattle.std.specs.List.{flat_map};
ghost use Rattle.std.specs.Option.{option_copied};
ghost use Rattle.elf_load.specs.Boot.{elf_case};
ghost use Rattle.colo_guests.specs.Images.{elf_file, words_of, image};

use crate::words::{CLOCKED, DISK_LOG, ECHO, MUTE};
use colo_base::NoMemory;
use std::alloc::{AllocError, Global};

/// The file header, and the program header up to the segment's sizes.
const HEAD: [u8; 68] = [
    0x7F, 0x45, 0x4C, 0x46, 1, 1, 1, 0, 0, 0, 0, 0, 0, 0, 0, 0, 2, 0, 243, 0, 1, 0, 0, 0, 0, 0, 0,
    0x80, 52, 0, 0, 0, 0, 0, 0, 0, 0, 0, 0, 0, 52, 0, 32, 0, 1, 0, 0, 0, 0, 0, 0, 0, 1, 0, 0, 0,
    84, 0, 0, 0, 0, 0, 0, 0x80, 0, 0, 0, 0x80,
];

/// The rest of the program header: read, written and executed, in units of 4 bytes.
const FLAGS: [u8; 8] = [7, 0, 0, 0, 4, 0, 0, 0];

/// Appends the words, each little-endian.
fn push_words(bytes: &mut Vec<u8>, words: &[u32]) -> Result<(), AllocError>
    ensures { OnOk result (bytes.new.items
        ≡ bytes.old.items ++ flat_map (to_le_bytes w32) words.now) }
{
    for word in words {
        bytes.extend_from_slice(&word.to_le_bytes())?;
    }
    Ok(())
}

/// The file of a segment with these words.
fn elf_of(alloc: Global, words: &[u32]) -> Result<Vec<u8>, NoMemory>
    requires { length words.now < 16384 }
    ensures { IfOk result (λ bytes. bytes.items ≡ elf_file words.now) }
{
    let size = (4 * words.len() as u32).to_le_bytes();
    let mut bytes = Vec::from_slice(alloc, &HEAD)?;
    bytes.extend_from_slice(&size)?;
    bytes.extend_from_slice(&size)?;
    bytes.extend_from_slice(&FLAGS)?;
    push_words(&mut bytes, words)?;
    Ok(bytes)
}

/// The words of the guest with this name.
#[tactic(auto, unfolding(crate::specs::Images::words_of))]
fn words_of(name: &str) -> Option<&'static [u32]>
    ensures words { option_copied result ≡ words_of name.now }
    ensures some { IfSome result (λ words. 0 < length words.now) }
    ensures small { IfSome result (λ words. length words.now < 16384) }
{
    if name == "mute" {
        Some(&MUTE)
    } else if name == "echo" {
        Some(&ECHO)
    } else if name == "clocked" {
        Some(&CLOCKED)
    } else if name == "disk_log" {
        Some(&DISK_LOG)
    } else {
        None
    }
}

/// Whether there is a guest with this name.
pub fn has_image(name: &str) -> bool
    ensures { result ≡ is_some (image name.now) }
{
    words_of(name).is_some()
}

/// The image of the guest with this name, `mute`, `echo`, `clocked` or `disk_log`; `None` for any
/// other name. It is an ELF file of one segment at 0x80000000, which any memory of 1 MiB or more
/// takes.
pub fn image(alloc: Global, name: &str) -> Result<Option<Vec<u8>>, NoMemory>
    ensures file { IfOk result (λ o. option_map (λ bytes. bytes.items) o ≡ image name.now) }
    ensures loads { IfOk result (λ o. IfSome o
        (λ bytes. (size : ℕ) → 2 ^ 20 ≤ size → elf_case size bytes.items ≡ None)) }
    ensures small { IfOk result (λ o. IfSome o
        (λ bytes. length bytes.items < 84 + 4 * 16384)) }
{
    match words_of(name) {
        None => Ok(None),
        Some(words) => {
            let bytes = elf_of(alloc, words)?;
            Ok(Some(bytes))
        }
    }
}
