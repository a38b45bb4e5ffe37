//! Why a machine can't start.

use elf_load::ElfFault;

/// Why a machine can't start from an image.
#[derive(Clone, Copy, Debug, PartialEq, Eq)]
pub enum BootFault {
    /// The loader refuses the image.
    Elf(ElfFault),
    /// An allocation was refused.
    NoMemory,
}
