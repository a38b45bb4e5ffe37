//! A number of 64 bits as two words of 32 bits.

ghost use Rattle.std.specs.Prelude.{◌≡◌};
ghost use Rattle.shared_definitions.specs.Halves.{low_half, high_half, with_low_half, with_high_half};

/// The word of the lower 32 bits.
pub fn low_half(number: u64) -> u32
    ensures { result ≡ low_half number }
{
    (number % 0x1_0000_0000) as u32
}

/// The word of the upper 32 bits.
pub fn high_half(number: u64) -> u32
    ensures { result ≡ high_half number }
{
    (number >> 32) as u32
}

/// The number with another lower word.
pub fn with_low_half(number: u64, word: u32) -> u64
    ensures { result ≡ with_low_half number word }
{
    (number >> 32 << 32) + u64::from(word)
}

/// The number with another upper word.
pub fn with_high_half(number: u64, word: u32) -> u64
    ensures { result ≡ with_high_half number word }
{
    (u64::from(word) << 32) + number % 0x1_0000_0000
}
