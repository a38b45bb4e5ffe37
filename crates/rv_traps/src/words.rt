//! Words of bits: one bit, and what `mstatus`, `mie`, `mtvec` and `mepc` hold of a word that is
//! written.

ghost use Rattle.std.specs.Prelude.{◌≡◌, ◌<◌, ◌^◌, ◌%◌, false};
ghost use Rattle.rv_traps.specs.CsrState.{is_set, mstatus_with, mstatus_of, mie_of, mtvec_of, mepc_of};

/// Bit `k` of `word`.
pub fn is_set(k: u32, word: u32) -> bool
    requires { k < 32 }
    ensures { result ≡ is_set k word }
{
    word >> k & 1 == 1
}

/// `mstatus` with these MIE and MPIE.
pub fn mstatus_with(enabled: bool, previous: bool) -> u32
    ensures { result ≡ mstatus_with enabled previous }
{
    let low = if enabled { 0x8 } else { 0 };
    let high = if previous { 0x80 } else { 0 };
    0x1800 + low + high
}

/// What `mstatus` holds of `word`.
pub fn mstatus_of(word: u32) -> u32
    ensures { result ≡ mstatus_of word }
{
    mstatus_with(is_set(3, word), is_set(7, word))
}

/// What `mie` holds of `word`.
#[tactic(auto, using(crate::proofs::MaskLemmas::mie_of_twice))]
pub fn mie_of(word: u32) -> u32
    ensures value { result ≡ mie_of word }
    ensures legal { mie_of result ≡ result }
{
    word & 0x888
}

/// What `mtvec` holds of `word`.
#[tactic(auto, using(crate::proofs::MaskLemmas::is_set_mtvec_of))]
pub fn mtvec_of(word: u32) -> u32
    ensures value { result ≡ mtvec_of word }
    ensures legal { is_set 1 result ≡ false }
    ensures small { result < 2 ^ 32 }
{
    word & 0xFFFF_FFFD
}

/// What `mepc` holds of `word`.
pub fn mepc_of(word: u32) -> u32
    ensures value { result ≡ mepc_of word }
    ensures legal { result % 4 ≡ 0 }
{
    word / 4 * 4
}
