//! What a hart loads from and stores to.

ghost use Rattle.std.specs.Prelude.{◌≡◌, ◌⊎◌, ℕ, true, false, Some, IsSome, IfOk, OnOk, IsErr};
ghost use Rattle.rv_core.specs.Acts.{Acts};

use colo_base::NoMemory;

/// The memory and the devices that a hart reaches. A bus means a state: what its calls answer, and
/// what `store` leaves, are functions of that state and of the call's arguments, its `acts`.
pub trait Bus {
    ghost acts: { Acts Self };

    /// The word at `addr`, where an instruction can be fetched there.
    fn fetch(&mut self, addr: u32) -> Option<u32>
        ensures value { result ≡ acts.fetched self.old addr }
        ensures same { self.new ≡ self.old };

    /// The `width` bytes from `addr` on as a number, little-endian, where they can be loaded.
    /// `width` is 1, 2 or 4.
    fn load(&mut self, addr: u32, width: u32) -> Option<u32>
        requires { (width ≡ 1) ⊎ ((width ≡ 2) ⊎ (width ≡ 4)) }
        ensures value { result ≡ acts.loaded self.old addr width }
        ensures same { self.new ≡ self.old };

    /// Stores the lowest `width` bytes of `value` from `addr` on, little-endian. `false` where they
    /// can't be stored, and nothing changes then. `width` is 1, 2 or 4. After `NoMemory` nothing is
    /// stated of the bus.
    fn store(&mut self, addr: u32, width: u32, value: u32) -> Result<bool, NoMemory>
        requires { (width ≡ 1) ⊎ ((width ≡ 2) ⊎ (width ≡ 4)) }
        ensures taken { IfOk result (λ taken. taken ≡ acts.stores self.old addr width value) }
        ensures after { OnOk result (self.new ≡ acts.stored self.old addr width value) }
        ensures memory { IsErr result → acts.wants self.old addr width value ≡ true };

    // a store that is refused changes nothing
    ghost refused: { (s : Self) (a w v : ℕ)
        → acts.stores s a w v ≡ false → acts.stored s a w v ≡ s };

    // where a word can be fetched, a word can be stored
    ghost ram: { (s : Self) (a v : ℕ) → IsSome (acts.fetched s a) → acts.stores s a 4 v ≡ true };

    // and a load gives the word that a fetch gives
    ghost same_word: { (s : Self) (a v : ℕ)
        → acts.fetched s a ≡ Some v → acts.loaded s a 4 ≡ Some v };
}
