//! Which places of the table are to be settled.

ghost use Rattle.std.specs.Prelude.{◌≡◌, ℕ, true, false, filter, nat_lt, OnOk, IfOk};
ghost use Rattle.std.specs.List.{range_with_len};
ghost use Rattle.std.specs.List.Sorted.{IsStrictlySortedBy};
ghost use Rattle.std.specs.Ordering.{nat_cmp};
ghost use Rattle.settle_touched.specs.Places.{AreAscending, is_among};
ghost use Rattle.settle_touched.specs.TouchedPlaces.{is_touched, is_stale};

use colo_base::NoMemory;
use std::alloc::Global;
use std::collections::BTreeSet;

/// Places of the table of lines that the next event settles.
#[derive(Drop)]
pub struct Touched {
    pub(crate) places: BTreeSet<usize>,
    pub(crate) all: bool,
}

/// Places that were settled since the last turn, which the next turn settles too.
#[derive(Drop)]
pub struct Stale {
    pub(crate) places: Vec<usize>,
    pub(crate) all: bool,
}

/// The places below a bound, in ascending order.
fn all_below(alloc: Global, bound: usize) -> Result<Vec<usize>, NoMemory>
    ensures { IfOk result (λ places. places.items ≡ range_with_len 0 bound) }
{
    let mut places = Vec::new(alloc);
    for k in 0..bound {
        places.push(k)?;
    }
    Ok(places)
}

/// Takes the places below a bound out, in ascending order.
fn take_below(
    alloc: Global,
    places: &mut BTreeSet<usize>,
    bound: usize,
) -> Result<Vec<usize>, NoMemory>
    ensures taken { IfOk result (λ taken. taken.items
        ≡ filter (λ k. nat_lt k bound) places.old.keys) }
    ensures ordered { IfOk result (λ taken. IsStrictlySortedBy nat_cmp places.old.keys) }
{
    let mut taken = Vec::new(alloc);
    taken.reserve(places.len())?;
    while let Some(place) = places.pop_first() {
        if place < bound {
            taken.push(place)?;
        }
    }
    Ok(taken)
}

impl Touched {
    /// No place is to be settled. It takes no memory.
    pub fn new(alloc: Global) -> Touched
        ensures { (k : ℕ) → is_touched result k ≡ false }
    {
        Touched {
            places: BTreeSet::new(alloc),
            all: false,
        }
    }

    /// A place is to be settled. Where memory runs out, all are.
    pub fn touch(&mut self, place: usize)
        ensures touched { is_touched self.new place ≡ true }
        ensures others { (k : ℕ) → is_touched self.old k ≡ true → is_touched self.new k ≡ true }
    {
        match self.places.insert(place) {
            Ok(_) => {}
            Err(_) => self.all = true,
        }
    }

    /// All places are to be settled. It takes no memory.
    pub fn touch_all(&mut self)
        ensures { (k : ℕ) → is_touched self.new k ≡ true }
    {
        self.all = true;
    }

    /// Stale places are to be settled too.
    fn join(&mut self, stale: &Stale)
        ensures stale { (k : ℕ) → is_stale stale.now k ≡ true → is_touched self.new k ≡ true }
        ensures others { (k : ℕ) → is_touched self.old k ≡ true → is_touched self.new k ≡ true }
    {
        if stale.all {
            self.all = true;
        }
        self.touch_each(stale.places.as_slice());
    }

    fn touch_each(&mut self, places: &[usize])
        ensures touched { (k : ℕ) → is_among k places.now ≡ true → is_touched self.new k ≡ true }
        ensures others { (k : ℕ) → is_touched self.old k ≡ true → is_touched self.new k ≡ true }
    {
        for place in places {
            self.touch(*place);
        }
    }

    /// The places below a bound that are to be settled, in ascending order.
    fn take(&mut self, alloc: Global, bound: usize) -> Result<Vec<usize>, NoMemory>
        ensures ascending { IfOk result (λ places. AreAscending 0 bound places.items) }
        ensures each { IfOk result (λ places. (k : ℕ) → nat_lt k bound ≡ true →
            is_among k places.items ≡ is_touched self.old k) }
    {
        if self.all {
            all_below(alloc, bound)
        } else {
            take_below(alloc, &mut self.places, bound)
        }
    }

    /// The places below a bound that an event settles, in ascending order: those that were touched,
    /// and in a turn the stale ones too.
    pub(crate) fn take_for(
        &mut self,
        alloc: Global,
        stale: &Stale,
        is_turn: bool,
        bound: usize,
    ) -> Result<Vec<usize>, NoMemory>
        ensures ascending { IfOk result (λ places. AreAscending 0 bound places.items) }
        ensures each { IfOk result (λ places. (k : ℕ) → nat_lt k bound ≡ true →
            is_among k places.items ≡ false → is_touched self.old k ≡ false) }
        ensures stale { IfOk result (λ places. is_turn ≡ true → (k : ℕ) → nat_lt k bound ≡ true →
            is_among k places.items ≡ false → is_stale stale.now k ≡ false) }
    {
        if is_turn {
            self.join(stale);
            return self.take(alloc, bound);
        }
        self.take(alloc, bound)
    }

    /// No place is to be settled any longer. It takes no memory.
    pub(crate) fn clear(&mut self)
        ensures { (k : ℕ) → is_touched self.new k ≡ false }
    {
        self.places.clear();
        self.all = false;
    }
}

impl Stale {
    /// No place is stale. It takes no memory.
    pub fn new(alloc: Global) -> Stale
        ensures { (k : ℕ) → is_stale result k ≡ false }
    {
        Stale {
            places: Vec::new(alloc),
            all: false,
        }
    }

    /// Notes that some places were settled in an event: after a turn none is stale.
    pub(crate) fn note(&mut self, is_turn: bool, places: &[usize]) -> Result<(), NoMemory>
        ensures settled { OnOk result (is_turn ≡ false → (k : ℕ) → is_among k places.now ≡ true →
            is_stale self.new k ≡ true) }
        ensures others { OnOk result (is_turn ≡ false → (k : ℕ) → is_stale self.old k ≡ true →
            is_stale self.new k ≡ true) }
    {
        if is_turn {
            self.places.clear();
            self.all = false;
            return Ok(());
        }
        self.places.extend_from_slice(places)?;
        Ok(())
    }
}
