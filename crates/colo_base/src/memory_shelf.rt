//! Files in memory.

ghost use Rattle.std.specs.Prelude.{◌≡◌, ◌↔◌, ◌⊎◌, List, [], ◌∷◌, ◌++◌, ℕ, None, Some, unwrap_or, IsSomeAnd, IsTrue, IsErrOf, OnOk, OnErr};
ghost use Rattle.std.specs.Option.{option_copied};
ghost use Rattle.colo_base.specs.FailurePlan.{empty_plan, plan_failure, count_call, is_next_failing};
ghost use Rattle.colo_base.specs.Shelf.{ChangesOnly};
ghost use Rattle.colo_base.specs.InMemory.{contents_of, counts_of, count_failed_fetch, count_failed_write, fetch_counts, write_counts, plan_of, shelf_state, SetsContents, IsSame};

use crate::failure_plan::FailurePlan;
use crate::{NoMemory, Shelf, ShelfFault};
use std::alloc::Global;
use std::collections::BTreeMap;

/// Files in memory, by name.
#[derive(Drop)]
pub struct MemoryShelf {
    files: BTreeMap<String, Vec<u8>>,
    plan: FailurePlan,
    fetch_faults: u64,
    write_faults: u64,
}

impl MemoryShelf {
    /// A shelf without files, of which no call is to fail.
    pub fn new(alloc: Global) -> MemoryShelf
        ensures files { (name : List ℕ) → contents_of result name ≡ None }
        ensures plan { plan_of result ≡ empty_plan }
        ensures counts { counts_of result ≡ record { fetch_faults = 0; write_faults = 0 } }
    {
        MemoryShelf {
            files: BTreeMap::new(alloc),
            plan: FailurePlan::new(alloc),
            fetch_faults: 0,
            write_faults: 0,
        }
    }

    /// Makes `bytes` the contents of `name`. It counts as no call. After `NoMemory` the shelf is as
    /// it was.
    #[tactic(auto, using(std::proofs::lemmas::Map::Text::text_keys))]
    pub fn set(&mut self, name: &str, bytes: &[u8]) -> Result<(), NoMemory>
        ensures ok { OnOk result (SetsContents self.old self.new name.now bytes.now) }
        ensures err { OnErr result (IsSame self.old self.new) }
    {
        let alloc = self.plan.allocator();
        let key = String::from_str(alloc, name)?;
        let copy = bytes.to_vec(alloc)?;
        self.files.insert(key, copy)?;
        Ok(())
    }

    /// The contents of `name`. `None` exactly where there is no such file.
    pub fn contents(&self, name: &str) -> Option<&[u8]>
        ensures { option_copied result ≡ contents_of self.now name.now }
    {
        let bytes = self.files.get(name)?;
        Some(bytes.as_slice())
    }

    /// The call of the trait with this number fails, and does nothing. The first is 1. After
    /// `NoMemory` the shelf is as it was.
    pub fn fail(&mut self, call: u64) -> Result<(), NoMemory>
        ensures files { (name : List ℕ) → contents_of self.new name ≡ contents_of self.old name }
        ensures ok { OnOk result (plan_of self.new
            ≡ plan_failure (plan_of self.old) call) }
        ensures counts { counts_of self.new ≡ counts_of self.old }
        ensures err { OnErr result (IsSame self.old self.new) }
    {
        self.plan.fail(call)
    }

    /// Counts a failed fetch.
    fn count_failed_fetch(&mut self) -> ShelfFault
        ensures fault { result ≡ ShelfFault.Failed }
        ensures only { ChangesOnly (λ _. ⊥) (shelf_state self.old) (shelf_state self.new) }
        ensures plan { plan_of self.new ≡ plan_of self.old }
        ensures counts { counts_of self.new ≡ count_failed_fetch (counts_of self.old) }
    {
        self.fetch_faults = self.fetch_faults.saturating_add(1);
        ShelfFault::Failed
    }

    /// Counts a failed create or append.
    fn count_failed_write(&mut self) -> ShelfFault
        ensures fault { result ≡ ShelfFault.Failed }
        ensures only { ChangesOnly (λ _. ⊥) (shelf_state self.old) (shelf_state self.new) }
        ensures plan { plan_of self.new ≡ plan_of self.old }
        ensures counts { counts_of self.new ≡ count_failed_write (counts_of self.old) }
    {
        self.write_faults = self.write_faults.saturating_add(1);
        ShelfFault::Failed
    }
}

impl Shelf for MemoryShelf {
    ghost use Rattle.colo_base.specs.InMemory.{shelf_state};

    ghost state = { shelf_state };

    /// Copies the contents. `Failed` exactly where the call was to fail, or there is no such file.
    fn fetch(&mut self, name: &str, into: &mut Vec<u8>) -> Result<(), ShelfFault>
        ensures failed { IsErrOf result ShelfFault.Failed
            ↔ (IsTrue (is_next_failing (plan_of self.old))
            ⊎ (contents_of self.old name.now ≡ None)) }
        ensures bytes { OnOk result (IsSomeAnd (contents_of self.old name.now)
            (λ bytes. into.new.items ≡ into.old.items ++ bytes)) }
        ensures err { OnErr result (into.new.items ≡ into.old.items) }
        ensures only { ChangesOnly (λ _. ⊥) (shelf_state self.old) (shelf_state self.new) }
        ensures plan { plan_of self.new ≡ count_call (plan_of self.old) }
        ensures counts { counts_of self.new ≡ fetch_counts result (counts_of self.old) }
    {
        if self.plan.count_call() {
            return Err(self.count_failed_fetch());
        }
        match self.files.get(name) {
            None => Err(self.count_failed_fetch()),
            Some(bytes) => {
                into.extend_from_slice(bytes.as_slice())?;
                Ok(())
            }
        }
    }

    /// Empties the file. `Failed` exactly where the call was to fail.
    #[tactic(auto, using(std::proofs::lemmas::Map::Text::text_keys))]
    fn create(&mut self, name: &str) -> Result<(), ShelfFault>
        ensures failed { IsErrOf result ShelfFault.Failed
            ↔ IsTrue (is_next_failing (plan_of self.old)) }
        ensures ok { OnOk result (contents_of self.new name.now ≡ Some []) }
        ensures err { OnErr result (contents_of self.new name.now ≡ contents_of self.old name.now) }
        ensures only { ChangesOnly (λ other. other ≡ name.now)
            (shelf_state self.old) (shelf_state self.new) }
        ensures plan { plan_of self.new ≡ count_call (plan_of self.old) }
        ensures counts { counts_of self.new ≡ write_counts result (counts_of self.old) }
    {
        if self.plan.count_call() {
            return Err(self.count_failed_write());
        }
        let alloc = self.plan.allocator();
        let key = String::from_str(alloc, name)?;
        self.files.insert(key, Vec::new(alloc))?;
        Ok(())
    }

    /// Adds the bytes. `Failed` exactly where the call was to fail.
    #[tactic(auto, using(std::proofs::lemmas::Map::Text::text_keys))]
    fn append(&mut self, name: &str, bytes: &[u8]) -> Result<(), ShelfFault>
        ensures failed { IsErrOf result ShelfFault.Failed
            ↔ IsTrue (is_next_failing (plan_of self.old)) }
        ensures ok { OnOk result (contents_of self.new name.now
            ≡ Some (unwrap_or (contents_of self.old name.now) [] ++ bytes.now)) }
        ensures err { OnErr result (contents_of self.new name.now ≡ contents_of self.old name.now) }
        ensures only { ChangesOnly (λ other. other ≡ name.now)
            (shelf_state self.old) (shelf_state self.new) }
        ensures plan { plan_of self.new ≡ count_call (plan_of self.old) }
        ensures counts { counts_of self.new ≡ write_counts result (counts_of self.old) }
    {
        if self.plan.count_call() {
            return Err(self.count_failed_write());
        }
        if let Some(file) = self.files.get_mut(name) {
            file.extend_from_slice(bytes)?;
            return Ok(());
        }
        let alloc = self.plan.allocator();
        let key = String::from_str(alloc, name)?;
        let copy = bytes.to_vec(alloc)?;
        self.files.insert(key, copy)?;
        Ok(())
    }
}
