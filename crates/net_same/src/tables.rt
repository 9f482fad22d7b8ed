//! Which old net each new one was, and back.
ghost use Rattle.std.specs.Prelude.{◌≡◌, ℕ, ◌<◌, true, length, slice_get, slice_set, replicate, IfOk};
ghost use Rattle.net_core.specs.Renaming.{IsTold};
ghost use Rattle.net_same.specs.Nets.{sent, told_back};
ghost use Rattle.net_same.specs.Learning.{IsRight};

use lib_core::Memory;
use std::alloc::Global;

/// For each net of the old module that of the new one, and for each of the new one that of the old one. A
/// number past the other table's end stands where none was met.
#[derive(Debug, Drop)]
pub struct Tables {
    pub forth: Vec<u32>,
    pub back: Vec<u32>,
}

impl Tables {
    /// Tables in which no net was met.
    pub fn new(alloc: Global, olds: u32, news: u32) -> Result<Tables, Memory>
        ensures forth { IfOk result (λ made. made.forth.items ≡ replicate olds u32.MAX) }
        ensures back { IfOk result (λ made. made.back.items ≡ replicate news u32.MAX) }
    {
        Ok(Tables {
            forth: unmet(alloc, olds)?,
            back: unmet(alloc, news)?,
        })
    }

    /// Puts in that an old net became a new one. Nets past the tables are left out.
    pub fn enter(&mut self, old: u32, new: u32)
        ensures forth { self.new.forth.items ≡ slice_set self.old.forth.items old new }
        ensures back { self.new.back.items ≡ slice_set self.old.back.items new old }
    {
        set_at(self.forth.as_mut_slice(), old, new);
        set_at(self.back.as_mut_slice(), new, old);
    }

    /// Whether an old net became this new one.
    pub fn is_sent(&self, old: u32, new: u32) -> bool
        ensures sound { result ≡ true → sent self.now old ≡ new }
        ensures complete { slice_get self.now.forth.items old ≡ Some new → new < length self.now.back.items → result ≡ true }
    {
        let place = old as usize;
        place < self.forth.len() && self.forth[place] == new && (new as usize) < self.back.len()
    }

    /// Whether an old net that became a new one is told by it.
    fn is_told(&self, old: usize) -> bool
        requires { old < length self.now.forth.items }
        ensures sound { result ≡ true → told_back self.now (sent self.now old) ≡ old }
        ensures complete { (f : ℕ → ℕ) → IsRight f self.now → result ≡ true }
    {
        let place = self.forth[old] as usize;
        place >= self.back.len() || self.back[place] as usize == old
    }

    /// Whether each old net that became a new one is told by it.
    pub fn are_told(&self) -> bool
        ensures sound { result ≡ true → IsTold (sent self.now) (told_back self.now) }
        ensures complete { (f : ℕ → ℕ) → IsRight f self.now → result ≡ true }
    {
        for old in 0..self.forth.len() {
            if !self.is_told(old) {
                return false;
            }
        }
        true
    }
}

/// A table of so many nets that were not met.
fn unmet(alloc: Global, count: u32) -> Result<Vec<u32>, Memory>
    ensures { IfOk result (λ table. table.items ≡ replicate count u32.MAX) }
{
    Ok(vec![in alloc; u32::MAX; count as usize]?)
}

/// Puts a number at a place, if there is one.
fn set_at(table: &mut [u32], place: u32, number: u32)
    ensures { table.new ≡ slice_set table.old place number }
{
    let place = place as usize;
    if place < table.len() {
        table[place] = number;
    }
}
