ghost use Rattle.std.specs.Prelude.{◌≤◌, ◌+◌, ◌^◌, ℕ, IfOk, IfErr};
ghost use Rattle.uma_bucket.specs.Sums.{AreOfAtMost};
ghost use Rattle.smr_clock.specs.Belongs.{view};
ghost use Rattle.smr_clock.specs.Sections.{Misses};
ghost use Rattle.name_cache.specs.Cache.{row_count};
ghost use Rattle.name_cache.specs.Frames.{CanLook, StaysOutside};
ghost use Rattle.name_cache.specs.Look.{Looks};
ghost use Rattle.name_cache.specs.Made.{IsCensusOf};
ghost use Rattle.name_cache.specs.Sums.{HasLinked, CanAddRow};

use crate::cache::NameCache;
use crate::locked_row::RowLock;
use name_rows::{Names, find};
use smr_clock::{Clock, Overtaken, Pass};
use std::alloc::Global;
use std::sync::Wait;
use uma_bucket::Sums;
use uma_keg::Census;
use uma_life::{Lives, Memory};

impl NameCache {
    /// Returns the value that the key's row binds to the key, or None. It looks the key up by `find`, in a section of
    /// its own. The pass must be outside.
    ///
    /// # Arguments
    ///
    /// - `key`: the key, any number.
    ///
    /// # Errors
    ///
    /// `Overtaken`: the clock advanced by its window while the pass entered. Nothing was looked up.
    pub fn look(
        &self,
        clock: &Clock<Names>,
        pass: &mut Pass<Names>,
        key: u64,
    ) -> Result<Option<u64>, Overtaken>
        requires { CanLook self.now clock.now pass.old }
        ensures looked { IfOk result (λ found. Looks key (view pass.old) found (view pass.new)) }
        ensures late { IfErr result (λ late. Misses (view pass.old) late (view pass.new)) }
        ensures pass { StaysOutside clock.now pass.old pass.new }
    {
        clock.enter(pass)?;
        let found = find(clock, pass, key);
        clock.exit(pass);
        Ok(found)
    }

    /// Returns how often the items in the lists and inboxes of the zone's domains, and the linked entries, have passed
    /// each hook, and how many items are deferred. In the zone the ctors exceed the dtors by the deferred items and the
    /// linked entries, at most one for each row. It blocks on the lock of each domain and of each row.
    ///
    /// # Errors
    ///
    /// `Memory`: out of memory for a settle of the domains.
    pub fn sums<R: Wait>(&self, rt: &R) -> Result<Sums, Memory>
        ensures few { IfOk result (AreOfAtMost (2 ^ 35)) }
        ensures linked { IfOk result (λ sums. (linked : ℕ) × (linked ≤ row_count self.now) × HasLinked linked sums) }
    {
        let mut sums = self.zone.sums(rt)?;
        for row in &self.rows {
            add_row(rt, row, &mut sums);
        }
        Ok(sums)
    }

    /// Takes the census of the zone's keg at one moment, with no item lent. It blocks on the keg's lock.
    ///
    /// # Errors
    ///
    /// `Memory`: out of memory.
    pub fn census<R: Wait>(&self, rt: &R, alloc: Global) -> Result<Census, Memory>
        ensures { IfOk result (IsCensusOf self.now) }
    {
        match self
            .zone
            .census(rt, alloc, Lives::from_vec(Vec::new(alloc)))
        {
            Ok((census, _lives)) => Ok(census),
            Err(_lives) => Err(Memory),
        }
    }
}

// Adds the tally of a row's entry, if it has one.
fn add_row<R: Wait>(rt: &R, row: &RowLock, sums: &mut Sums)
    requires { CanAddRow row.now sums.old }
    ensures few { (count : ℕ) → AreOfAtMost count sums.old → AreOfAtMost (count + 1) sums.new }
    ensures linked { (linked : ℕ) → HasLinked linked sums.old → (more : ℕ) × (more ≤ 1) × HasLinked (linked + more) sums.new }
{
    let guard = row.lock(rt);
    guard.value.add_to(sums);
}
