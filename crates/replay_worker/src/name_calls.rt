ghost use Rattle.std.specs.Prelude.{◌≡◌, ◌<◌, ◌^◌, ℕ, Bool, Option, IsTrue, IfOk, IfErr, IfSome, OnOk, is_some, false, []};
ghost use Rattle.smr_clock.specs.Belongs.{clock_id, holder, setup_of, view};
ghost use Rattle.smr_clock.specs.Sections.{Misses};
ghost use Rattle.smr_core.specs.declared.holder.Phase.{Phase};
ghost use Rattle.trace_text.specs.Valid.{IsValid};
ghost use Rattle.uma_bucket.specs.Sums.{Adds, AreOfAtMost, Balance, nothing_held};
ghost use Rattle.uma_keg.specs.Census.{census_counts};
ghost use Rattle.zone_stats.specs.LedgerSteps.{HasRoom, IsNew};
ghost use Rattle.uma_zone.specs.Calling.{IsBy};
ghost use Rattle.replay_worker.specs.Calling.{KnowsOn};
ghost use Rattle.replay_worker.specs.Clocks.{ArePasses, IsClockOf};
ghost use Rattle.replay_worker.specs.Knowing.{Finds, Loads};
ghost use Rattle.replay_worker.specs.NameCalls.{Bound, CountedBind, CountedUnbind, MovesEntries, Unbound};
ghost use Rattle.replay_worker.specs.NameLedger.{HasRoomToBind};
ghost use Rattle.replay_worker.specs.NameSizes.{sizes_for};
ghost use Rattle.replay_worker.specs.NameSums.{HasLinked};

use crate::Memory;
use smr_clock::{Clock, Host, Overtaken, Pass};
use std::alloc::Global;
use std::sync::Wait;
use trace_text::Trace;
use uma_bucket::Sums;
use uma_keg::Census;
use zone_stats::SeatLedger;

/// The calls behind the lines of names, so that a replay doesn't stand on the crate that keeps them.
///
/// An implementation serves names or not. One that serves none is for traces without a `names` line: it makes no more than a
/// clock and its passes, and answers as a cache in which no key is ever bound.
pub trait NameCalls {
    type H: Host + Send + Sync;

    type Cache: Sync + Drop;

    type Seat: Send + Drop;

    ghost use Rattle.std.specs.Prelude.{◌≡◌, ℕ, Bool, List, Option, is_some};
    ghost use Rattle.smr_clock.specs.Belongs.{TableId};
    ghost use Rattle.smr_clock.specs.declared.clock.Setup.{Setup};
    ghost use Rattle.smr_clock.specs.declared.view.View.{View};
    ghost use Rattle.trace_text.specs.declared.trace.Head.{Head};
    ghost use Rattle.uma_keg.specs.declared.census.Census.{Census};
    ghost use Rattle.uma_life.specs.declared.states.Ticket.{Ticket};
    ghost use Rattle.uma_life.specs.Hook.{Hook};
    ghost use Rattle.zone_stats.specs.declared.ledger.SeatLedger.{SeatLedger};
    ghost use Rattle.zone_stats.specs.declared.refusal.Refusal.{Refusal};
    ghost use Rattle.replay_worker.specs.Knowing.{Told};
    ghost use Rattle.replay_worker.specs.NameSizes.{NameSizes};

    // Whether it serves names.
    ghost serves: { Bool };

    // The clock by which the readers of a cache go.
    ghost clock_of: { Self.Cache → TableId × Setup };

    ghost sizes_of: { Self.Cache → NameSizes };

    // The seat is one of the cache's zone of entries.
    ghost IsSeat: { Self.Cache → Self.Seat → Type 0 };

    // The seat's memory domain, where names are served.
    ghost domain_of: { Self.Seat → ℕ };

    // What the seat counted, where names are served.
    ghost counted: { Self.Seat → Option SeatLedger };

    // The entries that a bind can have of the seat, by their tickets.
    ghost usable: { Self.Seat → List Ticket };

    // These entries came to a seat by one call: by one fetch from the keg, or out of a bucket of freed entries that waited
    // until no section may see them.
    ghost Came: { Self.Cache → List Ticket → Type 0 };

    // One fetch from the keg was refused so, by the numbers that it found under the keg's lock.
    ghost IsFound: { Self.Cache → Refusal → Type 0 };

    // A bind of the key got an entry that the key's row didn't take: a section may still read the entry, or the row has had
    // as many names as it can have.
    ghost TurnsBack: { Self.Cache → ℕ → View Self.H.Part → Self.Seat → View Self.H.Part → Self.Seat → Type 0 };

    // The census is of the cache's keg.
    ghost IsCensus: { Self.Cache → Census → Type 0 };

    // How often the entries that the seat holds passed each hook, and how many of them are deferred.
    ghost passed: { Self.Seat → Hook → ℕ };

    ghost deferred: { Self.Seat → ℕ };

    // What the host of the clock of a trace plans for it.
    ghost plans: { Head → ℕ × ℕ };

    // The pass knows the record of this row and version, which binds this key to this value, or nothing.
    ghost knows: { View Self.H.Part → ℕ → ℕ → Option (ℕ × ℕ) → Type 0 };

    // The records that the pass loaded or was told of, one in front of the other.
    ghost told: { View Self.H.Part → List Told };

    ghost counts_where_served: { (seat : Self.Seat) → is_some (counted seat) ≡ serves };

    /// The cache, the clock and the passes of a trace, which has a `names` line exactly where names are served.
    fn set_up(
        &self,
        alloc: Global,
        trace: &Trace,
    ) -> Result<(Self::Cache, Clock<Self::H>, Vec<Pass<Self::H>>), Memory>
        requires valid { IsValid trace.now }
        requires serves { serves ≡ is_some trace.now.head.names }
        ensures clock { IfOk result (λ (cache, clock, passes). IsClockOf trace.now.head clock) }
        ensures plan { IfOk result (λ (cache, clock, passes). (setup_of clock).plan ≡ plans trace.now.head) }
        ensures passes { IfOk result (λ (cache, clock, passes). ArePasses trace.now.head.workers clock passes.items) }
        ensures of_clock { IfOk result (λ (cache, clock, passes). IsTrue serves → clock_of cache ≡ clock_id clock) }
        ensures sizes { IfOk result (λ (cache, clock, passes). IfSome trace.now.head.names (λ line. sizes_of cache ≡ sizes_for trace.now.head line)) };

    /// A new seat in a memory domain, for one worker. Waits until it has the locks of the keg and of that domain.
    fn seat<R: Wait>(
        &self,
        cache: &Self::Cache,
        rt: &R,
        alloc: Global,
        domain: u8,
    ) -> Result<Self::Seat, Memory>
        requires domain { IsTrue serves → domain < (sizes_of cache.now).domains }
        ensures seat { IfOk result (IsSeat cache.now) }
        ensures own { IfOk result (λ seat. IsTrue serves → domain_of seat ≡ domain) }
        ensures fresh { IfOk result (λ seat. IfSome (counted seat) IsNew) }
        ensures unused { IfOk result (λ seat. usable seat ≡ []) };

    /// Binds a key to a value. False where its one fetch was refused an entry, or the row didn't take the one that it got,
    /// each with its cause. Waits for the locks of the key's row and of the zone.
    ///
    /// After `Memory` the replay is over.
    fn bind<R: Wait>(
        &self,
        cache: &Self::Cache,
        rt: &R,
        alloc: Global,
        clock: &Clock<Self::H>,
        pass: &mut Pass<Self::H>,
        seat: &mut Self::Seat,
        key: u64,
        value: u64,
    ) -> Result<bool, Memory>
        requires by { IsBy (clock_of cache.now) clock.now pass.old }
        requires seat { IsSeat cache.now seat.old }
        requires room { IfSome (counted seat.old) HasRoomToBind }
        ensures seat { IsSeat cache.now seat.new }
        ensures domain { domain_of seat.new ≡ domain_of seat.old }
        ensures passes { KnowsOn knows clock.now pass.old pass.new }
        ensures binds { IfOk result (λ done. Bound knows (sizes_of cache.now).rows key value (view pass.old) done (view pass.new)) }
        ensures counts { IfOk result (λ done. CountedBind (sizes_of cache.now).slabs (IsFound cache.now) (TurnsBack cache.now key (view pass.old) seat.old (view pass.new) seat.new) done (counted seat.old) (counted seat.new)) }
        ensures moves { OnOk result (MovesEntries (Came cache.now) (usable seat.old) (usable seat.new)) };

    /// Takes a key out. True where its row bound it. Waits for the locks of the key's row and of the zone.
    ///
    /// After `Memory` the replay is over.
    fn unbind<R: Wait>(
        &self,
        cache: &Self::Cache,
        rt: &R,
        alloc: Global,
        clock: &Clock<Self::H>,
        pass: &mut Pass<Self::H>,
        seat: &mut Self::Seat,
        key: u64,
    ) -> Result<bool, Memory>
        requires by { IsBy (clock_of cache.now) clock.now pass.old }
        requires seat { IsSeat cache.now seat.old }
        requires room { IfSome (counted seat.old) HasRoom }
        ensures seat { IsSeat cache.now seat.new }
        ensures domain { domain_of seat.new ≡ domain_of seat.old }
        ensures passes { KnowsOn knows clock.now pass.old pass.new }
        ensures unbinds { IfOk result (λ done. Unbound knows (sizes_of cache.now).rows key (view pass.old) done (view pass.new)) }
        ensures counts { IfOk result (λ done. CountedUnbind done (counted seat.old) (counted seat.new)) }
        ensures usable { OnOk result (usable seat.new ≡ usable seat.old) };

    /// The value that the key's row binds to the key, looked up in the section in which the pass is. Takes no memory and
    /// waits for nobody.
    fn find(
        &self,
        cache: &Self::Cache,
        clock: &Clock<Self::H>,
        pass: &mut Pass<Self::H>,
        key: u64,
    ) -> Option<u64>
        requires by { IsBy (clock_of cache.now) clock.now pass.old }
        requires inside { (holder pass.old).phase ≡ Phase.Inside }
        ensures passes { KnowsOn knows clock.now pass.old pass.new }
        ensures finds { Finds knows (sizes_of cache.now).rows key (view pass.old) result (view pass.new) }
        ensures loads { IsTrue serves → Loads knows told (sizes_of cache.now).rows key (view pass.old) result (view pass.new) };

    /// The value that the key's row binds to the key, looked up in a section of its own. Takes no memory and waits for
    /// nobody.
    ///
    /// # Errors
    ///
    /// `Overtaken` where the clock went on by its window while the pass entered: nothing was looked up.
    fn look(
        &self,
        cache: &Self::Cache,
        clock: &Clock<Self::H>,
        pass: &mut Pass<Self::H>,
        key: u64,
    ) -> Result<Option<u64>, Overtaken>
        requires by { IsBy (clock_of cache.now) clock.now pass.old }
        requires outside { (holder pass.old).phase ≡ Phase.Outside }
        ensures passes { KnowsOn knows clock.now pass.old pass.new }
        ensures finds { IfOk result (λ found. Finds knows (sizes_of cache.now).rows key (view pass.old) found (view pass.new)) }
        ensures loads { IsTrue serves → IfOk result (λ found. Loads knows told (sizes_of cache.now).rows key (view pass.old) found (view pass.new)) }
        ensures late { IfErr result (λ late. Misses (view pass.old) late (view pass.new)) };

    /// What a seat counted. None exactly where no names are served.
    fn ledger(seat: &Self::Seat) -> Option<SeatLedger>
        ensures { result ≡ counted seat.now };

    /// How often the entries that a seat holds passed each hook, and how many of them are deferred. All zeros where no
    /// names are served.
    fn seat_sums(seat: &Self::Seat) -> Sums
        ensures adds { Adds (passed seat.now) (deferred seat.now) nothing_held result }
        ensures few { AreOfAtMost 704 result }
        ensures balance { (cache : Self.Cache) → IsSeat cache seat.now → Balance 0 result }
        ensures none { serves ≡ false → result ≡ nothing_held };

    /// The census of the keg of entries, lent no item. Waits until it has the keg's lock.
    fn census<R: Wait>(&self, cache: &Self::Cache, rt: &R, alloc: Global) -> Result<Census, Memory>
        ensures cap { IfOk result (λ census. (census_counts census).cap ≡ (sizes_of cache.now).slabs) }
        ensures own { IfOk result (IsCensus cache.now) }
        ensures reserve { IfOk result (λ census. (census_counts census).reserve ≡ 0) }
        ensures per_slab { IfOk result (λ census. (census_counts census).per_slab ≡ 64) };

    /// How often the entries that the domains have in lists and inboxes and the rows link passed each hook, and how many are
    /// freed. Waits until it has the lock of each domain and of each row.
    fn sums<R: Wait>(&self, cache: &Self::Cache, rt: &R) -> Result<Sums, Memory>
        ensures few { IfOk result (AreOfAtMost (2 ^ 35)) }
        ensures linked { IfOk result (HasLinked (sizes_of cache.now).rows) };
}
