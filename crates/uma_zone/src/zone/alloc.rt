ghost use Rattle.std.specs.Prelude.{◌≡◌, ℕ, IfOk, IfErr, OnOk, OnErr, Err};
ghost use Rattle.smr_clock.specs.Belongs.{view};

use crate::zone::Zone;
use smr_clock::{Clock, Host, Pass};
use std::alloc::Global;
use std::error::Error;
use std::fmt;
use std::sync::Wait;
use uma_keg::{FetchAsk, FetchRefused, KegCounts};
use uma_life::{Body, Cached, Hooks, Live};
use uma_seat::SeatCache;
use zone_stats::Refusal;

/// What a request asks for.
#[derive(Clone, Copy, Debug, PartialEq, Eq)]
pub struct AllocAsk {
    /// The argument of `ctor`.
    pub arg: u64,
    /// Whether it may use the keg's reserve.
    pub reserve: bool,
}

/// Why a request got no item.
#[derive(Clone, Copy, Debug, PartialEq, Eq)]
pub enum AllocRefused {
    /// What its one fetch found under the keg's lock, or what `ctor` answered. The seat's ledger counts it and keeps it.
    Refused { refusal: Refusal },
    /// Memory is wanting. It is counted nowhere.
    Memory,
}

impl fmt::Display for AllocRefused {
    fn fmt<W: fmt::Write>(&self, f: &mut fmt::Formatter<W>) -> fmt::Result {
        match self {
            AllocRefused::Refused { refusal } => write!(f, "{refusal}"),
            AllocRefused::Memory => write!(f, "out of memory"),
        }
    }
}

impl Error for AllocRefused {}

impl<T: Body + Drop, K: Hooks<T>, H: Host> Zone<T, K, H> {
    ghost use Rattle.uma_zone.specs.Asking.{CanAlloc, CanFill};
    ghost use Rattle.uma_zone.specs.Alloc.{AllocIsRefused, IsFilled, RefusesToTake};
    ghost use Rattle.uma_zone.specs.Allocating.{ServesAtHome, TakesAtHome, FlushesIfEmpty, FlushesToFill, KeepsInRequest, KeepsInFill};

    /// Allocates an item and runs `ctor` on it with `ask.arg`.
    ///
    /// It takes the item that was put last on the seat. If no item is usable there, it flushes the seat, settles the
    /// inbox of the seat's own domain, and looks once at the lists of that domain. If these have no bucket for it, one
    /// fetch takes up to a bucket of items from the keg. Only a seat without a usable item makes the call block, on the
    /// locks of the domain and of the keg.
    ///
    /// An SMR zone takes a listed bucket only if it is ripe. Deferred items stay deferred. The seat's ledger must have
    /// room for the request.
    ///
    /// # Arguments
    ///
    /// - `ask`: the argument of `ctor`, any number, and whether the request may use the keg's reserve.
    ///
    /// # Errors
    ///
    /// - `AtLimit`, `Reserved`, `Full`, `Init`: the fetch found this under the keg's lock. The seat counts it, and its
    ///   ledger keeps it.
    /// - `Ctor`: `ctor` refused the item, which is the next usable one of the seat again. It is counted and kept too.
    /// - `Memory`: out of memory. It is counted nowhere, and no item is lost (tested). The pass has absorbed no note,
    ///   so no bucket of freed items was opened.
    #[inline(always)]
    pub fn alloc<R: Wait>(
        &self,
        rt: &R,
        alloc: Global,
        clock: &Clock<H>,
        pass: &mut Pass<H>,
        seat: &mut SeatCache<T, H>,
        ask: AllocAsk,
    ) -> Result<Live<T>, AllocRefused>
        requires { CanAlloc self.now clock.now pass.old seat.old }
        ensures served { IfOk result (ServesAtHome self.now ask seat.old seat.new) }
        ensures refused { IfErr result (AllocIsRefused self.now ask seat.old seat.new) }
        ensures flushes { FlushesIfEmpty self.now H.copied (view pass.old) seat.old result seat.new (view pass.new) }
        ensures unheard { result ≡ Err AllocRefused.Memory → (view pass.new).host ≡ (view pass.old).host }
        ensures kept { KeepsInRequest self.now H.merged clock.now pass.old pass.new seat.old seat.new }
    {
        let item = self.take(rt, alloc, clock, pass, seat, ask.reserve)?;
        self.build(seat, item, ask.arg)
    }

    // Takes an item from the seat, which is filled first where none is usable.
    #[inline(always)]
    fn take<R: Wait>(
        &self,
        rt: &R,
        alloc: Global,
        clock: &Clock<H>,
        pass: &mut Pass<H>,
        seat: &mut SeatCache<T, H>,
        reserve: bool,
    ) -> Result<Cached<T>, AllocRefused>
        requires { CanAlloc self.now clock.now pass.old seat.old }
        ensures taken { IfOk result (TakesAtHome self.now reserve seat.old seat.new) }
        ensures refused { IfErr result (RefusesToTake self.now reserve seat.old seat.new) }
        ensures flushes { FlushesIfEmpty self.now H.copied (view pass.old) seat.old result seat.new (view pass.new) }
        ensures unheard { OnErr result ((view pass.new).host ≡ (view pass.old).host) }
        ensures kept { KeepsInRequest self.now H.merged clock.now pass.old pass.new seat.old seat.new }
    {
        if let Some(item) = seat.try_alloc() {
            return Ok(item);
        }
        self.fill(rt, alloc, clock, pass, seat, reserve)?;
        match seat.try_alloc() {
            Some(item) => Ok(item),
            None => unreachable!(),
        }
    }

    // Flushes a seat without a usable item, settles its domain, and gets it some: from the lists of its domain, or else from the keg.
    #[cold]
    #[inline(never)]
    fn fill<R: Wait>(
        &self,
        rt: &R,
        alloc: Global,
        clock: &Clock<H>,
        pass: &mut Pass<H>,
        seat: &mut SeatCache<T, H>,
        reserve: bool,
    ) -> Result<(), AllocRefused>
        requires { CanFill self.now clock.now pass.old seat.old }
        ensures filled { OnOk result (IsFilled self.now reserve seat.old seat.new) }
        ensures refused { IfErr result (RefusesToTake self.now reserve seat.old seat.new) }
        ensures flushes { FlushesToFill self.now H.copied (view pass.old) seat.old result seat.new }
        ensures unheard { OnErr result ((view pass.new).host ≡ (view pass.old).host) }
        ensures kept { KeepsInFill self.now H.merged clock.now pass.old pass.new seat.old seat.new }
    {
        let Ok(()) = self.domains.flush_to_look(rt, clock, pass, seat) else {
            return Err(AllocRefused::Memory);
        };
        if self.domains.look(rt, clock, pass, &self.hooks, seat) {
            return Ok(());
        }
        self.fetch(rt, alloc, seat, reserve)
    }
}

impl<T: Body, K: Hooks<T>, H: Host> Zone<T, K, H> {
    ghost use Rattle.uma_zone.specs.Asking.{CanBuild, CanFetch, CanPrealloc, CanFree, CanFreeSmr};
    ghost use Rattle.uma_zone.specs.Alloc.{PutsBack};
    ghost use Rattle.uma_zone.specs.Allocating.{BuildsAtHome, KeepsInBuild, KeepsInFetch};
    ghost use Rattle.uma_zone.specs.Fetch.{HasFetched, FetchRefuses};
    ghost use Rattle.uma_zone.specs.Prealloc.{PreallocsItems};
    ghost use Rattle.uma_seat.specs.Seat.{KeepsFreed};
    ghost use Rattle.uma_zone.specs.Frames.{KeepsPass};
    ghost use Rattle.uma_zone.specs.Free.{Frees, CountsOneFree, Defers};

    // Runs `ctor` on an item that was taken, and counts the request.
    #[inline(always)]
    fn build(
        &self,
        seat: &mut SeatCache<T, H>,
        item: Cached<T>,
        arg: u64,
    ) -> Result<Live<T>, AllocRefused>
        requires { CanBuild self.now item seat.old }
        ensures built { IfOk result (BuildsAtHome self.now arg item seat.old seat.new) }
        ensures refused { IfErr result (λ why. (code : ℕ) × (why ≡ AllocRefused.Refused (Refusal.Ctor code)) × PutsBack self.now arg item code seat.old seat.new) }
        ensures kept { KeepsInBuild self.now seat.old seat.new }
    {
        match item.build(&self.hooks, arg) {
            Ok(live) => {
                seat.count_alloc();
                Ok(live)
            }
            Err((item, code)) => {
                seat.put_back(item);
                seat.count_ctor(code);
                Err(AllocRefused::Refused {
                    refusal: Refusal::Ctor { code },
                })
            }
        }
    }

    /// Fetches up to a bucket's worth of items from the keg, for a seat whose allocation bucket is empty. It is one fetch
    /// under the keg's lock, and listed there and by the seat.
    ///
    /// `Memory` comes too where the zone isn't there, which never happens: no clause carries out of the lock which zones
    /// there are.
    pub(crate) fn fetch<R: Wait>(
        &self,
        rt: &R,
        alloc: Global,
        seat: &mut SeatCache<T, H>,
        reserve: bool,
    ) -> Result<(), AllocRefused>
        requires { CanFetch self.now seat.old }
        ensures fetched { OnOk result (HasFetched self.now reserve seat.old seat.new) }
        ensures refused { IfErr result (FetchRefuses self.now reserve seat.old seat.new) }
        ensures kept { KeepsInFetch self.now seat.old seat.new }
    {
        let ask = FetchAsk {
            zone: self.index,
            most: seat.lend_empty().size(),
            reserve,
            domain: seat.domain(),
        };
        let mut guard = self.lock(rt);
        if !guard.value.has_zone(self.index) {
            return Err(AllocRefused::Memory);
        }
        match guard.value.fetch(rt, alloc, &self.hooks, ask, seat) {
            Ok(_) => Ok(()),
            Err(FetchRefused::Refused { refusal }) => Err(AllocRefused::Refused { refusal }),
            Err(FetchRefused::Memory) => Err(AllocRefused::Memory),
        }
    }

    /// Brings in the slabs that this many items fill, rounded up, for a memory domain, and returns how many slabs came
    /// in. It blocks on the keg's lock.
    ///
    /// # Arguments
    ///
    /// - `items`: the count of items, at most 262,144.
    /// - `domain`: the number of the memory domain, below the zone's count of domains.
    ///
    /// # Errors
    ///
    /// Slabs that came in before the refusal stay.
    ///
    /// - `Full`: the keg may have no further slab.
    /// - `Init`: `keg_init` refused an item.
    /// - `Memory`: out of memory.
    pub fn prealloc<R: Wait>(
        &self,
        rt: &R,
        alloc: Global,
        items: u64,
        domain: u8,
    ) -> Result<u32, FetchRefused>
        requires { CanPrealloc self.now items domain }
        ensures { PreallocsItems self.now items domain result }
    {
        let mut guard = self.lock(rt);
        let KegCounts { per_slab, .. } = guard.value.counts();
        let slabs = items.div_ceil(u64::from(per_slab)) as u32;
        guard.value.bring_slabs(rt, alloc, slabs, domain)
    }

    /// Frees an item of a plain zone. The item passes `dtor` and goes on top of the seat's bucket of its domain. If
    /// that bucket is full then, it becomes the newest on the shelf, and a spare takes its place. The seat counts the
    /// free, and a cross free if the item belongs to another domain than the seat. A seat without a spare bucket needs
    /// [`Zone::make_room`] first.
    #[inline(always)]
    pub fn free(&self, seat: &mut SeatCache<T, H>, live: Live<T>)
        requires { CanFree self.now live seat.old }
        ensures freed { Frees self.now seat.old live seat.new }
        ensures counted { CountsOneFree self.now seat.old live seat.new }
        ensures deferred { KeepsFreed seat.old seat.new }
    {
        seat.free(live.finish(&self.hooks));
    }

    /// Frees an item of a zone whose readers hold no lock. The item stays built, and is deferred until no section may
    /// see it; no item of the seat becomes usable. If its bucket is full then, the bucket tries once to be sealed and
    /// becomes the newest on the shelf. A seat without a spare bucket needs [`Zone::make_room`] first.
    ///
    /// Unlink the item before the call, so that a section which begins later can't find it. The contract doesn't
    /// require this.
    #[inline(always)]
    pub fn free_smr(
        &self,
        clock: &Clock<H>,
        pass: &mut Pass<H>,
        seat: &mut SeatCache<T, H>,
        live: Live<T>,
    )
        requires { CanFreeSmr self.now clock.now pass.old live seat.old }
        ensures defers { Defers H.copied (view pass.old) seat.old live seat.new (view pass.new) }
        ensures counted { CountsOneFree self.now seat.old live seat.new }
        ensures pass { KeepsPass clock.now pass.old pass.new }
    {
        seat.free_smr(clock, pass, live);
    }
}
