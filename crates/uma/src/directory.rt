ghost use Rattle.std.specs.Prelude.{◌≡◌, ◌<◌, All, IfOk, IfErr, IfSome, IfNone, OnOk, ◌↔◌, IsTrue, map};
ghost use Rattle.keyed_lock.specs.KeyedLock.{lock_key};
ghost use Rattle.smr_clock.specs.Belongs.{clock_id, IsPassOf, holder};
ghost use Rattle.name_cache.specs.Cache.{cache_clock, cache_domains, row_count, IsCacheSeat};
ghost use Rattle.uma.specs.NamePlan.{IsGoodNames};
ghost use Rattle.uma.specs.Passes.{IsReady};
ghost use Rattle.std.specs.Option.{option_map};
ghost use Rattle.smr_core.specs.declared.holder.Phase.{Phase};
ghost use Rattle.name_cache.specs.Bind.{HasRoomToBind};

use crate::plan::{NameLedger, NamePlan};
use crate::pool::{PassLock, lock_up};
use crate::refused::Refused;
use name_cache::{BindRefused, NameCache, RaisedEntry, Receipt};
use name_rows::{Names, make};
use smr_clock::{Clock, Pass};
use std::alloc::{AllocError, Global};
use std::snapshot::Snapshot;
use std::sync::Wait;
use uma_seat::SeatCache;
use zone_stats::{SeatLedger, ZoneLine, ZoneName, sum};

/// Where both sequences of the directory's clock begin, and how far its write sequence may go ahead of its read sequence.
const START: u64 = 1;

const WINDOW: u64 = 1_024;

/// Numbers by name, both 64 bits, which are looked up without a lock. All workers share it by reference, and each binds and looks by a
/// [`DirectoryLocal`] of its own.
#[derive(Drop)]
pub struct Directory {
    pub(crate) cache: NameCache,
    pub(crate) clock: Clock<Names>,
    plan: NamePlan,
    passes: PassLock<Names>,
    pub ghost same_clock: { clock_id clock ≡ cache_clock cache },
    pub ghost domain: { 0 < cache_domains cache },
    pub ghost rows: { row_count cache ≡ plan.rows },
    pub ghost of_clock: { clock_id (lock_key passes).clock.value ≡ clock_id clock },
}

impl Directory {
    ghost use Rattle.uma.specs.NamePlan.{RefusesNamePlan};
    ghost use Rattle.zone_stats.specs.LedgerSteps.{IsNew};
    ghost use Rattle.uma.specs.Directory.{RefusesWay, counted_by, directory_of, directory_plan};
    ghost use Rattle.name_rows.specs.contracts.names.NamesHost.TheImpl.{ghosts as names};
    ghost use Rattle.uma.specs.NoPass.{HasNoPass};
    ghost use Rattle.uma.specs.NameTable.{IsNameLedgerOf, IsNameLineOf, name_counts};
    ghost use Rattle.uma.specs.Table.{RefusesLine};

    /// Makes an empty directory with the numbers of the plan.
    ///
    /// # Errors
    ///
    /// - `Workers`, `Rows`, `Slabs`, `Bucket`: that number of the plan is out of its range. They are tested in this
    ///   order.
    /// - `Memory`: out of memory.
    pub fn new(alloc: Global, plan: NamePlan) -> Result<Directory, Refused>
        ensures plan { IfOk result (λ made. directory_plan made ≡ plan) }
        ensures good { OnOk result (IsGoodNames plan) }
        ensures refused { IfErr result (RefusesNamePlan plan) }
    {
        plan.check()?;
        let Some((cache, clock, passes)) = open(alloc, plan) else {
            return Err(Refused::Memory);
        };
        let Some(passes) = lock_up(alloc, &clock, passes) else {
            return Err(Refused::Memory);
        };
        Ok(Directory {
            cache,
            clock,
            plan,
            passes,
        })
    }

    /// Returns the plan that the directory was made with.
    pub fn plan(&self) -> NamePlan
        ensures { result ≡ directory_plan self.now }
    {
        self.plan
    }

    /// Returns a local of the directory, for one worker at a time. It blocks on the directory's locks.
    ///
    /// # Errors
    ///
    /// - `Taken`: every worker of the plan has a local.
    /// - `Memory`: out of memory. The worker's place is free again.
    pub fn local<'a, R: Wait>(
        &'a self,
        rt: &R,
        alloc: Global,
    ) -> Result<DirectoryLocal<'a>, Refused>
        ensures directory { IfOk result (λ local. directory_of local ≡ self.now) }
        ensures ledger { IfOk result (λ local. IsNew (counted_by local)) }
        ensures refused { IfErr result (RefusesWay self.now) }
    {
        let Some(pass) = self.take_pass(rt) else {
            return Err(Refused::Taken {
                workers: self.plan.workers,
            });
        };
        match self.cache.seat(rt, alloc, 0) {
            Ok(seat) => Ok(DirectoryLocal {
                directory: self,
                pass,
                seat,
            }),
            Err(_) => {
                self.put_pass(rt, pass);
                Err(Refused::Memory)
            }
        }
    }

    // A pass that nobody has yet. Waits until it has the lock of these.
    fn take_pass<R: Wait>(&self, rt: &R) -> Option<Pass<Names>>
        ensures ready { IfSome result (IsReady self.now.clock) }
        ensures none { IfNone result (HasNoPass names self.now.clock) }
    {
        let mut guard = self.passes.lock(rt);
        guard.value.take()
    }

    // Puts back a pass that no local came to have.
    fn put_pass<R: Wait>(&self, rt: &R, pass: Pass<Names>)
        requires { IsReady self.now.clock pass }
    {
        let mut guard = self.passes.lock(rt);
        guard.value.put(pass);
    }

    /// Returns what several locals of the directory counted together, as a line of a table. The free entries are
    /// counted by a census of the slabs at this moment. It blocks on the directory's lock.
    ///
    /// # Arguments
    ///
    /// - `name`: the name in the line, 1 to 16 ASCII letters, digits, `_` and `-`.
    /// - `ledgers`: the ledgers of the locals, each of this directory.
    ///
    /// # Errors
    ///
    /// As [`Pool::stats`](crate::Pool::stats).
    pub fn stats<R: Wait>(
        &self,
        rt: &R,
        alloc: Global,
        name: &[u8],
        ledgers: &[NameLedger],
    ) -> Result<ZoneLine, Refused>
        requires { All (IsNameLedgerOf self.now) ledgers.now }
        ensures line { IfOk result (IsNameLineOf self.now name.now (name_counts ledgers.now)) }
        ensures refused { IfErr result (RefusesLine name.now) }
    {
        let Some(name) = ZoneName::new(name) else {
            return Err(Refused::Name);
        };
        let Ok(census) = self.cache.census(rt, alloc) else {
            return Err(Refused::Memory);
        };
        let Ok(counts) = counts_in(alloc, ledgers) else {
            return Err(Refused::Memory);
        };
        let (out, free) = (census.outs()[0], census.counts().free);
        Ok(sum(name, ENTRY_SIZE, 0, counts.as_slice(), out, free))
    }
}

// A cache of names, with its clock and a pass for each worker. The clock has a number for each of the 64 entries of each slab.
fn open(alloc: Global, plan: NamePlan) -> Option<(NameCache, Clock<Names>, Vec<Pass<Names>>)>
    requires { IsGoodNames plan }
    ensures clock { IfSome result (λ (cache, clock, passes). clock_id clock ≡ cache_clock cache) }
    ensures rows { IfSome result (λ (cache, clock, passes). row_count cache ≡ plan.rows) }
    ensures domains { IfSome result (λ (cache, clock, passes). cache_domains cache ≡ 1) }
    ensures ready { IfSome result (λ (cache, clock, passes). All (IsReady clock) passes.items) }
{
    let NamePlan {
        workers,
        rows,
        slabs,
        ..
    } = plan;
    let Ok(opened) = make(alloc, workers, START, WINDOW, rows, 64 * slabs, 0) else {
        return None;
    };
    match NameCache::new(alloc, opened, plan.set()) {
        Ok(made) => Some(made),
        Err(_) => None,
    }
}

/// What one worker has of a directory. It may be sent to another thread, and is used by one at a time.
#[derive(Drop)]
pub struct DirectoryLocal<'a> {
    pub(crate) directory: &'a Directory,
    pub(crate) pass: Pass<Names>,
    pub(crate) seat: SeatCache<RaisedEntry, Names>,
    pub ghost here: { IsPassOf directory.now.clock pass },
    pub ghost outside: { (holder pass).phase ≡ Phase.Outside },
    pub ghost seated: { IsCacheSeat directory.now.cache seat },
}

impl<'a> DirectoryLocal<'a> {
    ghost use Rattle.uma.specs.NameTable.{IsNameLedgerOf};
    ghost use Rattle.uma.specs.Answers.{AnswersBind, AnswersUnbind, KeepsKnown, LooksOne};
    ghost use Rattle.uma.specs.Directory.{IsLate, counted_by, directory_of};

    /// Binds a name to a value. If the name's row had another name, that name is evicted, and a later lookup of it
    /// finds nothing. It blocks on the directory's locks.
    ///
    /// # Arguments
    ///
    /// - `name`: the name, any number.
    /// - `value`: the value, any number.
    ///
    /// # Errors
    ///
    /// After a refusal the name's row is unchanged.
    ///
    /// - `Counts`: the local has counted 2^63 requests or frees.
    /// - `Memory`: out of memory.
    /// - `Turned`: every entry is in use.
    /// - `Unripe`: a section may still see the entry that was to be used. Bind again.
    /// - `Worn`: the row has been written some 2^44 times. A new directory goes on.
    pub fn bind<R: Wait>(
        &mut self,
        rt: &R,
        alloc: Global,
        name: u64,
        value: u64,
    ) -> Result<(), Refused>
        ensures { AnswersBind name value self.old result self.new }
    {
        if !can_bind(self.seat.ledger()) {
            return Err(Refused::Counts);
        }
        let directory = self.directory;
        match directory.cache.bind(
            rt,
            alloc,
            &directory.clock,
            &mut self.pass,
            &mut self.seat,
            name,
            value,
        ) {
            Ok(_) => Ok(()),
            Err(BindRefused::Zone { refusal }) => Err(Refused::Turned { refusal }),
            Err(BindRefused::Worn { row, version }) => Err(Refused::Worn { row, version }),
            Err(BindRefused::Unripe { read, stamp }) => Err(Refused::Unripe { read, stamp }),
            Err(BindRefused::Memory) => Err(Refused::Memory),
        }
    }

    /// Takes a name out. Returns the value to which it was bound, or None if its row doesn't bind it, for example
    /// because it was evicted. It blocks on the directory's locks.
    ///
    /// # Arguments
    ///
    /// - `name`: the name, any number.
    ///
    /// # Errors
    ///
    /// A refused call has looked nothing up.
    ///
    /// - `Counts`: the local has counted 2^63 requests or frees.
    /// - `Memory`: out of memory.
    pub fn unbind<R: Wait>(
        &mut self,
        rt: &R,
        alloc: Global,
        name: u64,
    ) -> Result<Option<u64>, Refused>
        ensures { AnswersUnbind name self.old result self.new }
    {
        if !self.seat.room() {
            return Err(Refused::Counts);
        }
        let directory = self.directory;
        match directory.cache.unbind(
            rt,
            alloc,
            &directory.clock,
            &mut self.pass,
            &mut self.seat,
            name,
        ) {
            Ok(found) => Ok(value_of(found)),
            Err(_) => Err(Refused::Memory),
        }
    }

    /// Returns the value to which a name is bound, or None. The lookup enters a section of its own and takes no lock.
    ///
    /// # Arguments
    ///
    /// - `name`: the name, any number.
    ///
    /// # Errors
    ///
    /// `Late`: the directory's clock advanced by its whole window of 1,024 while the section was entered. Look again.
    pub fn look(&mut self, name: u64) -> Result<Option<u64>, Refused>
        ensures keeps { KeepsKnown self.old self.new }
        ensures looked { IfOk result (λ found. LooksOne name self.old found self.new) }
        ensures refused { IfErr result (IsLate self.old self.new) }
    {
        let directory = self.directory;
        match directory.cache.look(&directory.clock, &mut self.pass, name) {
            Ok(found) => Ok(found),
            Err(_) => Err(Refused::Late),
        }
    }

    /// Returns the counts of the local. Each bind counts the alloc of an entry, and an entry is counted as freed when
    /// its name goes.
    pub fn ledger(&self) -> NameLedger
        ensures counts { result.counts ≡ counted_by self.now }
        ensures directory { IsNameLedgerOf (directory_of self.now) result }
    {
        NameLedger {
            counts: self.seat.ledger(),
            directory: Snapshot::of(self.directory),
        }
    }
}

// Whether a bind can be counted, which is a request and a free.
fn can_bind(ledger: SeatLedger) -> bool
    ensures { IsTrue result ↔ HasRoomToBind ledger }
{
    ledger.room() && ledger.requests < (1 << 63) - 1
}

// The value without its receipt.
fn value_of(found: Option<(u64, Receipt)>) -> Option<u64>
    ensures { result ≡ option_map (λ pair. pair.0) found }
{
    match found {
        Some((value, _receipt)) => Some(value),
        None => None,
    }
}

/// How many bytes an entry of a directory has: 64 of them lie in a slab.
const ENTRY_SIZE: u32 = 64;

// What the ledgers count, in order.
fn counts_in(alloc: Global, ledgers: &[NameLedger]) -> Result<Vec<SeatLedger>, AllocError>
    ensures { IfOk result (λ counts. counts.items ≡ map (λ ledger. ledger.counts) ledgers.now) }
{
    let mut counts = Vec::new(alloc);
    for ledger in ledgers {
        counts.push(ledger.counts)?;
    }
    Ok(counts)
}
