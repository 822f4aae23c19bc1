ghost use Rattle.std.specs.Prelude.{◌≡◌, [], All, IfSome, IfNone, ◌<◌, false, IfOk, IfErr, OnOk};
ghost use Rattle.keyed_lock.specs.KeyedLock.{lock_key};
ghost use Rattle.smr_clock.specs.Belongs.{clock_id};
ghost use Rattle.uma.specs.Passes.{IsReady};
ghost use Rattle.uma_zone.specs.Zone.{zone_clock, zone_size, zone_cap, zone_bucket, zone_limit, zone_reserve, zone_domains, zone_smr};
ghost use Rattle.uma.specs.Plan.{IsGood};

use crate::local::Local;
use crate::plan::Plan;
use crate::reader::Reader;
use crate::refused::Refused;
use keyed_lock::{KeyedLock, LockRule};
use smr_clock::{Bare, Clock, Host, Pass};
use std::alloc::Global;
use std::snapshot::Snapshot;
use std::sync::Wait;
use uma_item::{Item, ItemHooks, TrailHooks};
use uma_life::{Body, Hooks};
use uma_zone::Zone;

/// Of which clock passes are. For contracts alone.
#[derive(Drop)]
pub struct PassKey<H: Host> {
    pub clock: Snapshot<Clock<H>>,
}

/// The passes of a clock that nobody has yet. Each is outside of any section.
#[derive(Drop)]
pub struct ReadyPasses<H: Host> {
    passes: Vec<Pass<H>>,
    clock: Snapshot<Clock<H>>,
    ghost ready: { All (IsReady clock.value) passes.items },
}

/// The passes are of the key's clock.
pub struct PassRule;

impl<H: Host> LockRule<ReadyPasses<H>, PassKey<H>> for PassRule {
    ghost use Rattle.std.specs.Prelude.{◌≡◌};
    ghost use Rattle.smr_clock.specs.Belongs.{clock_id};

    ghost keeps = { λ key ready. clock_id ready.clock.value ≡ clock_id key.clock.value };
}

/// The lock of such passes.
pub(crate) type PassLock<H> = KeyedLock<ReadyPasses<H>, PassKey<H>, PassRule>;

impl<H: Host> ReadyPasses<H> {
    pub(crate) fn new(clock: &Clock<H>, passes: Vec<Pass<H>>) -> ReadyPasses<H>
        requires { All (IsReady clock.now) passes.items }
        ensures { result.clock.value ≡ clock.now }
    {
        ReadyPasses {
            passes,
            clock: Snapshot::of(clock),
        }
    }

    /// Takes one of them.
    pub(crate) fn take(&mut self) -> Option<Pass<H>>
        ensures ready { IfSome result (IsReady self.old.clock.value) }
        ensures none { IfNone result (self.old.passes.items ≡ []) }
        ensures same { self.new.clock ≡ self.old.clock }
    {
        self.passes.pop()
    }

    /// Puts one back. It has the room of one that was taken.
    pub(crate) fn put(&mut self, pass: Pass<H>)
        requires { IsReady self.old.clock.value pass }
        ensures { self.new.clock ≡ self.old.clock }
    {
        let _ = self.passes.push(pass);
    }
}

// Puts passes of this clock under a lock.
pub(crate) fn lock_up<H: Host>(
    alloc: Global,
    clock: &Clock<H>,
    passes: Vec<Pass<H>>,
) -> Option<PassLock<H>>
    requires { All (IsReady clock.now) passes.items }
    ensures { IfSome result (λ lock. clock_id (lock_key lock).clock.value ≡ clock_id clock.now) }
{
    let key = PassKey {
        clock: Snapshot::of(clock),
    };
    let ready = ReadyPasses::new(clock, passes);
    match KeyedLock::new(alloc, ready, &key) {
        Ok(lock) => Some(lock),
        Err(_ready) => None,
    }
}

/// Where both sequences of a pool's clock begin, and how far its write sequence may go ahead of its read sequence.
const START: u64 = 1;

const WINDOW: u64 = 1_024;

/// A pool of items. All workers share it by reference, and each allocates and frees by a [`Local`] of its own.
///
/// People name it by their data and hooks, as [`DataPool`].
#[derive(Drop)]
pub struct Pool<T: Body, K: Hooks<T>> {
    pub(crate) zone: Zone<T, K, Bare>,
    // That of its readers. A pool without any asks it nothing.
    pub(crate) clock: Clock<Bare>,
    pub(crate) plan: Plan,
    passes: PassLock<Bare>,
    pub ghost good: { IsGood plan },
    pub ghost same_clock: { zone_clock zone ≡ clock_id clock },
    pub ghost size: { zone_size zone ≡ plan.size },
    pub ghost slabs: { zone_cap zone ≡ plan.slabs },
    pub ghost bucket: { zone_bucket zone ≡ plan.bucket },
    pub ghost limit: { zone_limit zone ≡ plan.limit },
    pub ghost reserve: { zone_reserve zone ≡ plan.reserve },
    pub ghost domains: { zone_domains zone ≡ plan.domains },
    pub ghost smr: { zone_smr zone ≡ plan.smr },
    pub ghost of_clock: { clock_id (lock_key passes).clock.value ≡ clock_id clock },
}

/// A pool of items with data `B`, whose hooks are `K`.
pub type DataPool<B, K> = Pool<Item<B>, TrailHooks<K>>;

impl<B: Drop, K: ItemHooks<B> + Copy> Pool<Item<B>, TrailHooks<K>> {
    ghost use Rattle.uma.specs.Making.{RefusesPlan};
    ghost use Rattle.uma.specs.Pool.{IsMade};

    /// Makes an empty pool with the numbers of the plan. The hooks are `Copy`: they hold by reference what they share
    /// with others.
    ///
    /// # Errors
    ///
    /// As [`Pool::over`].
    pub fn new(alloc: Global, plan: Plan, hooks: K) -> Result<DataPool<B, K>, Refused>
        ensures made { IfOk result (λ pool. IsMade plan (record { hooks = hooks; stays = false }) pool) }
        ensures refused { IfErr result (RefusesPlan plan) }
    {
        Pool::over(alloc, plan, TrailHooks::new(hooks), TrailHooks::new(hooks))
    }
}

impl<T: Body + Drop, K: Hooks<T>> Pool<T, K> {
    ghost use Rattle.uma.specs.Making.{RefusesPlan};
    ghost use Rattle.uma.specs.Pool.{IsMade, pool_plan, pool_home};
    ghost use Rattle.uma.specs.Local.{IsNewLocal};
    ghost use Rattle.smr_clock.specs.contracts.host.BareHost.TheImpl.{ghosts as bare};
    ghost use Rattle.uma.specs.NoPass.{HasNoPass};
    ghost use Rattle.uma.specs.Section.{IsReaderOf};
    ghost use Rattle.uma.specs.Taken.{RefusesLocal, RefusesReader};

    /// Makes an empty pool of items with any body. `hooks` runs on each request and each free, and `slab_hooks` when a
    /// slab is brought in or given up.
    ///
    /// # Errors
    ///
    /// - `Workers`, `Size`, `Slabs`, `Bucket`, `Domains`: that number of the plan is out of its range. They are tested
    ///   in this order.
    /// - `Memory`: out of memory.
    pub fn over(alloc: Global, plan: Plan, hooks: K, slab_hooks: K) -> Result<Pool<T, K>, Refused>
        ensures made { IfOk result (IsMade plan hooks) }
        ensures origin { IfOk result (λ pool. (pool_home pool).book.origin ≡ K.origin slab_hooks) }
        ensures refused { IfErr result (RefusesPlan plan) }
    {
        plan.check()?;
        let (clock, passes) = new_clock(alloc, plan.workers)?;
        let set = plan.set();
        let Ok(zone) = Zone::primary(alloc, &clock, plan.size, set, hooks, slab_hooks) else {
            return Err(Refused::Memory);
        };
        let Some(passes) = lock_up(alloc, &clock, passes) else {
            return Err(Refused::Memory);
        };
        Ok(Pool {
            zone,
            clock,
            plan,
            passes,
        })
    }

    /// Returns the plan that the pool was made with.
    pub fn plan(&self) -> Plan
        ensures { result ≡ pool_plan self.now }
    {
        self.plan
    }

    /// Returns a local of the pool in memory domain 0, for one worker at a time. It blocks on the pool's locks.
    ///
    /// # Errors
    ///
    /// - `Taken`: every worker of the plan has a local or a reader.
    /// - `Memory`: out of memory. The worker's place is free again.
    pub fn local<'a, R: Wait>(&'a self, rt: &R, alloc: Global) -> Result<Local<'a, T, K>, Refused>
        ensures made { IfOk result (IsNewLocal self.now) }
        ensures refused { IfErr result (RefusesLocal self.now) }
    {
        self.local_in(rt, alloc, 0)
    }

    /// Returns a local of the pool in a memory domain, for one worker at a time. It blocks on the pool's locks.
    ///
    /// # Arguments
    ///
    /// - `domain`: the number of the memory domain, below the plan's count of domains.
    ///
    /// # Errors
    ///
    /// As [`Pool::local`].
    pub fn local_in<'a, R: Wait>(
        &'a self,
        rt: &R,
        alloc: Global,
        domain: u8,
    ) -> Result<Local<'a, T, K>, Refused>
        requires { domain < (pool_plan self.now).domains }
        ensures made { IfOk result (IsNewLocal self.now) }
        ensures refused { IfErr result (RefusesLocal self.now) }
    {
        let Some(pass) = self.take_pass(rt) else {
            return Err(Refused::Taken {
                workers: self.plan.workers,
            });
        };
        match self.zone.seat(rt, alloc, domain) {
            Ok(seat) => Ok(Local {
                pool: self,
                pass,
                seat,
            }),
            Err(_) => {
                self.put_pass(rt, pass);
                Err(Refused::Memory)
            }
        }
    }

    /// Returns a reader of the pool, which allocates nothing and counts as one of the pool's workers. It blocks on the
    /// lock of the passes.
    ///
    /// # Errors
    ///
    /// `Taken`: every worker of the plan has a local or a reader.
    pub fn reader<R: Wait>(&self, rt: &R) -> Result<Reader<'_>, Refused>
        ensures pool { IfOk result (IsReaderOf self.now) }
        ensures refused { IfErr result (RefusesReader self.now) }
    {
        let Some(pass) = self.take_pass(rt) else {
            return Err(Refused::Taken {
                workers: self.plan.workers,
            });
        };
        Ok(Reader {
            clock: &self.clock,
            pass,
        })
    }

    // A pass that nobody has yet. Waits until it has the lock of these.
    fn take_pass<R: Wait>(&self, rt: &R) -> Option<Pass<Bare>>
        ensures ready { IfSome result (IsReady self.now.clock) }
        ensures none { IfNone result (HasNoPass bare self.now.clock) }
    {
        let mut guard = self.passes.lock(rt);
        guard.value.take()
    }

    // Puts back a pass that no local came to have.
    fn put_pass<R: Wait>(&self, rt: &R, pass: Pass<Bare>)
        requires { IsReady self.now.clock pass }
    {
        let mut guard = self.passes.lock(rt);
        guard.value.put(pass);
    }
}

// A clock with a pass for each worker.
fn new_clock(alloc: Global, workers: u32) -> Result<(Clock<Bare>, Vec<Pass<Bare>>), Refused>
    ensures ready { IfOk result (λ (clock, passes). All (IsReady clock) passes.items) }
    ensures refused { IfErr result (λ why. why ≡ Refused.Memory) }
{
    match Clock::<Bare>::new(alloc, workers, START, WINDOW) {
        Ok(made) => Ok(made),
        Err(_) => Err(Refused::Memory),
    }
}
