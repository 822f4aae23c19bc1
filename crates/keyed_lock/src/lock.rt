//! The lock and its guard: the word and the slot under a lock, and the steps on the word.
ghost use Rattle.std.specs.Prelude.{◌≡◌, [], ◌∷◌, Some, IfOk, IfErr, IfSome, IsTrue, ◌↔◌};
ghost use Rattle.keyed_lock.specs.Protocol.{HoldsGap, WordIsUnlocked, IsHomeValue};
ghost use Rattle.std.specs.Coded.{Coded-set, coded×, coded_list, coded_ℕ, coded_option};
ghost use Rattle.atomic_table.specs.Seated.{table_id_coded};
ghost use Rattle.std.specs.Mem.Slots.{slots_len, IsFull};

use atomic_table::{Closed, Play, Refused, Seat, Table, TableRule};
use std::alloc::Global;
use std::hint::spin_loop;
use std::marker::PhantomData;
use std::sync::Wait;

/// What the value under a lock keeps, whenever nobody holds the lock.
///
/// `K` is the type of the lock's key and `T` of its value. A type that stands for a rule has no values of its own:
/// `struct SeatsOfTable;`. A rule compares identities that it reads from the key, as a `TableId`, and not whole keys: a
/// `Snapshot` in a key also says what the thing knew when the snapshot was taken.
pub trait LockRule<T, K> {
    ghost keeps: { K → T → Type 0 };
}

/// Nobody holds the lock.
pub(crate) const UNLOCKED: u64 = 0;

/// Somebody holds the lock, and nobody sleeps until it is unlocked.
pub(crate) const LOCKED: u64 = 1;

/// Somebody holds the lock, and others may sleep until it is unlocked.
pub(crate) const CONTENDED: u64 = 2;

/// The table's one word.
pub(crate) const WORD: usize = 0;

/// The table's one slot.
pub(crate) const SLOT: usize = 0;

/// The table's rule. A seat's view is the lock's key, since what a step tells cannot read the table's own.
pub(crate) struct Protocol<P> {
    rule: PhantomData<P>,
}

impl<T, K, P: LockRule<T, K>> TableRule<Option<T>, K, K> for Protocol<P> {
    ghost use Rattle.keyed_lock.specs.Protocol.{ObeysLaw};

    ghost holds = { λ key state. ObeysLaw P.keeps key state };

    ghost first = { λ key. key };
}

/// A step that takes the value where it finds the lock unlocked.
pub(crate) struct Take<P> {
    rule: PhantomData<P>,
}

impl<T, K, P: LockRule<T, K>> Play<Option<T>, K> for Take<P> {
    ghost use Rattle.keyed_lock.specs.Protocol.{TakesLock};

    ghost then = { λ step before found after. TakesLock P.keeps before found after };
}

/// A step that only looks.
pub(crate) struct Look;

impl<T, K> Play<Option<T>, K> for Look {
    ghost then = { λ step before found after. after ≡ before };
}

/// A step that lets the lock go. It tells nothing.
pub(crate) struct Unlock;

impl<T, K> Play<Option<T>, K> for Unlock {
    ghost then = { λ step before found after. Unit {0} };
}

/// The value of a lock, while this thread holds it.
///
/// When the guard is dropped, it puts the value back and unlocks the lock. That asks that the value keeps the rule for
/// the lock's key, at every way out: the end of the scope, a `return`, a `?`. In between the value may break the rule.
///
/// Change the value by a method of its own, called on `guard.value`, whose contract keeps the rule. Then nothing is left
/// to prove where the lock is taken. A loop straight on `guard.value` forgets the rule.
pub struct KeyedGuard<'a, T, K, P: LockRule<T, K>> {
    pub(crate) lock: &'a KeyedLock<T, K, P>,
    pub(crate) seat: Seat<Option<T>, K>,
    pub value: T,
    ghost ours: { seat.table_id ≡ lock.now.table.shared.table_id } by { Coded-set table_id_coded _ _ },
    ghost gap: { HoldsGap lock.now.table.shared.key seat.me } by { Coded-set (coded× K.code (coded_list (coded× coded_ℕ (coded_option T.code)))) _ _ },
}

impl<'a, T, K, P: LockRule<T, K>> Drop for KeyedGuard<'a, T, K, P> {
    ghost use Rattle.keyed_lock.specs.KeyedGuard.{guard_key};

    fn drop(self)
        requires { P.keeps (guard_key self) self.value }
    {
        let KeyedGuard {
            lock,
            mut seat,
            value,
        } = self;
        lock.put_back(&mut seat, value);
        lock.unlock(&mut seat);
    }
}

/// How often a thread looks again before it sleeps. Before look `n` it pauses `2^n` times, so 127 times in all: about as
/// long as it takes to fall asleep and to be woken.
const SPINS: u32 = 7;

/// A value that one thread at a time may hold, under a key that contracts can name.
///
/// **The law of a lock**, over a word that says whether it is unlocked, locked or contended, and a slot for the value:
///
/// 1. The key is the one that the lock was made with.
/// 2. While the word says unlocked, the value is in the slot, and keeps the rule for the key.
/// 3. A step that finds the word unlocked leaves it locked or contended, and takes the value out of the slot. A step
///    that finds anything else takes nothing. So one holder at a time has the value.
/// 4. The holder puts a value that keeps the rule back into the slot first, and makes the word unlocked after that.
/// 5. A thread sleeps only while the word says contended, and whoever unlocks a contended word wakes one sleeper. A
///    thread that slept takes the lock as contended, so that the next unlock wakes the next sleeper.
///
/// A thread that spins before it sleeps takes the lock as `try_lock` does, by a step of part 3.
///
/// Parts 1 to 4 are proved. Part 5 is progress, which no contract speaks of. The word and its states are those of the
/// second mutex of Drepper's "Futexes are tricky", and of the standard library's lock on Linux.
///
/// A lock takes two allocations. Each lock and unlock moves the value out and in, so box a large one. There is no
/// poison, and no fairness: a thread that comes may take the lock before one that was woken.
///
/// A value that is not `Drop` comes back by `into_inner`, unless its guard was forgotten. The lock is `Drop` where its
/// value is, and it may be shared among threads where its value may be sent to them. Generic code that shares it writes
/// the bound `P: LockRule<T, K> + Send + Sync`.
pub struct KeyedLock<T, K, P: LockRule<T, K>> {
    table: Table<Option<T>, K, K, Protocol<P>, Global>,
    ghost one_word: { table.shared.table_id.words ≡ 1 },
    ghost one_slot: { table.shared.table_id.slots ≡ 1 },
}

impl<T, K, P: LockRule<T, K>> KeyedLock<T, K, P> {
    ghost use Rattle.keyed_lock.specs.Protocol.{Holds};
    ghost use Rattle.keyed_lock.specs.KeyedLock.{lock_key};
    ghost use Rattle.keyed_lock.specs.KeyedGuard.{guard_key};

    /// An unlocked lock with this value and this key. Only want of memory refuses it, and the value comes back.
    pub fn new(alloc: Global, value: T, key: &K) -> Result<KeyedLock<T, K, P>, T>
        requires { P.keeps key.now value }
        ensures ok { IfOk result (λ lock. lock_key lock ≡ key.now) }
        ensures err { IfErr result (λ refused. refused ≡ value) }
    {
        match Table::new(alloc, &[UNLOCKED], one_slot(alloc, value)?, key) {
            Ok((table, _seat)) => Ok(KeyedLock { table }),
            Err(Refused { slots }) => Err(only_value(slots)),
        }
    }

    /// Blocks until it has the lock. A thread that finds the lock held looks again for some microseconds, since most holders
    /// let go sooner than that, and then sleeps. It blocks for ever if the thread itself holds the lock, or if a guard was
    /// forgotten.
    pub fn lock<'a, R: Wait>(&'a self, rt: &R) -> KeyedGuard<'a, T, K, P>
        ensures same_key { guard_key result ≡ lock_key self.now }
        ensures kept { P.keeps (lock_key self.now) result.value }
        ensures mine { P.keeps (guard_key result) result.value }
    {
        match self.try_lock() {
            Some(guard) => guard,
            None => self.lock_held(rt),
        }
    }

    // Blocks until it has the lock, which was held a moment ago.
    #[cold]
    #[inline(never)]
    fn lock_held<'a, R: Wait>(&'a self, rt: &R) -> KeyedGuard<'a, T, K, P>
        ensures same_key { guard_key result ≡ lock_key self.now }
        ensures kept { P.keeps (lock_key self.now) result.value }
        ensures mine { P.keeps (guard_key result) result.value }
    {
        if let Some(guard) = self.spin() {
            return guard;
        }
        for _ in rt.forever() {
            let (found, seat) = self.table.shared.swap_new_seat::<Take<P>>(WORD, CONTENDED);
            if found == UNLOCKED {
                return self.take_out(seat);
            }
            self.table.shared.park(rt, WORD, CONTENDED as u32);
        }
        unreachable!()
    }

    // Looks again, each time after twice as many pauses, and takes the lock where it finds it unlocked. A look only loads
    // the word, so the threads that spin share its cache line with the holder.
    fn spin<'a>(&'a self) -> Option<KeyedGuard<'a, T, K, P>>
        ensures same_key { IfSome result (λ guard. guard_key guard ≡ lock_key self.now) }
        ensures kept { IfSome result (λ guard. P.keeps (lock_key self.now) guard.value) }
        ensures mine { IfSome result (λ guard. P.keeps (guard_key guard) guard.value) }
    {
        for turn in 0..SPINS {
            pause(1 << turn);
            if let Some(guard) = self.try_lock() {
                return Some(guard);
            }
        }
        None
    }

    /// Takes the lock if nobody holds it, and waits for nobody. `None` says that somebody held it at some moment of the
    /// call, which no clause can say, since it is gone when the caller reads the answer.
    pub fn try_lock<'a>(&'a self) -> Option<KeyedGuard<'a, T, K, P>>
        ensures same_key { IfSome result (λ guard. guard_key guard ≡ lock_key self.now) }
        ensures kept { IfSome result (λ guard. P.keeps (lock_key self.now) guard.value) }
        ensures mine { IfSome result (λ guard. P.keeps (guard_key guard) guard.value) }
    {
        let shared = &self.table.shared;
        // A look first: a lock that is held stays in the holder's cache.
        let (seen, mut seat) = shared.load_new_seat::<Look>(WORD);
        if seen != UNLOCKED {
            return None;
        }
        let found = shared.compare_exchange::<Take<P>>(&mut seat, WORD, UNLOCKED, LOCKED);
        if found != UNLOCKED {
            return None;
        }
        Some(self.take_out(seat))
    }

    /// The value, by value. Nobody can hold the lock but a guard that was forgotten, and then it waits for ever: what
    /// was forgotten cannot come back.
    pub fn into_inner<R: Wait>(self, rt: &R) -> T
        ensures { P.keeps (lock_key self) result }
    {
        let closed = self.close();
        if is_unlocked(&closed) {
            return home_value(closed);
        }
        for _ in rt.forever() {}
        unreachable!()
    }

    /// The guard of a seat that has taken the value.
    fn take_out<'a>(&'a self, mut seat: Seat<Option<T>, K>) -> KeyedGuard<'a, T, K, P>
        requires ours { seat.table_id ≡ self.now.table.shared.table_id }
        requires key { seat.me.0 ≡ lock_key self.now }
        requires holds { Holds P.keeps seat.me }
        ensures same_key { guard_key result ≡ lock_key self.now }
        ensures kept { P.keeps (lock_key self.now) result.value }
        ensures mine { P.keeps (guard_key result) result.value }
    {
        let taken = self.table.shared.exchange(&mut seat, SLOT, None);
        let Some(value) = taken else { unreachable!() };
        KeyedGuard {
            lock: self,
            seat,
            value,
        }
    }

    /// Puts the value into the slot, while the lock is still held.
    pub(crate) fn put_back(&self, seat: &mut Seat<Option<T>, K>, value: T)
        requires ours { seat.old.table_id ≡ self.now.table.shared.table_id }
        requires gap { HoldsGap (lock_key self.now) seat.old.me }
        ensures ours { seat.new.table_id ≡ seat.old.table_id }
        ensures put { seat.new.me ≡ (lock_key self.now, (SLOT, Some value) ∷ []) }
    {
        let gap = self.table.shared.exchange(seat, SLOT, Some(value));
        let None = gap else { unreachable!() };
    }

    /// Lets the lock go, once the slot has a value that keeps the rule, and wakes a thread that sleeps.
    pub(crate) fn unlock(&self, seat: &mut Seat<Option<T>, K>)
        requires ours { seat.old.table_id ≡ self.now.table.shared.table_id }
        requires key { seat.old.me.0 ≡ lock_key self.now }
        requires holds { Holds P.keeps seat.old.me }
    {
        let found = self.table.shared.swap::<Unlock>(seat, WORD, UNLOCKED);
        if found == CONTENDED {
            self.table.shared.wake_one(WORD);
        }
    }

    /// The word and the slot, which no thread shares any more.
    fn close(self) -> Closed<Option<T>, Global>
        ensures word { slots_len result.words ≡ 1 }
        ensures slot { slots_len result.slots ≡ 1 }
        ensures full { IsFull result.words × IsFull result.slots }
        ensures home { WordIsUnlocked result → (value : T) × IsHomeValue result value }
        ensures kept { (value : T) → WordIsUnlocked result → IsHomeValue result value → P.keeps (lock_key self) value }
    {
        let KeyedLock { table } = self;
        table.close()
    }
}

impl<T: Drop, K, P: LockRule<T, K>> Drop for KeyedLock<T, K, P> {
    fn drop(self) {
        let KeyedLock { table } = self;
        drop(table);
    }
}

/// So many of the processor's pauses.
fn pause(count: u32) {
    for _ in 0..count {
        spin_loop();
    }
}

/// The slot of a new lock. Where there is no memory, the value comes back.
fn one_slot<T>(alloc: Global, value: T) -> Result<Vec<Option<T>>, T>
    ensures ok { IfOk result (λ slots. slots.items ≡ Some value ∷ []) }
    ensures err { IfErr result (λ refused. refused ≡ value) }
{
    let mut slots = Vec::new(alloc);
    match slots.push(Some(value)) {
        Ok(()) => Ok(slots),
        Err(refused) => {
            slots.destroy_empty();
            let Some(value) = refused.value else {
                unreachable!()
            };
            Err(value)
        }
    }
}

/// The value of slots that made no lock.
fn only_value<T>(mut slots: Vec<Option<T>>) -> T
    requires { (value : T) × (slots.items ≡ Some value ∷ []) }
    ensures { slots.items ≡ Some result ∷ [] }
{
    let Some(Some(value)) = slots.pop() else {
        unreachable!()
    };
    slots.destroy_empty();
    value
}

/// Whether nobody held the lock when it was closed.
fn is_unlocked<T>(closed: &Closed<Option<T>, Global>) -> bool
    requires word { slots_len closed.now.words ≡ 1 }
    requires full { IsFull closed.now.words }
    ensures { IsTrue result ↔ WordIsUnlocked closed.now }
{
    closed.word(WORD) == UNLOCKED
}

/// The value of a lock that nobody held when it was closed.
fn home_value<T>(mut closed: Closed<Option<T>, Global>) -> T
    requires slot { slots_len closed.slots ≡ 1 }
    requires full { IsFull closed.slots }
    requires unlocked { WordIsUnlocked closed }
    requires home { WordIsUnlocked closed → (value : T) × IsHomeValue closed value }
    ensures { IsHomeValue closed result }
{
    let Some(value) = closed.take(SLOT) else {
        unreachable!()
    };
    closed.free();
    value
}
