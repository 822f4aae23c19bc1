ghost use Rattle.std.specs.Prelude.{◌≡◌, ◌≤◌, IfOk};
ghost use Rattle.keyed_lock.specs.KeyedLock.{lock_key};

use keyed_lock::{KeyedLock, LockRule};
use std::alloc::Global;
use std::sync::Wait;
use std::test::Fail;
use std::thread;
use std::thread::Threads;

/// Counts turns. It is not `Drop`, so each has to come back from its lock.
struct Turns {
    taken: u64,
}

/// The key is the most turns that may be taken.
struct AtMostKey;

impl LockRule<Turns, u64> for AtMostKey {
    ghost keeps = { λ most turns. turns.taken ≤ most };
}

type TurnsLock = KeyedLock<Turns, u64, AtMostKey>;

impl Turns {
    fn take(&mut self, most: u64)
        requires { self.old.taken ≤ most }
        ensures { self.new.taken ≤ most }
    {
        if self.taken < most {
            self.taken += 1;
        }
    }
}

fn no_turns(alloc: Global, most: u64) -> Result<TurnsLock, u64>
    ensures { IfOk result (λ lock. lock_key lock ≡ most) }
{
    TurnsLock::new(alloc, Turns { taken: 0 }, &most).map_err(turns_of)
}

fn turns_of(turns: Turns) -> u64 {
    let Turns { taken } = turns;
    taken
}

fn take_turns<R: Wait>(rt: &R, lock: &TurnsLock, most: u64, count: u32)
    requires { lock_key lock.now ≡ most }
{
    for _ in 0..count {
        let mut guard = lock.lock(rt);
        guard.value.take(most);
    }
}

/// Takes one turn. The yield lets the others come while it holds the lock, so that they sleep.
fn take_slow_turn<R: Wait>(rt: &R, lock: &TurnsLock, most: u64)
    requires { lock_key lock.now ≡ most }
{
    let mut guard = lock.lock(rt);
    thread::yield_now();
    guard.value.take(most);
}

fn two_take_slow_turns<R: Threads + Wait + Sync>(rt: &R, lock: &TurnsLock, most: u64)
    requires { lock_key lock.now ≡ most }
{
    thread::join(
        rt,
        || take_slow_turn(rt, lock, most),
        || take_slow_turn(rt, lock, most),
    );
}

/// Any value that may be sent makes a lock that may be shared.
fn tried_by_two<T: Send, K, P: LockRule<T, K> + Send + Sync, R: Threads + Sync>(
    rt: &R,
    lock: &KeyedLock<T, K, P>,
) -> (bool, bool) {
    thread::join(
        rt,
        || lock.try_lock().is_some(),
        || lock.try_lock().is_some(),
    )
}

#[test]
fn two_threads_lose_no_turn(rt: HostRuntime) -> Result<(), Fail> {
    let count = 20_000;
    let most = 2 * u64::from(count);
    let lock = no_turns(rt.alloc(), most)?;
    thread::join(
        &rt,
        || take_turns(&rt, &lock, most, count),
        || take_turns(&rt, &lock, most, count),
    );
    assert_eq!(rt; turns_of(lock.into_inner(&rt)), most);
    Ok(())
}

#[test]
fn a_held_lock_is_refused_to_a_try(rt: HostRuntime) -> Result<(), Fail> {
    let lock = no_turns(rt.alloc(), 1)?;
    {
        let held = lock.try_lock();
        assert!(rt; held.is_some());
        assert_eq!(rt; tried_by_two(&rt, &lock), (false, false));
    }
    assert!(rt; lock.try_lock().is_some());
    assert_eq!(rt; turns_of(lock.into_inner(&rt)), 0);
    Ok(())
}

#[test]
fn threads_that_sleep_are_all_woken(rt: HostRuntime) -> Result<(), Fail> {
    let most = 4;
    for _ in 0..200 {
        let lock = no_turns(rt.alloc(), most)?;
        thread::join(
            &rt,
            || two_take_slow_turns(&rt, &lock, most),
            || two_take_slow_turns(&rt, &lock, most),
        );
        assert_eq!(rt; turns_of(lock.into_inner(&rt)), most);
    }
    Ok(())
}
