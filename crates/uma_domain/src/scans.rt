ghost use Rattle.smr_clock.specs.Belongs.{clock_id, view};
ghost use Rattle.uma_domain.specs.Tries.{CanTryEach, SealsEach, StaysTried};
ghost use Rattle.std.specs.Prelude.{All};
ghost use Rattle.uma_bucket.specs.Sealed.{IsSealedAt};
ghost use Rattle.uma_domain.specs.Scans.{CanTryAt, LeavesTried, ScansForRipe, TriesAt};
ghost use Rattle.uma_domain.specs.Trim.{CanTrimSealed, IsNoLonger, TrimsSealedInto};

use crate::trims::TakenBucket;
use smr_clock::{Clock, Host, Pass};
use std::collections::VecDeque;
use uma_bucket::{Loose, Ripe, Sealed};
use uma_life::Body;

/// Each loose bucket tries once to be sealed, oldest first. What was sealed is the newest sealed, and the others stay.
/// Answers how many were sealed.
pub(crate) fn seal_each<T: Body, H: Host>(
    loose: &mut VecDeque<Loose<T>>,
    sealed: &mut VecDeque<Sealed<T, H>>,
    clock: &Clock<H>,
    pass: &mut Pass<H>,
) -> u32
    requires { CanTryEach clock.now pass.old loose.old sealed.old }
    ensures tried { SealsEach H.copied (clock_id clock.now) (view pass.old) loose.old.items sealed.old.items result loose.new.items sealed.new.items (view pass.new) }
    ensures stays { StaysTried clock.now pass.old pass.new loose.new sealed.new }
{
    let mut count = 0;
    for _ in 0..loose.len() {
        let Some(bucket) = loose.pop_front() else {
            unreachable!()
        };
        match bucket.seal(clock, pass) {
            Ok(bucket) => {
                sealed.push_back_reserved(bucket);
                count += 1;
            }
            Err((bucket, _)) => loose.push_back_reserved(bucket),
        }
    }
    count
}

/// Polls the bucket at this place once. Where that says yes it is taken and ripe, and else it stays there.
fn take_if_ripe<T: Body, H: Host>(
    sealed: &mut VecDeque<Sealed<T, H>>,
    at: usize,
    clock: &Clock<H>,
) -> Option<Ripe<T, H>>
    requires { CanTryAt (clock_id clock.now) sealed.old at }
    ensures tried { TriesAt sealed.old.items at result sealed.new.items }
    ensures leaves { LeavesTried (clock_id clock.now) sealed.old result sealed.new }
{
    if !sealed[at].poll(clock) {
        return None;
    }
    let bucket = sealed.remove(at)?;
    Some(bucket.open())
}

/// Takes the oldest bucket whose poll says yes. Those behind it aren't polled.
pub(crate) fn take_first_ripe<T: Body, H: Host>(
    sealed: &mut VecDeque<Sealed<T, H>>,
    clock: &Clock<H>,
) -> Option<Ripe<T, H>>
    requires { All (IsSealedAt (clock_id clock.now)) sealed.old.items }
    ensures { ScansForRipe sealed.old result sealed.new }
{
    for at in 0..sealed.len() {
        if let Some(ripe) = take_if_ripe(sealed, at, clock) {
            return Some(ripe);
        }
    }
    None
}

/// Takes the buckets whose poll says yes, oldest first, and stops before the first whose removal would leave fewer items
/// than the floor. Answers how many items remain.
pub(crate) fn trim_sealed<T: Body, H: Host>(
    sealed: &mut VecDeque<Sealed<T, H>>,
    clock: &Clock<H>,
    floor: u64,
    mut remain: u64,
    taken: &mut VecDeque<TakenBucket<T, H>>,
) -> u64
    requires { CanTrimSealed (clock_id clock.now) sealed.old remain taken.old }
    ensures trimmed { TrimsSealedInto floor remain sealed.old.items taken.old.items result sealed.new.items taken.new.items }
    ensures shorter { IsNoLonger sealed.old sealed.new }
{
    let mut at = 0;
    while at < sealed.len() {
        let len = u64::from(sealed[at].len());
        if remain - len < floor {
            return remain;
        }
        match take_if_ripe(sealed, at, clock) {
            Some(bucket) => {
                taken.push_back_reserved(TakenBucket::Ripe { bucket });
                remain -= len;
            }
            None => at += 1,
        }
    }
    remain
}
