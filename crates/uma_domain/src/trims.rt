ghost use Rattle.std.specs.Prelude.{◌≡◌, [], ◌∷◌, length, IfOk, IfSome, IfNone};
ghost use Rattle.smr_clock.specs.Belongs.{clock_id};
ghost use Rattle.uma_domain.specs.Trim.{CanTakeCandidates, LeavesItems, Trims, HasRoomFor, StaysWithin, TrimsPlainInto};
ghost use Rattle.uma_domain.specs.Listed.{plain_len};
ghost use Rattle.uma_domain.specs.Giving.{GivesOwn, TakesCandidates, TrimsUnused};
ghost use Rattle.uma_domain.specs.Lists.{lists_identity};

use crate::lists::{Lists, Working};
use crate::scans::trim_sealed;
use deed_book::Memory;
use smr_clock::{Clock, Host};
use std::alloc::{AllocError, Global};
use std::collections::VecDeque;
use uma_bucket::{Bucket, Ripe, Sealed};
use uma_life::Body;

/// A bucket that a domain gave back.
#[derive(Drop)]
pub enum TakenBucket<T: Body, H: Host> {
    Plain { bucket: Bucket<T> },
    Ripe { bucket: Ripe<T, H> },
}

/// The buckets that a domain gave back, in the order in which they were taken.
#[derive(Drop)]
pub struct Taken<T: Body, H: Host> {
    pub(crate) buckets: VecDeque<TakenBucket<T, H>>,
}

impl<T: Body, H: Host> Taken<T, H> {
    ghost use Rattle.uma_domain.specs.Taken.{taken_in, IsEmptyFor};

    /// An empty list with room for so many buckets.
    pub(crate) fn with_room(alloc: Global, buckets: usize) -> Result<Taken<T, H>, AllocError>
        ensures { IfOk result (IsEmptyFor buckets) }
    {
        Ok(Taken {
            buckets: VecDeque::with_capacity(alloc, buckets)?,
        })
    }

    /// The first of the buckets that are left. None exactly where none is left.
    pub fn pop(&mut self) -> Option<TakenBucket<T, H>>
        ensures first { IfSome result (λ bucket. taken_in self.old ≡ bucket ∷ taken_in self.new) }
        ensures none { IfNone result ((taken_in self.old ≡ []) × (taken_in self.new ≡ [])) }
    {
        self.buckets.pop_front()
    }

    /// How many buckets are left.
    pub fn len(&self) -> usize
        ensures { result ≡ length (taken_in self.now) }
    {
        self.buckets.len()
    }

    /// Ends a list of which no bucket is left.
    pub fn end(self)
        requires { taken_in self ≡ [] }
    {
        let Taken { buckets } = self;
        buckets.destroy_empty();
    }
}

/// Takes the candidates, oldest first, while the items that remain are at least the floor: the plain buckets, and then the
/// sealed ones whose poll says yes. Answers how many items remain.
pub(crate) fn take_candidates<T: Body, H: Host>(
    plain: &mut VecDeque<Bucket<T>>,
    sealed: &mut VecDeque<Sealed<T, H>>,
    clock: &Clock<H>,
    floor: u64,
    remain: u64,
    taken: &mut VecDeque<TakenBucket<T, H>>,
) -> u64
    requires { CanTakeCandidates (clock_id clock.now) plain.old sealed.old remain taken.old }
    ensures trims { Trims floor remain plain.old.items sealed.old.items taken.new.items plain.new.items sealed.new.items }
    ensures leaves { LeavesItems remain plain.old sealed.old result plain.new sealed.new }
{
    let left = trim_plain(plain, floor, remain, taken);
    if !plain.is_empty() {
        return left;
    }
    trim_sealed(sealed, clock, floor, left, taken)
}

/// Takes the oldest buckets, and stops before the first whose removal would leave fewer items than the floor. Answers how
/// many items remain.
pub(crate) fn trim_plain<T: Body, H: Host>(
    plain: &mut VecDeque<Bucket<T>>,
    floor: u64,
    mut remain: u64,
    taken: &mut VecDeque<TakenBucket<T, H>>,
) -> u64
    requires { HasRoomFor plain_len plain.old remain taken.old }
    ensures trimmed { TrimsPlainInto floor remain plain.old.items taken.old.items result plain.new.items taken.new.items }
    ensures within { StaysWithin plain.old taken.old plain.new taken.new }
{
    for _ in 0..plain.len() {
        let len = u64::from(plain[0].len());
        if remain - len < floor {
            return remain;
        }
        let Some(bucket) = plain.pop_front() else {
            unreachable!()
        };
        taken.push_back_reserved(TakenBucket::Plain { bucket });
        remain -= len;
    }
    remain
}

/// What a domain gives back.
impl<T: Body, H: Host> Lists<T, H> {
    /// Takes what the domain didn't use since the last trim: the candidates, oldest first, while the items that remain are
    /// at least the working set. Then a new interval begins. The candidates are the plain buckets, and then the sealed ones
    /// whose poll in this call says yes; one that is kept for the working set isn't polled. Where memory is wanting nothing
    /// changes, since the room for all buckets is taken first.
    pub fn take_trim(&mut self, alloc: Global, clock: &Clock<H>) -> Result<Taken<T, H>, Memory>
        requires { clock_id clock.now ≡ (lists_identity self.old).clock }
        ensures trimmed { IfOk result (λ taken. TrimsUnused self.old taken self.new) }
        ensures own { GivesOwn self.old result self.new }
    {
        let room = self.plain.len() + self.sealed.len();
        let mut taken = Taken::with_room(alloc, room)?;
        let (floor, count) = (self.working.set(), self.working.count);
        let left = take_candidates(
            &mut self.plain,
            &mut self.sealed,
            clock,
            floor,
            count,
            &mut taken.buckets,
        );
        self.working = Working::at(left);
        Ok(taken)
    }

    /// Takes every candidate, oldest first. Where memory is wanting nothing changes, since the room for all buckets is
    /// taken first.
    pub fn take_all(&mut self, alloc: Global, clock: &Clock<H>) -> Result<Taken<T, H>, Memory>
        requires { clock_id clock.now ≡ (lists_identity self.old).clock }
        ensures all { IfOk result (λ taken. TakesCandidates self.old taken self.new) }
        ensures own { GivesOwn self.old result self.new }
    {
        let room = self.plain.len() + self.sealed.len();
        let mut taken = Taken::with_room(alloc, room)?;
        let count = self.working.count;
        let left = take_candidates(
            &mut self.plain,
            &mut self.sealed,
            clock,
            0,
            count,
            &mut taken.buckets,
        );
        self.working = self.working.moved_to(left);
        Ok(taken)
    }
}
