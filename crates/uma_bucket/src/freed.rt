ghost use Rattle.std.specs.Prelude.{◌≡◌, ◌<◌, ◌^◌, [], length, ◌≤◌};
ghost use Rattle.smr_clock.specs.Belongs.{IsPassOf, clock_id};
ghost use Rattle.uma_bucket.specs.Room.{is_freed};
ghost use Rattle.uma_bucket.specs.Kept.{IsKept};
ghost use Rattle.smr_clock.specs.Goals.{number_of};
ghost use Rattle.smr_clock.specs.Notes.{note_holder};

use crate::bucket::{Bucket, BucketRefused};
use crate::shelved::Sums;
use smr_clock::laws::no_section_is_before_a_known_goal;
use smr_clock::{AdvanceRefused, Clock, Goal, Host, Note, Pass};
use std::alloc::Global;
use uma_life::{Body, Hooks, Live, Outside};

/// An item after a free in a zone whose readers hold no lock. It is built still: its `dtor` hasn't run. It becomes a
/// cached item in a ripe bucket alone.
#[derive(Drop)]
pub struct Freed<T: Body> {
    pub(crate) live: Live<T>,
}

impl<T: Body> Freed<T> {
    ghost use Rattle.uma_bucket.specs.Freed.{freed_item};

    /// The item is freed, and stays as it is.
    pub fn of(live: Live<T>) -> Freed<T>
        ensures { freed_item result ≡ live }
    {
        Freed { live }
    }
}

/// A bucket of freed items without a goal: more items may be put in.
#[derive(Drop)]
pub struct Loose<T: Body> {
    room: Vec<Outside<T>>,
    size: u32,
    pub ghost kept: { IsKept is_freed room size },
}

impl<T: Body> Loose<T> {
    ghost use Rattle.uma_bucket.specs.Bucket.{IsCountOf, IsSizeOf, items_of};
    ghost use Rattle.uma_bucket.specs.Finished.{FinishesAll};
    ghost use Rattle.uma_bucket.specs.Loose.{MakesLoose, PushesFreed, Reuses, loose_items, loose_tickets, loose_size};
    ghost use Rattle.uma_bucket.specs.Sums.{AddsItems, times_freed, AreOfAtMost};
    ghost use Rattle.uma_bucket.specs.Sealed.{SealsOrNot};

    /// An empty bucket with room for `size` items, which is 4 to 64.
    pub fn make(alloc: Global, size: u32) -> Result<Loose<T>, BucketRefused>
        ensures { MakesLoose size result }
    {
        Ok(Loose::reuse(Bucket::make(alloc, size)?))
    }

    /// An empty bucket for freed items, in the room of an empty one for cached items.
    pub fn reuse(bucket: Bucket<T>) -> Loose<T>
        requires { items_of bucket ≡ [] }
        ensures { Reuses bucket result }
    {
        let Bucket { room, size } = bucket;
        Loose { room, size }
    }

    /// Puts an item on top. Its room was taken when the bucket was made.
    pub fn push(&mut self, item: Freed<T>)
        requires { length (loose_items self.old) < loose_size self.old }
        ensures { PushesFreed self.old item self.new }
    {
        self.room.push_reserved(Outside::of_live(item.live));
    }

    /// How many items there are, at most `size`.
    pub fn len(&self) -> u32
        ensures { IsCountOf (length (loose_items self.now)) (loose_size self.now) result }
    {
        self.room.len() as u32
    }

    /// How many items there is room for, 4 to 64.
    pub fn size(&self) -> u32
        ensures { IsSizeOf (loose_size self.now) result }
    {
        self.size
    }

    /// Adds the tallies of the items, and counts them as deferred.
    pub fn add_to(&self, sums: &mut Sums)
        requires { AreOfAtMost (2 ^ 62) sums.old }
        ensures { AddsItems (λ hook. times_freed hook (loose_items self.now)) (length (loose_items self.now)) (length (loose_items self.now)) (loose_tickets self.now) sums.old sums.new }
    {
        sums.add_tallies(&self.room);
        sums.deferred += u64::from(self.len());
    }

    /// Each item passes `dtor`, in order, and stays where it lies.
    pub(crate) fn finish<K: Hooks<T>>(self, hooks: &K) -> Bucket<T>
        ensures { FinishesAll (K.leaves_dtor hooks.now) self result }
    {
        let Loose { mut room, size } = self;
        for at in 0..room.len() {
            room[at].finish(hooks);
        }
        Bucket { room, size }
    }

    /// Seals the bucket: an advance gives it its goal, and then a note of the pass is taken, which polls for it. What
    /// was unlinked before can be seen by sections before this goal alone. Where the advance is refused the bucket is
    /// back, as it was.
    pub fn seal<H: Host>(
        self,
        clock: &Clock<H>,
        pass: &mut Pass<H>,
    ) -> Result<Sealed<T, H>, (Loose<T>, AdvanceRefused)>
        requires here { IsPassOf clock.now pass.old }
        ensures { SealsOrNot clock.now H.copied pass.old self result pass.new }
    {
        // The items were unlinked before they were freed, so before this advance: only sections before its goal may still see one.
        // The note is taken after the advance, so it has seen the goal. A poll requires that, because it reads the goal by its low half.
        match clock.advance(pass) {
            Ok(goal) => {
                let note = clock.note(pass);
                Ok(Sealed {
                    loose: self,
                    goal,
                    note,
                })
            }
            Err(refused) => Err((self, refused)),
        }
    }
}

/// A bucket of freed items with the goal that has to be expired before one of them is used again, and a note that has
/// seen the goal.
#[derive(Drop)]
pub struct Sealed<T: Body, H: Host> {
    pub(crate) loose: Loose<T>,
    pub(crate) goal: Goal,
    pub(crate) note: Note<H>,
    pub ghost seen: { number_of goal ≤ (note_holder note).seen },
}

impl<T: Body, H: Host> Sealed<T, H> {
    ghost use Rattle.uma_bucket.specs.Bucket.{IsCountOf};
    ghost use Rattle.uma_bucket.specs.Loose.{loose_items, loose_tickets, loose_size};
    ghost use Rattle.uma_bucket.specs.Ripe.{IsOpened, TriesToOpen};
    ghost use Rattle.uma_bucket.specs.Sealed.{PollsBucket, sealed_bucket, IsSealedAt, KnowsExpired};
    ghost use Rattle.uma_bucket.specs.Sums.{AddsItems, times_freed, AreOfAtMost};

    /// Whether the goal is known to be expired, by one poll. The bucket stays as it is.
    pub fn poll(&mut self, clock: &Clock<H>) -> bool
        requires here { IsSealedAt (clock_id clock.now) self.old }
        ensures { PollsBucket (clock_id clock.now) self.old result self.new }
    {
        clock.poll(&mut self.note, &self.goal)
    }

    /// The bucket is ripe, once its note knows that the goal is expired.
    pub fn open(self) -> Ripe<T, H>
        requires { KnowsExpired self }
        ensures { IsOpened self result }
    {
        let Sealed { loose, goal, note } = self;
        Ripe { loose, goal, note }
    }

    /// Opens the bucket where one poll says yes. Where it says no the bucket is back, with the note's own account of
    /// that poll.
    pub fn try_open(mut self, clock: &Clock<H>) -> Result<Ripe<T, H>, Sealed<T, H>>
        requires here { IsSealedAt (clock_id clock.now) self }
        ensures { TriesToOpen (clock_id clock.now) self result }
    {
        if self.poll(clock) {
            Ok(self.open())
        } else {
            Err(self)
        }
    }

    /// How many items there are, at most `size`.
    pub fn len(&self) -> u32
        ensures { IsCountOf (length (loose_items (sealed_bucket self.now))) (loose_size (sealed_bucket self.now)) result }
    {
        self.loose.len()
    }

    /// Adds the tallies of the items, and counts them as deferred.
    pub fn add_to(&self, sums: &mut Sums)
        requires { AreOfAtMost (2 ^ 62) sums.old }
        ensures { AddsItems (λ hook. times_freed hook (loose_items (sealed_bucket self.now))) (length (loose_items (sealed_bucket self.now))) (length (loose_items (sealed_bucket self.now))) (loose_tickets (sealed_bucket self.now)) sums.old sums.new }
    {
        self.loose.add_to(sums);
    }
}

/// A bucket of freed items with a goal that is expired, as its note knows: no section that may see one of them is open.
#[derive(Drop)]
pub struct Ripe<T: Body, H: Host> {
    pub(crate) loose: Loose<T>,
    pub(crate) goal: Goal,
    pub(crate) note: Note<H>,
    pub ghost expired: { number_of goal ≤ (note_holder note).floor },
}

impl<T: Body, H: Host> Ripe<T, H> {
    ghost use Rattle.uma_bucket.specs.Finished.{BecomesCached};
    ghost use Rattle.uma_bucket.specs.Loose.{loose_items, loose_size};
    ghost use Rattle.uma_bucket.specs.Ripe.{ripe_bucket};

    /// The items may be used again: each passes `dtor`, in order, and stays where it lies. From here on no open section
    /// is before the goal. The note is what a pass takes in to know it too.
    pub fn into_cached<K: Hooks<T>>(self, hooks: &K) -> (Bucket<T>, Note<H>)
        ensures { BecomesCached (K.leaves_dtor hooks.now) self result.0 result.1 }
    {
        no_section_is_before_a_known_goal::<H>();
        let Ripe {
            loose,
            goal: _,
            note,
        } = self;
        (loose.finish(hooks), note)
    }

    /// How many items there are, at most `size`.
    pub fn len(&self) -> u32
        ensures len { result ≡ length (loose_items (ripe_bucket self.now)) }
        ensures within { result ≤ loose_size (ripe_bucket self.now) }
    {
        self.loose.len()
    }
}
