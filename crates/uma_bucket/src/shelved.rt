ghost use Rattle.std.specs.Prelude.{◌^◌};
ghost use Rattle.std.specs.List.{sum_by};
ghost use Rattle.uma_bucket.specs.Room.{times_held};
ghost use Rattle.uma_bucket.specs.Sums.{IsNothing, Joins, MayAdd, Adds, AreOfAtMost};

use crate::bucket::Bucket;
use crate::freed::{Loose, Sealed};
use deed_book::Book;
use inbox::Fits;
use smr_clock::{Clock, Host};
use std::snapshot::Snapshot;
use uma_life::{Body, Outside, TallySum};

/// A full bucket on its way to the lists of a memory domain, which is named by its number.
#[derive(Drop)]
pub enum Shelved<T: Body, H: Host> {
    Plain { domain: u8, bucket: Bucket<T> },
    Loose { domain: u8, bucket: Loose<T> },
    Sealed { domain: u8, bucket: Sealed<T, H> },
}

/// What buckets hold, summed up.
#[derive(Clone, Copy, Debug, PartialEq, Eq)]
pub struct Sums {
    /// How often the items passed each hook.
    pub tally: TallySum,
    /// How many of the items are freed and haven't passed `dtor` yet.
    pub deferred: u64,
}

impl Sums {
    /// The sums of no item.
    pub fn none() -> Sums
        ensures { IsNothing result }
    {
        Sums {
            tally: TallySum::none(),
            deferred: 0,
        }
    }

    /// Adds the sums of other items.
    pub fn add_sums(&mut self, others: Sums)
        requires room { AreOfAtMost (2 ^ 62) self.old }
        requires few { AreOfAtMost (2 ^ 62) others }
        ensures { Joins self.old others self.new }
    {
        self.tally.add_sums(others.tally);
        self.deferred += others.deferred;
    }

    /// Adds the tallies of the items that lie in a room.
    pub(crate) fn add_tallies<T: Body>(&mut self, room: &Vec<Outside<T>>)
        requires { MayAdd self.old room.now }
        ensures { Adds (λ hook. sum_by (times_held hook) room.now.items) 0 self.old self.new }
    {
        for item in room {
            self.tally.add(item.tally());
        }
    }
}

/// What the buckets of an inbox have in common: the clock of the sealed ones' notes, and where all items are at home.
#[derive(Drop)]
pub struct InboxKey<H: Host> {
    pub clock: Snapshot<Clock<H>>,
    pub book: Snapshot<Book>,
    /// The zone's number in its keg.
    pub zone: u8,
    /// How many domains the zone has.
    pub domains: u8,
}

/// Each bucket of an inbox may be listed by the domain whose inbox it is.
pub struct ShelvedOfKey;

impl<T: Body, H: Host> Fits<Shelved<T, H>, InboxKey<H>> for ShelvedOfKey {
    ghost use Rattle.uma_bucket.specs.Inboxes.{key_clock, key_home};
    ghost use Rattle.uma_bucket.specs.Shelved.{CanBeListed};

    ghost fits = { λ key shelved. CanBeListed (key_home key) (key_clock key) shelved };
}

/// The full buckets that seats hand to a memory domain without its lock.
pub type Inbox<T, H> = inbox::Inbox<Shelved<T, H>, InboxKey<H>, ShelvedOfKey>;

/// A seat's way into a domain's inbox.
pub type Port<T, H> = inbox::Port<Shelved<T, H>, InboxKey<H>>;

/// The one way out of a domain's inbox.
pub type Taker<T, H> = inbox::Taker<Shelved<T, H>, InboxKey<H>>;
