ghost use Rattle.std.specs.Prelude.{◌≡◌, ◌<◌, ◌≤◌, cond};

use deed_book::Book;
use smr_clock::{Clock, Host};
use std::snapshot::Snapshot;

/// For what a seat is made: a zone of a keg, one of the zone's memory domains, and the clock of the zone's readers.
#[derive(Drop)]
pub struct Seating<H: Host> {
    /// The clock, of which the notes of sealed buckets are.
    pub clock: Snapshot<Clock<H>>,
    /// The keg's book of numbers, of which the deeds of the items are.
    pub book: Snapshot<Book>,
    /// The zone's index in its keg.
    pub zone: u8,
    /// The seat's own domain.
    pub domain: u8,
    /// How many domains there are, at most 4.
    pub domains: u8,
    /// Whether the zone's readers hold no lock, so that its frees are deferred.
    pub smr: bool,
    pub ghost own: { domain < domains },
    pub ghost few: { domains ≤ 4 },
}

impl<H: Host> Seating<H> {
    /// How many plain buckets a seat has, one for each domain.
    pub(crate) fn plain_domains(&self) -> usize
        ensures { result ≡ cond self.now.smr 0 self.now.domains }
    {
        if self.smr {
            0
        } else {
            usize::from(self.domains)
        }
    }

    /// How many buckets of freed items a seat has, one for each domain.
    pub(crate) fn freed_domains(&self) -> usize
        ensures { result ≡ cond self.now.smr self.now.domains 0 }
    {
        if self.smr {
            usize::from(self.domains)
        } else {
            0
        }
    }
}
