ghost use Rattle.std.specs.Prelude.{◌≡◌, Some, IfErr, OnOk};
ghost use Rattle.std.specs.Arc.{arc_value};
ghost use Rattle.smr_clock.specs.Belongs.{clock_id};
ghost use Rattle.smr_clock.specs.Notes.{IsSeatOf};
ghost use Rattle.uma_life.specs.Ticket.{ticket_no, ticket_zone, ticket_table};
ghost use Rattle.uma_life.specs.Trail.{IsAt};
ghost use Rattle.uma_life.specs.declared.tally.BodyPhase.TheVariants.{Built};
ghost use Rattle.name_rows.specs.Entries.{entry_life};
ghost use Rattle.name_rows.specs.declared.words.Words.{Words};
ghost use Rattle.name_cache.specs.Homes.{home_clock, home_origin};

use crate::{Home, RaisedEntry};
use name_rows::{Entry, Names, Unripe, ripe, stamp, write};
use smr_clock::Clock;
use std::sync::Arc;
use uma_life::{Live, Ticket};

/// A live item of the zone of entries in its parts: so its words may be written, and it may go into a row.
#[derive(Drop)]
pub(crate) struct EntryParts {
    pub entry: Entry,
    pub home: Arc<Home>,
    pub ticket: Ticket,
    ghost ours: { (words : Words) → entry.words ≡ Some words → IsSeatOf (home_clock (arc_value home)) words.seat },
    ghost numbered: { (entry_life entry).no ≡ ticket_no ticket },
    ghost built: { IsAt (Built (ticket_zone ticket)) (entry_life entry) },
    ghost of_origin: { home_origin (arc_value home) ≡ (ticket_table ticket).origin },
}

impl EntryParts {
    ghost use Rattle.name_rows.specs.Entries.{OnWords};
    ghost use Rattle.name_rows.specs.Ripening.{StampsAt, IsUnripe};
    ghost use Rattle.name_rows.specs.Writing.{Writes};
    ghost use Rattle.name_cache.specs.Parts.{parts_clock, ArePartsOf, CanWrite, CanStamp, ChangesWords, IsCleaned, IsSameItem};

    /// The parts of an item.
    pub fn of(live: Live<RaisedEntry>) -> EntryParts
        ensures { ArePartsOf live result }
    {
        let (raised, ticket) = live.into_parts();
        let (entry, home) = raised.into_parts();
        EntryParts {
            entry,
            home,
            ticket,
        }
    }

    /// The item of these parts.
    pub fn into_live(self) -> Live<RaisedEntry>
        ensures { ArePartsOf result self }
    {
        let EntryParts {
            entry,
            home,
            ticket,
        } = self;
        Live::from_parts(RaisedEntry::from_parts(entry, home), ticket)
    }

    /// Cleans the entry, where no section may still read it.
    pub fn ripe(&mut self, clock: &Clock<Names>) -> Result<(), Unripe>
        requires here { parts_clock self.old ≡ clock_id clock.now }
        ensures cleaned { OnOk result (IsCleaned self.old self.new) }
        ensures unripe { IfErr result (λ unripe. OnWords (IsUnripe unripe) self.old.entry.words self.new.entry.words) }
        ensures same { IsSameItem self.old self.new }
    {
        ripe(clock, &mut self.entry)
    }

    /// Writes the words of a clean entry.
    pub fn write(&mut self, clock: &Clock<Names>, key: u64, value: u64)
        requires { CanWrite clock.now self.old }
        ensures { ChangesWords (Writes key value) self.old self.new }
    {
        write(clock, &mut self.entry, key, value);
    }

    /// Stamps an unlinked entry.
    pub fn stamp(&mut self, clock: &Clock<Names>)
        requires { CanStamp clock.now self.old }
        ensures { ChangesWords StampsAt self.old self.new }
    {
        stamp(clock, &mut self.entry);
    }
}
