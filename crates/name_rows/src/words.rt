ghost use Rattle.std.specs.Prelude.{◌≡◌, ◌<◌, [], ◌∷◌, true, IfErr, OnOk};
ghost use Rattle.smr_clock.specs.Notes.{IsSeatOf, seat_knows};
ghost use Rattle.name_rows.specs.Ripening.{is_loose, StampsAt, StampsIfUnlinked, LoadsReadHand, IsRipe, IsUnripe};
ghost use Rattle.name_rows.specs.Writing.{keyed, valued, ripe_state};

use crate::entry::{EntryState, Owned};
use crate::names::{Names, key_place, value_place};
use crate::writing::Unripe;
use smr_clock::{Clock, HostAct, HostPlay, HostSeat};
use smr_core::hands::{READ_PLACE, WRITE_PLACE};

/// The store of a key word.
struct WritesKey;

impl HostPlay<Names> for WritesKey {
    ghost use Rattle.name_rows.specs.Writing.{writes_key};

    ghost changes = { writes_key };
}

/// The store of a value word.
struct WritesValue;

impl HostPlay<Names> for WritesValue {
    ghost use Rattle.name_rows.specs.Writing.{writes_value};

    ghost changes = { writes_value };
}

/// A load of the write sequence, which stamps.
struct Stamps;

impl HostPlay<Names> for Stamps {
    ghost use Rattle.name_rows.specs.Writing.{stamps};

    ghost changes = { stamps };
}

/// A load of the read sequence, which cleans.
struct Ripens;

impl HostPlay<Names> for Ripens {
    ghost use Rattle.name_rows.specs.Writing.{ripens};

    ghost changes = { ripens };
}

/// The seat of an entry that is in no row, and what it knows of the entry.
#[derive(Drop)]
pub struct Words {
    pub(crate) seat: HostSeat<Names>,
    pub(crate) kept: Owned,
    ghost no_rows: { (seat_knows seat).host.rows ≡ [] },
    ghost owns: { (seat_knows seat).host.owned ≡ kept ∷ [] },
    ghost below: { kept.entry < (seat_knows seat).setup.plan.1 },
    ghost loose: { is_loose kept.state ≡ true },
}

impl Words {
    ghost use Rattle.name_rows.specs.Entries.{CanWriteWords, CanStampWords, CanRipenWords, KeepsEntry};

    /// Writes both words of a clean entry.
    pub(crate) fn write(&mut self, clock: &Clock<Names>, key: u64, value: u64)
        requires { CanWriteWords clock.now self.old }
        ensures same { KeepsEntry clock.now self.old self.new }
        ensures kept { self.new.kept ≡ valued value (keyed key self.old.kept) }
    {
        self.write_key(clock, key);
        self.write_value(clock, value);
    }

    fn write_key(&mut self, clock: &Clock<Names>, key: u64)
        requires { CanWriteWords clock.now self.old }
        ensures same { KeepsEntry clock.now self.old self.new }
        ensures kept { self.new.kept ≡ keyed key self.old.kept }
    {
        let place = key_place(clock, self.kept.entry);
        clock.seat_step::<WritesKey>(&mut self.seat, place, HostAct::Store { value: key });
        self.kept.key = key;
    }

    fn write_value(&mut self, clock: &Clock<Names>, value: u64)
        requires { CanWriteWords clock.now self.old }
        ensures same { KeepsEntry clock.now self.old self.new }
        ensures kept { self.new.kept ≡ valued value self.old.kept }
    {
        let place = value_place(clock, self.kept.entry);
        clock.seat_step::<WritesValue>(&mut self.seat, place, HostAct::Store { value });
        self.kept.value = value;
        self.kept.state = EntryState::Written;
    }

    /// Stamps an unlinked entry: two above the write sequence that it loads.
    pub(crate) fn stamp(&mut self, clock: &Clock<Names>)
        requires { CanStampWords clock.now self.old }
        ensures same { KeepsEntry clock.now self.old self.new }
        ensures stamped { StampsAt (seat_knows self.old.seat) self.old.kept (seat_knows self.new.seat) self.new.kept }
    {
        // The entry was unlinked before this load of the write sequence, so a section that found it has a mark of at most that hand, which is
        // below the stamp. Once the read sequence has reached the stamp no such section is open, and the entry may be written again.
        let write = clock.seat_step::<Stamps>(&mut self.seat, WRITE_PLACE as u32, HostAct::Load);
        self.kept.state = EntryState::Stamped { goal: write + 2 };
    }

    fn stamp_unlinked(&mut self, clock: &Clock<Names>)
        requires here { IsSeatOf clock.now self.old.seat }
        ensures same { KeepsEntry clock.now self.old self.new }
        ensures stamped { StampsIfUnlinked (seat_knows self.old.seat) self.old.kept (seat_knows self.new.seat) self.new.kept }
    {
        if self.kept.state == EntryState::Unlinked {
            self.stamp(clock);
        }
    }

    // The read sequence that it loads. The entry is clean after it where it has no stamp that is above that hand.
    fn load_read_hand(&mut self, clock: &Clock<Names>) -> u64
        requires { CanRipenWords clock.now self.old }
        ensures same { KeepsEntry clock.now self.old self.new }
        ensures loaded { LoadsReadHand result (seat_knows self.old.seat) self.old.kept (seat_knows self.new.seat) self.new.kept }
    {
        let read = clock.seat_step::<Ripens>(&mut self.seat, READ_PLACE as u32, HostAct::Load);
        self.kept.state = ripe_state(self.kept.state, read);
        read
    }

    /// Cleans an entry that no section may still read.
    pub(crate) fn ripe(&mut self, clock: &Clock<Names>) -> Result<(), Unripe>
        requires here { IsSeatOf clock.now self.old.seat }
        ensures same { KeepsEntry clock.now self.old self.new }
        ensures ripe { OnOk result (IsRipe (seat_knows self.old.seat) self.old.kept (seat_knows self.new.seat) self.new.kept) }
        ensures unripe { IfErr result (λ unripe. IsUnripe unripe (seat_knows self.old.seat) self.old.kept (seat_knows self.new.seat) self.new.kept) }
    {
        self.stamp_unlinked(clock);
        let read = self.load_read_hand(clock);
        match self.kept.state {
            EntryState::Stamped { goal } => Err(Unripe { read, stamp: goal }),
            _ => Ok(()),
        }
    }
}

// The state of an entry after a load of the read sequence.
fn ripe_state(state: EntryState, read: u64) -> EntryState
    ensures { result ≡ ripe_state read state }
{
    match state {
        EntryState::Stamped { goal } if read < goal => state,
        EntryState::Linked { row: _, version: _ } | EntryState::Unlinked => state,
        _ => EntryState::Clean,
    }
}
