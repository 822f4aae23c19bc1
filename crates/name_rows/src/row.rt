ghost use Rattle.std.specs.Prelude.{◌≡◌, ◌≤◌, ◌<◌, ◌^◌, Some};
ghost use Rattle.smr_clock.specs.Notes.{seat_knows};
ghost use Rattle.name_rows.specs.Guests.{content_of, next_no};
ghost use Rattle.name_rows.specs.Linking.{last_seen, linked_in};

use crate::names::Names;
use crate::root::Guest;
use smr_clock::HostSeat;

/// A row: the owner of its word, and of the entry that the word names.
#[derive(Drop)]
pub struct Row {
    pub(crate) seat: HostSeat<Names>,
    pub(crate) number: u32,
    pub(crate) version: u64,
    pub(crate) guest: Option<Guest>,
    ghost seen: { last_seen (seat_knows seat).host.rows ≡ Some (number, version, content_of guest) },
    ghost owned: { (seat_knows seat).host.owned ≡ linked_in number version (content_of guest) },
    ghost in_range: { number < (seat_knows seat).setup.plan.0 },
    ghost fits: { next_no guest ≤ (seat_knows seat).setup.plan.1 },
    ghost low: { version < 2 ^ 44 },
}

impl Row {
    ghost use Rattle.name_rows.specs.Rows.{key_in, value_in, IsVersionOf};

    /// Returns the row's number.
    pub fn number(&self) -> u32
        ensures { result ≡ self.now.number }
    {
        self.number
    }

    /// Returns the version of the row's last record, below 2^44.
    pub fn version(&self) -> u64
        ensures { IsVersionOf self.now result }
    {
        self.version
    }

    /// Returns the key that the row's last record binds.
    pub fn key(&self) -> Option<u64>
        ensures { result ≡ key_in self.now.guest }
    {
        match &self.guest {
            Some(guest) => Some(guest.key),
            None => None,
        }
    }

    /// Returns the value that the row's last record binds to the key.
    pub fn value(&self) -> Option<u64>
        ensures { result ≡ value_in self.now.guest }
    {
        match &self.guest {
            Some(guest) => Some(guest.value),
            None => None,
        }
    }
}
