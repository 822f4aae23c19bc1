ghost use Rattle.std.specs.Prelude.{◌≡◌, ◌≤◌, ◌<◌, ◌+◌, ◌^◌, [], ◌∷◌, map, is_some, Some, IfSome, IfNone};
ghost use Rattle.name_rows.specs.Rows.{IsRowOf, row_last};
ghost use Rattle.name_rows.specs.declared.root.Guest.{Guest};
ghost use Rattle.name_cache.specs.LinkedItem.{IsLinkedAs, CanRejoin, AreRejoined};
ghost use Rattle.name_cache.specs.RowKey.{key_identity};
ghost use Rattle.name_cache.specs.declared.locked_row.LinkedItem.{LinkedItem};

use crate::Home;
use crate::binding::{BindRefused, Rebound, Receipt};
use crate::key::RowKey;
use crate::parts::EntryParts;
use keyed_lock::{KeyedLock, LockRule};
use name_rows::{Entry, Names, Row, Unripe, link, meet, unlink};
use smr_clock::{Clock, Pass};
use std::snapshot::Snapshot;
use std::sync::Arc;
use uma_bucket::Sums;
use uma_life::{Body, Tally, Ticket};

/// What a row keeps of its linked entry beside the words, which the row of names has: all that the entry is as an item of
/// the zone.
#[derive(Drop)]
pub(crate) struct LinkedItem {
    pub ticket: Ticket,
    /// The home to which the entry goes back.
    pub home: Arc<Home>,
    /// How often it passed each hook. It passes none while it is linked.
    pub tally: Tally,
}

/// The row is the one that the key names.
pub(crate) struct RowOfKey;

impl LockRule<LockedRow, RowKey> for RowOfKey {
    ghost use Rattle.std.specs.Prelude.{◌≡◌};
    ghost use Rattle.name_cache.specs.RowKey.{key_identity};
    ghost use Rattle.name_cache.specs.LockedRow.{row_identity};

    ghost keeps = { λ key row. row_identity row ≡ key_identity key };
}

pub(crate) type RowLock = KeyedLock<LockedRow, RowKey, RowOfKey>;

/// The least version at which a row takes no further name.
const WORN: u64 = (1 << 44) - 2;

/// What a row's lock keeps: the row of names, and what its linked entry is as an item of the zone. Outside of this file it
/// changes by `bind`, `unbind` and `take` alone, which tell the pass of each record that they make.
///
/// What always holds: the row is of the key's clock, and has the key's number, as its last record has, and no version below
/// the key's. There is a ticket exactly where there is a linked entry. That entry is built and stands on its trail, with the
/// number of its ticket, which is at home in the key's zone; its words are of the key's clock. A row that names an entry can
/// go on by one version.
#[derive(Drop)]
pub(crate) struct LockedRow {
    row: Row,
    linked: Option<LinkedItem>,
    key: Snapshot<RowKey>,
    ghost here: { IsRowOf key.value.clock.value row },
    ghost number: { row.number ≡ key.value.number },
    ghost since: { key.value.version ≤ row.version },
    ghost of_row: { map (λ last. last.row) (row_last row) ≡ row.number ∷ [] },
    ghost paired: { is_some linked ≡ is_some row.guest },
    ghost fits: { (guest : Guest) (item : LinkedItem) → row.guest ≡ Some guest → linked ≡ Some item → IsLinkedAs (key_identity key.value).clock (key_identity key.value).home guest item },
    ghost low: { (guest : Guest) → row.guest ≡ Some guest → row.version + 1 < 2 ^ 44 },
}

impl LockedRow {
    ghost use Rattle.smr_clock.specs.Belongs.{view};
    ghost use Rattle.uma_life.specs.Hook.{Hook};
    ghost use Rattle.uma_life.specs.Sum.{sum_of, AreBelow};
    ghost use Rattle.name_cache.specs.Rebound.{KeepsRowAndPass, MeetsOn, TakesEntry};
    ghost use Rattle.name_cache.specs.LockedRow.{row_identity, names_row, IsNamedBy, KeepsUnder, IsRowClock, IsRowPass, CanBind, CanLink, LinksInRow, UnlinksInRow, IsStamped, HasItemOf, RebindsRow, GivesOut, HasNotKey};
    ghost use Rattle.name_cache.specs.Parts.{CanStamp};
    ghost use Rattle.name_cache.specs.Sums.{AddsLinked};

    /// An empty row, which the key names.
    pub fn new(row: Row, key: &RowKey) -> LockedRow
        requires { IsNamedBy key.now row }
        ensures { KeepsUnder key.now row result }
    {
        LockedRow {
            row,
            linked: None,
            key: Snapshot::of(key),
        }
    }

    // The pass knows the row's last record then, and knew none of the row that is newer.
    fn meet(&mut self, clock: &Clock<Names>, pass: &mut Pass<Names>)
        requires here { IsRowPass self.old clock.now pass.old }
        ensures { MeetsOn clock.now self.old self.new pass.old pass.new }
    {
        meet(clock, &mut self.row, pass);
    }

    /// Binds a key of this row to a value, by an entry of the zone. The entry has to be ripe, and then the row not worn; it
    /// is written, and linked by one store of the row's word. What the row bound before is stamped. However it ends, the pass
    /// knows the row's last record then, and none that is newer.
    pub fn bind(
        &mut self,
        clock: &Clock<Names>,
        pass: &mut Pass<Names>,
        mut parts: EntryParts,
        key: u64,
        value: u64,
    ) -> Rebound
        requires here { IsRowPass self.old clock.now pass.old }
        requires binds { CanBind clock.now self.old parts key }
        ensures ends { RebindsRow key value (view pass.old) self.old parts result self.new (view pass.new) }
        ensures out { HasItemOf (row_identity self.old).clock (row_identity self.old).home result }
        ensures kept { KeepsRowAndPass clock.now self.old self.new pass.old pass.new }
    {
        self.meet(clock, pass);
        if let Err(Unripe { read, stamp }) = parts.ripe(clock) {
            let refused = BindRefused::Unripe { read, stamp };
            return Rebound::Refused {
                entry: parts,
                refused,
            };
        }
        let row = self.row.number();
        let version = self.row.version();
        if version >= WORN {
            let refused = BindRefused::Worn { row, version };
            return Rebound::Refused {
                entry: parts,
                refused,
            };
        }
        parts.write(clock, key, value);
        let evicted = Self::stamped(clock, self.link(clock, parts));
        self.meet(clock, pass);
        let version = self.row.version();
        Rebound::Done {
            receipt: Receipt { row, version },
            evicted,
        }
    }

    /// Takes the key out of this row, if the row binds it. Answers its value, and the entry, which is stamped. The pass knows
    /// the row's last record then, and none that is newer.
    pub fn unbind(
        &mut self,
        clock: &Clock<Names>,
        pass: &mut Pass<Names>,
        key: u64,
    ) -> Option<(u64, Receipt, EntryParts)>
        requires here { IsRowPass self.old clock.now pass.old }
        ensures unbound { IfSome result (λ (value, receipt, out). GivesOut key value (view pass.old) self.old receipt out self.new (view pass.new)) }
        ensures none { IfNone result (HasNotKey key (view pass.old) self.old self.new (view pass.new)) }
        ensures kept { KeepsRowAndPass clock.now self.old self.new pass.old pass.new }
    {
        self.meet(clock, pass);
        if self.row.key() != Some(key) {
            return None;
        }
        let value = self.row.value()?;
        let mut out = self.take(clock, pass)?;
        out.stamp(clock);
        let row = self.row.number();
        let version = self.row.version();
        Some((value, Receipt { row, version }, out))
    }

    // The entry that a row gave out, with a stamp.
    fn stamped(clock: &Clock<Names>, out: Option<EntryParts>) -> Option<EntryParts>
        requires { IfSome out (CanStamp clock.now) }
        ensures { IsStamped out result }
    {
        let mut out = out?;
        out.stamp(clock);
        Some(out)
    }

    // Links a written entry, with the next version. The entry that was there is out, unlinked and without a stamp.
    fn link(&mut self, clock: &Clock<Names>, parts: EntryParts) -> Option<EntryParts>
        requires { CanLink clock.now self.old parts }
        ensures { LinksInRow self.old parts result self.new }
    {
        let EntryParts {
            entry,
            home,
            ticket,
        } = parts;
        let tally = entry.tally();
        let (_version, out) = link(clock, &mut self.row, entry);
        let item = self.linked.replace(LinkedItem {
            ticket,
            home,
            tally,
        });
        rejoined(out, item)
    }

    /// Unlinks the row's entry, and tells the pass. It is out, unlinked and without a stamp. An empty row stays as it is.
    pub fn take(&mut self, clock: &Clock<Names>, pass: &mut Pass<Names>) -> Option<EntryParts>
        requires here { IsRowPass self.old clock.now pass.old }
        ensures { TakesEntry clock.now self.old result self.new pass.old pass.new }
    {
        let out = self.unlink(clock);
        self.meet(clock, pass);
        out
    }

    // Unlinks the row's entry, with the next version. It is out, unlinked and without a stamp. An empty row stays as it is.
    fn unlink(&mut self, clock: &Clock<Names>) -> Option<EntryParts>
        requires here { IsRowClock self.old clock.now }
        ensures { UnlinksInRow self.old result self.new }
    {
        if self.linked.is_none() {
            return None;
        }
        let out = unlink(clock, &mut self.row);
        rejoined(out, self.linked.take())
    }

    /// Adds the tally of the linked entry, if there is one.
    pub fn add_to(&self, sums: &mut Sums)
        requires { AreBelow (2 ^ 127) sums.old.tally }
        ensures { AddsLinked (names_row self.now).guest sums.old sums.new }
    {
        if let Some(item) = &self.linked {
            sums.tally.add(item.tally);
        }
    }
}

// The parts of the entry that a row gave out.
fn rejoined(entry: Option<Entry>, item: Option<LinkedItem>) -> Option<EntryParts>
    requires { CanRejoin entry item }
    ensures { AreRejoined entry item result }
{
    let entry = entry?;
    let Some(item) = item else { unreachable!() };
    let LinkedItem {
        ticket,
        home,
        tally: _,
    } = item;
    Some(EntryParts {
        entry,
        home,
        ticket,
    })
}
