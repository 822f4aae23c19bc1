ghost use Rattle.std.specs.Prelude.{◌≡◌, ◌<◌, ◌+◌, slice_index_or, slice_set, OnOk, IfErr, None, IfOk, IfSome, length};
ghost use Rattle.smr_hold.specs.declared.publishing.SlotCause.TheVariants.{Current};
ghost use Rattle.smr_objects.specs.CellViews.{IsCellOf, cell_view};
ghost use Rattle.smr_objects.specs.OwnerCalls.{OwnsSlot, MayStamp, OwnsCell};
ghost use Rattle.smr_hold.specs.Publishing.{SettlesStamp, SlotFrees, SlotWaits, MayPut, FindsFree, Publishes, PutsNext, RefusesPublish, Waits};
ghost use Rattle.smr_clock.specs.Belongs.{setup_of};
ghost use Rattle.smr_hold.specs.Causes.{cause_at};

use smr_clock::Clock;
use smr_objects::laws::stamped_slots_stand;
use smr_objects::{
    Cell, Objects, close_slot, load_read, open_slot, stamp_slot, switch_to, write_value,
};

/// Why nothing was published.
#[derive(Clone, Copy, Debug)]
pub enum PublishRefused {
    /// The cell's version is the greatest, 2^44 - 1.
    Worn { version: u64 },
    /// No slot could be used.
    Crowded { causes: SlotCauses },
}

/// Why a slot couldn't be used.
#[derive(Clone, Copy, Debug, PartialEq, Eq)]
pub enum SlotCause {
    /// It is the current one.
    Current,
    /// The read sequence is below its stamp: a section that may still read it may be open.
    Unripe { read: u64, stamp: u64 },
    /// So many holds are on it.
    Held { holds: u64 },
}

/// One cause a slot, by number, in a room of sixteen.
#[derive(Clone, Copy, Debug)]
pub struct SlotCauses {
    pub(crate) causes: [SlotCause; 16],
    pub(crate) count: u32,
}

impl SlotCauses {
    /// Returns the count of slots, 2 to 16.
    pub fn count(&self) -> u32
        ensures { result ≡ self.now.count }
    {
        self.count
    }

    /// Returns why a slot couldn't be used: `Current`, `Unripe { read, stamp }` or `Held { holds }`.
    ///
    /// # Arguments
    ///
    /// - `slot`: the number of the slot, below 16.
    pub fn cause(&self, slot: u32) -> SlotCause
        requires slot { slot < 16 }
        ensures { result ≡ cause_at self.now slot }
    {
        self.causes[slot as usize]
    }
}

/// The stamp of a slot that is neither closed nor current. Where it has none it is stamped first.
pub(crate) fn settle_stamp(clock: &Clock<Objects>, cell: &mut Cell, slot: u32) -> u64
    requires { MayStamp clock.now cell.old slot }
    ensures here { IsCellOf clock.now cell.new }
    ensures settles { SettlesStamp slot (cell_view cell.old) (cell_view cell.new) result }
{
    if let Some(stamp) = cell.stamp(slot) {
        return stamp;
    }
    stamp_slot(clock, cell, slot);
    let Some(stamp) = cell.stamp(slot) else {
        unreachable!()
    };
    stamp
}

/// Closes a slot that isn't the current one where it can be: it is closed then, or waits for the cause. From the closing on
/// no section is open whose mark is below its stamp ([`stamped_slots_stand`]).
pub(crate) fn free_slot(clock: &Clock<Objects>, cell: &mut Cell, slot: u32) -> Result<(), SlotCause>
    requires { OwnsSlot clock.now cell.old slot }
    ensures here { IsCellOf clock.now cell.new }
    ensures frees { OnOk result (SlotFrees slot (cell_view cell.old) (cell_view cell.new)) }
    ensures waits { IfErr result (λ cause. SlotWaits slot cause (cell_view cell.old) (cell_view cell.new)) }
{
    if cell.current() == Some(slot) {
        return Err(SlotCause::Current);
    }
    if cell.closed(slot) {
        return Ok(());
    }
    let stamp = settle_stamp(clock, cell, slot);
    let read = load_read(clock, cell);
    if read < stamp {
        return Err(SlotCause::Unripe { read, stamp });
    }
    let holds = close_slot(clock, cell, slot);
    if holds > 0 {
        return Err(SlotCause::Held { holds });
    }
    stamped_slots_stand();
    Ok(())
}

// The first slot that could be closed, or that was.
fn first_free(clock: &Clock<Objects>, cell: &mut Cell, causes: &mut SlotCauses) -> Option<u32>
    requires cell { OwnsCell clock.now cell.old }
    requires room { length causes.old.causes ≡ 16 }
    ensures here { IsCellOf clock.now cell.new }
    ensures count { causes.new.count ≡ causes.old.count }
    ensures some { IfSome result (λ slot. FindsFree (setup_of clock.now).plan.1 slot (cell_view cell.old) (cell_view cell.new)) }
    ensures none { result ≡ None → Waits (setup_of clock.now).plan.1 (cause_at causes.new) (cell_view cell.old) (cell_view cell.new) }
{
    for slot in 0..clock.plan().1 {
        match free_slot(clock, cell, slot) {
            Ok(()) => return Some(slot),
            Err(cause) => causes.causes[slot as usize] = cause,
        }
    }
    None
}

// Publishes the value in a closed slot, and stamps the former current one.
fn put(clock: &Clock<Objects>, cell: &mut Cell, slot: u32, value: u64) -> u64
    requires { MayPut clock.now cell.old slot }
    ensures here { IsCellOf clock.now cell.new }
    ensures puts { PutsNext slot value (cell_view cell.old) result (cell_view cell.new) }
{
    let former = cell.current();
    write_value(clock, cell, slot, value);
    open_slot(clock, cell, slot);
    let version = switch_to(clock, cell, slot);
    // The former slot is stamped after the switch. Before it, a section that enters after the stamp could still find the slot,
    // and its mark wouldn't be below the stamp.
    if let Some(former) = former {
        stamp_slot(clock, cell, former);
    }
    version
}

/// Publishes a value in the first slot that can be used, and returns the new version. A closed slot can be used. An
/// open slot is stamped if it has no stamp, and can be used if its stamp has expired and no pass holds it; it is closed
/// first. The former current slot is stamped, two above the write sequence that the call loads.
///
/// No value is written to a slot while a section is open whose mark is below the slot's stamp, because a slot is closed
/// only after its stamp has expired ([`smr_objects::laws::stamped_slots_stand`]).
///
/// # Arguments
///
/// - `value`: the value, any number.
///
/// # Errors
///
/// A refused call makes no record and writes no value.
///
/// - `Worn`: the version is 2^44 - 1.
/// - `Crowded`: no slot could be used. The refusal has a cause for each slot.
pub fn publish(clock: &Clock<Objects>, cell: &mut Cell, value: u64) -> Result<u64, PublishRefused>
    requires { OwnsCell clock.now cell.old }
    ensures here { IsCellOf clock.now cell.new }
    ensures published { IfOk result (λ version. Publishes (setup_of clock.now).plan.1 value version (cell_view cell.old) (cell_view cell.new)) }
    ensures refused { IfErr result (RefusesPublish (setup_of clock.now).plan.1 (cell_view cell.old) (cell_view cell.new)) }
{
    let version = cell.version();
    if version + 1 == 1 << 44 {
        return Err(PublishRefused::Worn { version });
    }
    let mut causes = SlotCauses {
        causes: [SlotCause::Current; 16],
        count: clock.plan().1,
    };
    match first_free(clock, cell, &mut causes) {
        Some(slot) => Ok(put(clock, cell, slot, value)),
        None => Err(PublishRefused::Crowded { causes }),
    }
}
