ghost use Rattle.std.specs.Prelude.{◌≡◌, None, IfSome, Some};
ghost use Rattle.smr_clock.specs.Belongs.{IsPassOf, view};
ghost use Rattle.smr_objects.specs.PassCalls.{MayLook, MayHold, HasHold, KeepsPass, KeepsButPart};
ghost use Rattle.smr_hold.specs.Looks.{FindsNone, Looks};
ghost use Rattle.smr_objects.specs.Steps.{held_of, holding, releasing};
ghost use Rattle.smr_objects.specs.declared.cell.Record.{Record};

use crate::found::Look;
use smr_clock::{Clock, Pass};
use smr_objects::{Hold, Objects, hold_add, hold_subtract, load_cell, load_value};

/// Returns the record that the cell's word had when this call loaded it: value, version and slot. Returns None if
/// nothing was published then. The pass must be inside a section, and the slot isn't written while it is.
///
/// # Arguments
///
/// - `cell`: the number of the cell, below the clock's count of cells.
pub fn look(clock: &Clock<Objects>, pass: &mut Pass<Objects>, cell: u32) -> Option<Look>
    requires { MayLook clock.now pass.old cell }
    ensures here { IsPassOf clock.now pass.new }
    ensures none { result ≡ None → FindsNone (view pass.old) cell (view pass.new) }
    ensures some { IfSome result (λ look. Looks (view pass.old) cell look (view pass.new)) }
{
    let (version, slot) = load_cell(clock, pass, cell);
    if version == 0 {
        return None;
    }
    let value = load_value(clock, pass, cell, slot);
    Some(Look {
        value,
        version,
        slot,
    })
}

/// Adds a counted hold to the slot that the pass's last lookup of the cell found in this section. The hold outlasts the
/// section: the slot isn't written until it is released. The pass must hold nothing else of the cell.
///
/// # Arguments
///
/// - `cell`: the number of the cell, below the clock's count of cells.
/// - `slot`: the number of the slot that the lookup returned.
pub fn hold(clock: &Clock<Objects>, pass: &mut Pass<Objects>, cell: u32, slot: u32) -> Hold
    requires { MayHold clock.now pass.old cell slot }
    ensures hold { (result.cell ≡ cell) × (result.slot ≡ slot) }
    ensures kept { KeepsButPart clock.now pass.old pass.new (holding cell (view pass.old).host) }
{
    hold_add(clock, pass, cell, slot)
}

/// Returns the value of the record whose slot is held, whatever was published since. The pass may be inside or outside
/// a section.
pub fn read(clock: &Clock<Objects>, pass: &mut Pass<Objects>, hold: &Hold) -> u64
    requires { HasHold clock.now pass.old hold.now.cell hold.now.slot }
    ensures kept { KeepsPass clock.now pass.old pass.new }
    ensures held { (r : Record) → held_of hold.now.cell (view pass.old).host.holds ≡ Some r → result ≡ r.value }
{
    load_value(clock, pass, hold.cell(), hold.slot())
}

/// Gives the hold back. The pass may be inside or outside a section.
pub fn release(clock: &Clock<Objects>, pass: &mut Pass<Objects>, hold: Hold)
    requires { HasHold clock.now pass.old hold.cell hold.slot }
    ensures { KeepsButPart clock.now pass.old pass.new (releasing hold.cell (view pass.old).host) }
{
    hold_subtract(clock, pass, hold);
}
