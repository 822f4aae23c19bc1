ghost use Rattle.std.specs.Prelude.{IfOk, OnErr};
ghost use Rattle.smr_clock.specs.Belongs.{view};
ghost use Rattle.uma_reclaim.specs.Frames.{LeavesDeferred, LeavesItems, MayReclaim};
ghost use Rattle.uma_reclaim.specs.Reclaimed.{Drains, DrainsSeat, DrainStops, SeatDrainStops};

use crate::reclaim::{Extent, Reclaimed, flush_and_settle, give_back, give_cached};
use deed_book::Memory;
use smr_clock::{Clock, Host, Pass};
use std::alloc::Global;
use std::sync::Wait;
use uma_life::{Body, Hooks};
use uma_seat::SeatCache;
use uma_zone::Zone;

/// Flushes the seat, settles each domain of the zone, and returns all that may be returned of their lists to the keg.
/// Then the keg gives up its wholly free slabs, the greatest index first, as long as the reserve stays. Slabs go last
/// (tested).
///
/// Each plain bucket of each domain goes back, and each sealed bucket whose poll returns true, after `dtor`. Sealed
/// buckets whose poll returns false, and loose buckets, stay. It blocks on the locks of the domains and of the keg.
///
/// # Errors
///
/// `Memory`: out of memory. Each bucket of the seat's shelf is in an inbox or a list, or still on the shelf. The
/// domains before the one that failed are drained. The one that failed and those after it list what they did, and what
/// a settle listed. No slab is given up.
pub fn drain<T: Body + Drop, K: Hooks<T>, H: Host, R: Wait>(
    rt: &R,
    alloc: Global,
    zone: &Zone<T, K, H>,
    clock: &Clock<H>,
    pass: &mut Pass<H>,
    seat: &mut SeatCache<T, H>,
) -> Result<Reclaimed<T, H>, Memory>
    requires { MayReclaim zone.now clock.now pass.old seat.old }
    ensures drains { IfOk result (Drains zone.now H.merged H.copied (view pass.old).host (view pass.new).host seat.new) }
    ensures stopped { OnErr result (DrainStops zone.now H.merged H.copied (view pass.old).host (view pass.new).host seat.old seat.new) }
    ensures kept { LeavesItems zone.now H.merged H.copied clock.now pass.old pass.new seat.old seat.new }
{
    flush_and_settle(rt, zone, clock, pass, seat)?;
    let mut done = give_back(rt, alloc, zone, clock, pass, Extent::All)?;
    done.slabs = zone.free_slabs(rt);
    Ok(done)
}

/// Does what [`drain`] does, and also returns the usable and the cross items of the seat, before the keg gives up slabs
/// (tested). The deferred items of the seat stay. It blocks as `drain` does.
///
/// # Errors
///
/// `Memory`: as after [`drain`], and the seat still has all its items.
pub fn drain_seat<T: Body + Drop, K: Hooks<T>, H: Host, R: Wait>(
    rt: &R,
    alloc: Global,
    zone: &Zone<T, K, H>,
    clock: &Clock<H>,
    pass: &mut Pass<H>,
    seat: &mut SeatCache<T, H>,
) -> Result<Reclaimed<T, H>, Memory>
    requires { MayReclaim zone.now clock.now pass.old seat.old }
    ensures drains { IfOk result (DrainsSeat zone.now H.merged H.copied (view pass.old).host (view pass.new).host seat.old seat.new) }
    ensures stopped { OnErr result (SeatDrainStops zone.now H.merged H.copied (view pass.old).host (view pass.new).host seat.old seat.new) }
    ensures kept { LeavesDeferred zone.now H.merged H.copied clock.now pass.old pass.new seat.old seat.new }
{
    flush_and_settle(rt, zone, clock, pass, seat)?;
    let mut done = give_back(rt, alloc, zone, clock, pass, Extent::All)?;
    let given = give_cached(rt, zone, seat);
    done.items = done.items.saturating_add(given);
    done.slabs = zone.free_slabs(rt);
    Ok(done)
}
