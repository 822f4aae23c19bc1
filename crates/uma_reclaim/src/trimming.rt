ghost use Rattle.std.specs.Prelude.{IfOk, OnErr};
ghost use Rattle.smr_clock.specs.Belongs.{view};
ghost use Rattle.uma_reclaim.specs.Frames.{LeavesItems, MayReclaim};
ghost use Rattle.uma_reclaim.specs.Reclaimed.{Trims, TrimStops};

use crate::reclaim::{Extent, Reclaimed, flush_and_settle, give_back};
use deed_book::Memory;
use smr_clock::{Clock, Host, Pass};
use std::alloc::Global;
use std::sync::Wait;
use uma_life::{Body, Hooks};
use uma_seat::SeatCache;
use uma_zone::Zone;

/// Flushes the seat, settles each domain of the zone, and returns to the keg what the domains didn't use since their
/// last trim. It gives up no slab.
///
/// Whole buckets of each domain go back while the items that stay listed are at least the domain's working set. The
/// working set is the greatest count of items that it listed since the last trim, less the least. The plain buckets go
/// first, and then the sealed buckets whose poll returns true, after `dtor`; each kind goes oldest first. The least and
/// the greatest count then start again from what stays. It blocks on the locks of the domains and of the keg.
///
/// # Errors
///
/// `Memory`: out of memory. Each bucket of the seat's shelf is in an inbox or a list, or still on the shelf. The
/// domains before the one that failed are trimmed. The one that failed and those after it list what they did, and what
/// a settle listed.
pub fn trim<T: Body + Drop, K: Hooks<T>, H: Host, R: Wait>(
    rt: &R,
    alloc: Global,
    zone: &Zone<T, K, H>,
    clock: &Clock<H>,
    pass: &mut Pass<H>,
    seat: &mut SeatCache<T, H>,
) -> Result<Reclaimed<T, H>, Memory>
    requires { MayReclaim zone.now clock.now pass.old seat.old }
    ensures trims { IfOk result (Trims zone.now H.merged H.copied (view pass.old).host (view pass.new).host seat.new) }
    ensures stopped { OnErr result (TrimStops zone.now H.merged H.copied (view pass.old).host (view pass.new).host seat.old seat.new) }
    ensures kept { LeavesItems zone.now H.merged H.copied clock.now pass.old pass.new seat.old seat.new }
{
    flush_and_settle(rt, zone, clock, pass, seat)?;
    give_back(rt, alloc, zone, clock, pass, Extent::Unused)
}
