use smr_clock::{Clock, Host, Pass};
use std::alloc::Global;
use std::sync::Wait;
use uma_replay::{CountHooks, Counted, Memory, ReclaimCalls};
use uma_seat::SeatCache;
use uma_zone::Zone;

/// The lines of reclaim, done by the calls of `uma_reclaim`. What they gave back, no line of a report names.
#[derive(Drop)]
pub(crate) struct Reclaim;

impl ReclaimCalls for Reclaim {
    fn trim<H: Host, R: Wait>(
        &self,
        rt: &R,
        alloc: Global,
        zone: &Zone<Counted, CountHooks, H>,
        clock: &Clock<H>,
        pass: &mut Pass<H>,
        seat: &mut SeatCache<Counted, H>,
    ) -> Result<(), Memory> {
        let Ok(_done) = uma_reclaim::trim(rt, alloc, zone, clock, pass, seat) else {
            return Err(Memory);
        };
        Ok(())
    }

    fn drain<H: Host, R: Wait>(
        &self,
        rt: &R,
        alloc: Global,
        zone: &Zone<Counted, CountHooks, H>,
        clock: &Clock<H>,
        pass: &mut Pass<H>,
        seat: &mut SeatCache<Counted, H>,
    ) -> Result<(), Memory> {
        let Ok(_done) = uma_reclaim::drain(rt, alloc, zone, clock, pass, seat) else {
            return Err(Memory);
        };
        Ok(())
    }

    fn drain_seat<H: Host, R: Wait>(
        &self,
        rt: &R,
        alloc: Global,
        zone: &Zone<Counted, CountHooks, H>,
        clock: &Clock<H>,
        pass: &mut Pass<H>,
        seat: &mut SeatCache<Counted, H>,
    ) -> Result<(), Memory> {
        let Ok(_done) = uma_reclaim::drain_seat(rt, alloc, zone, clock, pass, seat) else {
            return Err(Memory);
        };
        Ok(())
    }
}
