ghost use Rattle.std.specs.Prelude.{IfOk};
ghost use Rattle.uma_zcache.specs.Cache.{IsSeatOf, IsHeldOf};

use std::alloc::Global;
use std::sync::Wait;
use std::test::Fail;
use uma_zcache::{ArenaImport, Held, ZAllocRefused, ZCache, ZSeat};
use vmem_arena::Arena;

/// The ports from 49,152 to 65,535, of which at most 1,000 are out at a time.
fn open_ports(alloc: Global) -> Result<ZCache<ArenaImport>, Fail> {
    let mut range = Arena::new(alloc, 1)?;
    range.add(alloc, 49_152, 16_384)?;
    let import = ArenaImport::new(range, 1)?;
    let ports = ZCache::new(alloc, import, 1_000)?;
    Ok(ports)
}

/// Gives a port up for another one.
fn change<R: Wait>(
    rt: &R,
    alloc: Global,
    ports: &ZCache<ArenaImport>,
    seat: &mut ZSeat,
    port: Held,
) -> Result<Held, ZAllocRefused>
    requires seat { IsSeatOf ports.now seat.old }
    requires port { IsHeldOf ports.now port }
    ensures seat { IsSeatOf ports.now seat.new }
    ensures port { IfOk result (IsHeldOf ports.now) }
{
    let other = ports.alloc(rt, alloc, seat)?;
    ports.free(rt, seat, port);
    Ok(other)
}

#[test]
fn a_port_comes_out_of_the_range_and_goes_back(rt: HostRuntime) -> Result<(), Fail> {
    let alloc = rt.alloc();
    let ports = open_ports(alloc)?;
    let mut seat = ports.seat(&rt, alloc, 8)?;
    let first = ports.alloc(&rt, alloc, &mut seat)?;
    assert!(rt; first.base() == 49_159);
    let port = change(&rt, alloc, &ports, &mut seat, first)?;
    assert!(rt; port.base() == 49_158);
    ports.free(&rt, &mut seat, port);
    assert!(rt; ports.out(&rt) == 8);
    assert!(rt; ports.drain(&rt, &mut seat) == 8);
    assert!(rt; ports.out(&rt) == 0);
    Ok(())
}
