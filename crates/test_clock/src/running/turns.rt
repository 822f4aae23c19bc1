ghost use Rattle.std.specs.Prelude.{◌≡◌};
ghost use Rattle.smr_core.specs.declared.holder.Phase.{Phase};
ghost use Rattle.smr_clock.specs.Belongs.{IsPassOf, holder};

use super::*;
use std::thread::{Threads, join};

// A turn enters and leaves a section, advances, and polls the goal by a note that is taken in again.
fn turn(clock: &Clock<Bare>, pass: &mut Pass<Bare>)
    requires here { IsPassOf clock.now pass.old }
    requires outside { (holder pass.old).phase ≡ Phase.Outside }
    ensures here { IsPassOf clock.now pass.new }
    ensures outside { (holder pass.new).phase ≡ Phase.Outside }
{
    if clock.enter(pass).is_ok() {
        clock.exit(pass);
    }
    if let Ok(goal) = clock.advance(pass) {
        let mut note = clock.note(pass);
        clock.poll(&mut note, &goal);
        clock.absorb(pass, note);
    }
}

fn turned(clock: &Clock<Bare>, mut pass: Pass<Bare>) -> Pass<Bare>
    requires here { IsPassOf clock.now pass }
    requires outside { (holder pass).phase ≡ Phase.Outside }
    ensures { IsPassOf clock.entry.now result }
{
    for _ in 0..1000 {
        turn(clock, &mut pass);
    }
    pass
}

fn hands_after_both<R: Threads + Sync>(
    rt: &R,
    clock: &Clock<Bare>,
    first: Pass<Bare>,
    second: Pass<Bare>,
) -> (u64, u64)
    requires here { IsPassOf clock.now first × IsPassOf clock.now second }
    requires outside { ((holder first).phase ≡ Phase.Outside) × ((holder second).phase ≡ Phase.Outside) }
{
    let (mut first, _second) = join(
        rt,
        move || -> Pass<Bare>
            requires { IsPassOf clock.now first × ((holder first).phase ≡ Phase.Outside) }
            ensures { IsPassOf clock.entry.now result }
        { turned(clock, first) },
        move || -> Pass<Bare>
            requires { IsPassOf clock.now second × ((holder second).phase ≡ Phase.Outside) }
            ensures { IsPassOf clock.entry.now result }
        { turned(clock, second) },
    );
    clock.hands(&mut first)
}

#[test]
fn two_threads_end_with_odd_hands_within_the_window(rt: HostRuntime) -> Result<(), Fail> {
    // The second begins just below the wrap of 32 bits.
    for (start, window) in [(1, 8), (4_294_967_291, 4)] {
        let (clock, first, second) = two_seats(rt.alloc(), start, window)?;
        let (read, write) = hands_after_both(&rt, &clock, first, second);
        assert!(rt; read % 2 == 1 && write % 2 == 1 && read > start);
        assert!(rt; read <= write && write.saturating_sub(read) <= window);
    }
    Ok(())
}
