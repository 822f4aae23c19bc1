ghost use Rattle.std.specs.Prelude.{◌≡◌, ◌≤◌, IfOk};
ghost use Rattle.smr_clock.specs.Belongs.{IsPassOf};
ghost use Rattle.uma_bucket.specs.Bucket.{place_of};
ghost use Rattle.uma_bucket.specs.Loose.{loose_place};

use super::plain_book::PlainBook;
use crate::body::{Plain, idle_hooks};
use crate::clock::two_seats;
use smr_clock::{Bare, Clock, Pass};
use std::alloc::Global;
use std::process::Abort;
use std::sync::Wait;
use std::test::Fail;
use uma_bucket::{Bucket, Freed, Loose, Sums};
use uma_life::Body;

/// The last hand of 32 bits: the tag of the first goal is 1.
const BELOW_WRAP: u64 = 4_294_967_295;

/// A full bucket of freed items of zone 0, in the room of an empty one.
fn filled<R: Wait>(
    rt: &R,
    alloc: Global,
    book: &mut PlainBook,
    bucket: Bucket<Plain>,
    numbers: [u32; 4],
) -> Result<Loose<Plain>, Fail> {
    if bucket.len() != 0 {
        return Err(Fail::new("not empty"));
    }
    let mut loose = Loose::reuse(bucket);
    for no in numbers {
        let Ok(item) = book.cached(rt, alloc, no)?.build(&idle_hooks(), 0) else {
            return Err(Fail::new("refused"));
        };
        if loose.len() < loose.size() {
            loose.push(Freed::of(item));
        }
    }
    Ok(loose)
}

/// From loose to plain. The room stays where it lies.
fn opened(
    clock: &Clock<Bare>,
    pass: &mut Pass<Bare>,
    loose: Loose<Plain>,
) -> Result<Bucket<Plain>, Fail>
    requires here { IsPassOf clock.now pass.old }
    ensures here { IsPassOf clock.now pass.new }
    ensures place { IfOk result (λ bucket. place_of bucket ≡ loose_place loose) }
{
    let Ok(sealed) = loose.seal(clock, pass) else {
        return Err(Fail::new("no room"));
    };
    let Ok(ripe) = sealed.try_open(clock) else {
        return Err(Fail::new("not expired"));
    };
    let (bucket, note) = ripe.into_cached(&idle_hooks());
    clock.absorb(pass, note);
    Ok(bucket)
}

/// The ctors and the dtors of zone 0, and the deferred items.
fn counts(sums: &Sums) -> (u128, u128, u64) {
    let zone = sums.tally.zones[0];
    (zone.ctors, zone.dtors, sums.deferred)
}

/// The number of the item on top, which is taken.
fn popped(bucket: &mut Bucket<Plain>) -> Option<u32> {
    bucket.pop().map(|item| item.no())
}

/// From plain to plain. Each item passes `dtor`, and the last put is the first taken.
fn goes_round<R: Abort + Wait>(
    rt: &R,
    loose: Loose<Plain>,
    clock: &Clock<Bare>,
    pass: &mut Pass<Bare>,
    last: u32,
) -> Result<Bucket<Plain>, Fail>
    requires here { IsPassOf clock.now pass.old }
    requires last { 3 ≤ last }
    ensures here { IsPassOf clock.now pass.new }
{
    let mut sums = Sums::none();
    loose.add_to(&mut sums);
    assert_eq!(rt; counts(&sums), (4, 0, 4));
    let mut bucket = opened(clock, pass, loose)?;
    let mut sums = Sums::none();
    bucket.add_to(&mut sums);
    assert_eq!(rt; counts(&sums), (4, 4, 0));
    assert_eq!(rt;
        (popped(&mut bucket), popped(&mut bucket)),
        (Some(last), Some(last - 1))
    );
    assert_eq!(rt;
        (popped(&mut bucket), popped(&mut bucket)),
        (Some(last - 2), Some(last - 3))
    );
    Ok(bucket)
}

#[test]
fn a_room_goes_round_and_each_item_passes_dtor_once(rt: HostRuntime) -> Result<(), Fail> {
    let mut book = PlainBook::new(rt.alloc(), 8)?;
    let (clock, _, mut pass) = two_seats(rt.alloc(), BELOW_WRAP)?;
    let bucket = Bucket::make(rt.alloc(), 4)?;
    let loose = filled(&rt, rt.alloc(), &mut book, bucket, [0, 1, 2, 3])?;
    let bucket = goes_round(&rt, loose, &clock, &mut pass, 3)?;
    let loose = filled(&rt, rt.alloc(), &mut book, bucket, [4, 5, 6, 7])?;
    goes_round(&rt, loose, &clock, &mut pass, 7)?;
    Ok(())
}
