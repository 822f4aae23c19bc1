//! A layer that holds numbers of a keg's slabs, and worked rows of what is taken and given up.

ghost use Rattle.std.specs.Prelude.{◌≡◌, ◌≢◌, ℕ, ◌+◌, ◌<◌, ◌≤◌, length, All, AllPairs, IsSome, IfSome, OnSome};
ghost use Rattle.uma_slabs.specs.Places.{free_count, out_count, IsOut};

use std::test::Fail;
use uma_slabs::{KegRefused, Places};
use zone_stats::Refusal;

/// Takes two numbers, gives the first back, and takes again. What is held then is out and distinct, and is counted.
fn takes_again(places: &mut Places) -> Option<(u32, u32)>
    requires { 2 ≤ free_count places.old }
    ensures taken { IsSome result }
    ensures held { IfSome result (λ held. IsOut places.new held.0 × IsOut places.new held.1 × (held.0 ≢ held.1)) }
    ensures counts { OnSome result (out_count places.new ≡ out_count places.old + 2) }
{
    let first = places.take()?;
    let second = places.take()?;
    places.give(first);
    let third = places.take()?;
    Some((second, third))
}

/// Gives back each number that is held, however many there are.
fn gives_all(places: &mut Places, held: &[u32])
    requires out { All (IsOut places.old) held.now }
    requires distinct { AllPairs (λ one other. one ≢ other) held.now }
    ensures { out_count places.new + length held.now ≡ out_count places.old }
{
    for number in held {
        places.give(*number);
    }
}

#[test]
fn takes_again_what_was_given_back(rt: HostRuntime) -> Result<(), Fail> {
    let mut places = Places::new(rt.alloc(), 1024, 1)?;
    assert_eq!(rt; places.bring(3), Ok(0));
    assert_eq!(rt; places.counts().free, 4);
    let (second, third) = takes_again(&mut places).ok_or("no place is free")?;
    assert_eq!(rt; (second, third), (1, 0));
    assert_eq!(rt; places.domain(third), 3);
    gives_all(&mut places, &[second, third]);
    assert_eq!(rt; places.counts().free, 4);
    Ok(())
}

#[test]
fn refuses_what_is_out_of_range(rt: HostRuntime) -> Result<(), Fail> {
    let rows = [
        (7, 0, KegRefused::Size { size: 7 }),
        (4097, 1, KegRefused::Size { size: 4097 }),
        (8, 0, KegRefused::Slabs { slabs: 0 }),
        (4096, 1025, KegRefused::Slabs { slabs: 1025 }),
    ];
    for (size, slabs, refused) in rows {
        assert_eq!(rt; Places::new(rt.alloc(), size, slabs).err(), Some(refused));
    }
    Ok(())
}

#[test]
fn fills_a_slab_of_one_place(rt: HostRuntime) -> Result<(), Fail> {
    let mut places = Places::new(rt.alloc(), 4096, 1)?;
    assert_eq!(rt; places.take(), None);
    assert_eq!(rt; places.bring(0), Ok(0));
    assert_eq!(rt; places.take(), Some(0));
    assert_eq!(rt; places.take(), None);
    assert_eq!(rt; places.bring(0), Err(Refusal::Full { slabs: 1, made: 1 }));
    Ok(())
}

#[test]
fn takes_from_a_partly_used_slab_first(rt: HostRuntime) -> Result<(), Fail> {
    let mut places = Places::new(rt.alloc(), 2048, 3)?;
    assert_eq!(rt; places.bring(0), Ok(0));
    let first = places.take().ok_or("no place is free")?;
    assert_eq!(rt; places.take(), Some(1));
    assert_eq!(rt; places.bring(0), Ok(1));
    let other = places.take().ok_or("no place is free")?;
    assert_eq!(rt; (first, other), (0, 2));
    places.give(first);
    places.give(other);
    assert_eq!(rt; places.take(), Some(0));
    Ok(())
}

#[test]
fn drops_the_one_slab_where_it_is_wholly_free(rt: HostRuntime) -> Result<(), Fail> {
    let mut places = Places::new(rt.alloc(), 4096, 1)?;
    assert_eq!(rt; places.drop_slab(), None);
    assert_eq!(rt; places.bring(0), Ok(0));
    assert_eq!(rt; places.drop_slab(), Some(0));
    assert_eq!(rt;
        (
            places.counts().slabs,
            places.counts().free,
            places.counts().made
        ),
        (0, 0, 1)
    );
    assert_eq!(rt; places.take(), None);
    assert_eq!(rt; places.bring(5), Ok(0));
    assert_eq!(rt; places.take(), Some(0));
    assert_eq!(rt; places.drop_slab(), None);
    Ok(())
}

/// Takes a number, gives up a slab, and gives the number back, which is out all along.
fn drops_beside_what_is_out(places: &mut Places) -> Option<(u32, u32)> {
    let taken = places.take()?;
    let dropped = places.drop_slab()?;
    places.give(taken);
    Some((taken, dropped))
}

#[test]
fn drops_the_second_of_two_slabs_and_keeps_the_used_one(rt: HostRuntime) -> Result<(), Fail> {
    let mut places = Places::new(rt.alloc(), 2048, 2)?;
    assert_eq!(rt; places.bring(3), Ok(0));
    assert_eq!(rt; places.bring(4), Ok(1));
    assert_eq!(rt; drops_beside_what_is_out(&mut places), Some((0, 1)));
    assert_eq!(rt; (places.counts().slabs, places.counts().free), (1, 2));
    assert_eq!(rt; places.drop_slab(), Some(0));
    assert_eq!(rt; places.drop_slab(), None);
    Ok(())
}

/// Gives up slabs until none is wholly free, and answers how many.
fn drops_all(places: &mut Places) -> u32 {
    for count in 0..1024 {
        if places.drop_slab().is_none() {
            return count;
        }
    }
    1024
}

#[test]
fn drops_the_greatest_of_many_slabs(rt: HostRuntime) -> Result<(), Fail> {
    let mut places = Places::new(rt.alloc(), 4096, 1024)?;
    for _ in 0..1024 {
        places.bring(0)?;
    }
    assert_eq!(rt; places.drop_slab(), Some(1023));
    assert_eq!(rt; places.drop_slab(), Some(1022));
    assert_eq!(rt; places.take(), Some(0));
    assert_eq!(rt; drops_all(&mut places), 1021);
    assert_eq!(rt;
        (
            places.counts().slabs,
            places.counts().free,
            places.counts().made
        ),
        (1, 0, 1024)
    );
    assert_eq!(rt; places.bring(0), Ok(1));
    Ok(())
}

/// Takes what is left beside a number that is out, and gives that number back.
fn takes_the_rest_and_gives_back(places: &mut Places, held: u32)
    requires { IsOut places.old held }
{
    for _ in 0..1024 {
        let _ = places.take();
    }
    places.give(held);
}

#[test]
fn takes_what_came_home_to_a_full_keg(rt: HostRuntime) -> Result<(), Fail> {
    let mut places = Places::new(rt.alloc(), 4096, 1024)?;
    for _ in 0..1024 {
        places.bring(0)?;
    }
    for no in 0..700 {
        assert_eq!(rt; places.take(), Some(no));
    }
    let held = places.take().ok_or("no place is free")?;
    assert_eq!(rt; held, 700);
    takes_the_rest_and_gives_back(&mut places, held);
    assert_eq!(rt; places.take(), Some(700));
    assert_eq!(rt; places.take(), None);
    Ok(())
}
