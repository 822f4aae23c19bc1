use super::doors::{Door, Doors};
use deed_book::Book;
use std::mem::replace;
use std::sync::atomic::Ordering;
use std::test::Fail;
use uma_item::{Item, NO_STAYS, TrailHooks};
use uma_life::{Body, BodyPhase, Stored, ZoneTally};

#[test]
fn what_a_ctor_opens_its_dtor_closes(rt: HostRuntime) -> Result<(), Fail> {
    let hooks = TrailHooks::new(Doors::new());
    let mut book = Book::new(rt.alloc(), 4)?;
    let stored = Stored::<Item<Door>>::bring(&rt, rt.alloc(), &hooks, 3)?;
    let Ok(cached) = stored.lend(&hooks, book.issue(3, 0), 0) else {
        panic!(rt; "the primary zone refused")
    };
    let Ok(live) = cached.build(&hooks, 7) else {
        panic!(rt; "ctor refused")
    };
    assert!(rt; live.body().data().is_open && live.body().data().guest == 7);
    let cached = live.finish(&hooks);
    assert!(rt; !cached.body().data().is_open);
    let (stored, deed) = cached.give_back(&hooks);
    assert!(rt; book.accept(deed) == (3, 0));
    let tally = stored.end(&rt, &hooks);
    let used_once = ZoneTally {
        inits: 0,
        ctors: 1,
        dtors: 1,
        finis: 0,
    };
    assert!(rt; tally.keg_inits == 1 && tally.keg_finis == 1 && tally.zones[0] == used_once);
    assert!(rt; hooks.hooks().opened.load(Ordering::SeqCst) == 1);
    assert!(rt; hooks.hooks().closed.load(Ordering::SeqCst) == 1);
    Ok(())
}

#[test]
fn an_item_without_counts_of_stays_refuses_a_secondary_zone(rt: HostRuntime) -> Result<(), Fail> {
    let hooks = TrailHooks::new(Doors::new());
    let mut book = Book::new(rt.alloc(), 4)?;
    let stored = Stored::<Item<Door>>::bring(&rt, rt.alloc(), &hooks, 2)?;
    let Err((stored, deed, code)) = stored.lend(&hooks, book.issue(2, 5), 1) else {
        panic!(rt; "zone 5 took an item that keeps no counts")
    };
    assert!(rt; code == NO_STAYS && stored.no() == 2 && book.accept(deed) == (2, 5));
    Ok(())
}

#[test]
fn an_item_with_counts_of_stays_comes_and_goes(rt: HostRuntime) -> Result<(), Fail> {
    let hooks = TrailHooks::with_stays(Doors::new());
    let mut book = Book::new(rt.alloc(), 4)?;
    let stored = Stored::<Item<Door>>::bring(&rt, rt.alloc(), &hooks, 1)?;
    let Ok(cached) = stored.lend(&hooks, book.issue(1, 7), 0) else {
        panic!(rt; "zone 7 refused")
    };
    let Ok(live) = cached.build(&hooks, 2) else {
        panic!(rt; "ctor refused")
    };
    let (stored, deed) = live.finish(&hooks).give_back(&hooks);
    assert!(rt; book.accept(deed) == (1, 7));
    let tally = stored.end(&rt, &hooks);
    let used_once = ZoneTally {
        inits: 1,
        ctors: 1,
        dtors: 1,
        finis: 1,
    };
    assert!(rt;
        tally.zones[7] == used_once && tally.zones[1].inits == 0 && tally.zones[0].ctors == 0
    );
    Ok(())
}

#[test]
fn a_refused_ctor_counts_nothing_and_leaves_the_data(rt: HostRuntime) -> Result<(), Fail> {
    let hooks = TrailHooks::new(Doors::new());
    let mut book = Book::new(rt.alloc(), 4)?;
    let stored = Stored::<Item<Door>>::bring(&rt, rt.alloc(), &hooks, 0)?;
    let Ok(cached) = stored.lend(&hooks, book.issue(0, 0), 0) else {
        panic!(rt; "the primary zone refused")
    };
    let Err((cached, code)) = cached.build(&hooks, 9) else {
        panic!(rt; "ctor took the guest 9")
    };
    assert!(rt; code == 9 && !cached.body().data().is_open);
    assert!(rt; cached.body().tally().zones[0].ctors == 0);
    Ok(())
}

#[test]
fn data_is_changed_in_the_same_item(rt: HostRuntime) -> Result<(), Fail> {
    let hooks = TrailHooks::new(Doors::new());
    let mut book = Book::new(rt.alloc(), 4)?;
    let stored = Stored::<Item<Door>>::bring(&rt, rt.alloc(), &hooks, 3)?;
    let Ok(cached) = stored.lend(&hooks, book.issue(3, 0), 2) else {
        panic!(rt; "the primary zone refused")
    };
    let Ok(live) = cached.build(&hooks, 7) else {
        panic!(rt; "ctor refused")
    };
    let (live, before) = Item::change(live, |door| replace(&mut door.guest, 8));
    assert!(rt; before == 7);
    assert!(rt; live.body().data().guest == 8 && live.no() == 3 && live.domain() == 2);
    assert!(rt; live.body().phase() == (BodyPhase::Built { zone: 0 }));
    Ok(())
}
