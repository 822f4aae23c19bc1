use super::turnstile::Turnstile;
use deed_book::Book;
use std::sync::atomic::Ordering;
use std::test::Fail;
use uma_item::{Item, TrailHooks};
use uma_life::{Body, BringRefused, Stored};

#[test]
fn hooks_of_six_lines_count_what_is_opened_and_closed(rt: HostRuntime) -> Result<(), Fail> {
    let hooks = TrailHooks::new(Turnstile::new());
    let mut book = Book::new(rt.alloc(), 4)?;
    let stored = Stored::<Item<()>>::bring(&rt, rt.alloc(), &hooks, 3)?;
    let Ok(cached) = stored.lend(&hooks, book.issue(3, 0), 0) else {
        panic!(rt; "the primary zone refused")
    };
    let Ok(live) = cached.build(&hooks, 0) else {
        panic!(rt; "ctor refused")
    };
    let Ok(live) = live.finish(&hooks).build(&hooks, 0) else {
        panic!(rt; "ctor refused")
    };
    let passed = live.body().tally().zones[0];
    assert!(rt; passed.ctors == 2 && passed.dtors == 1);
    assert!(rt; hooks.hooks().opened.load(Ordering::SeqCst) == 2);
    assert!(rt; hooks.hooks().closed.load(Ordering::SeqCst) == 1);
    Ok(())
}

/// The item before it, which has its data, is there.
#[test]
fn where_memory_is_refused_for_the_data_no_item_comes(rt: HostRuntime) -> Result<(), Fail> {
    let hooks = TrailHooks::with_stays(Turnstile::new());
    let stored = Stored::<Item<()>>::bring(&rt, rt.alloc(), &hooks, 8)?;
    let refused = Stored::<Item<()>>::bring(&rt, rt.alloc(), &hooks, 9);
    assert!(rt; stored.no() == 8 && refused.err() == Some(BringRefused::Memory));
    Ok(())
}
