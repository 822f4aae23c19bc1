ghost use Rattle.std.specs.Prelude.{◌≡◌, ◌≢◌, IfOk};
ghost use Rattle.uma_life.specs.Cached.{cached_body, cached_zone};
ghost use Rattle.uma_life.specs.Live.{live_no, live_ticket};
ghost use Rattle.uma_life.specs.Stored.{stored_body};

use super::counted::{Counted, CountedHooks};
use deed_book::Book;
use std::test::Fail;
use std::thread::{Threads, join};
use uma_life::{BringRefused, Cached, Live, Lives, Stored, Ticket, ZoneTally};

#[test]
fn an_item_passes_its_hooks_in_pairs_and_in_order(rt: HostRuntime) -> Result<(), Fail> {
    let hooks = CountedHooks::new(false);
    let mut book = Book::new(rt.alloc(), 8)?;
    let stored = Stored::bring(&rt, rt.alloc(), &hooks, 5)?;
    assert!(rt; stored.no() == 5);
    let Ok(cached) = stored.lend(&hooks, book.issue(5, 1), 2) else {
        panic!(rt; "zone_init refused")
    };
    let Err((cached, code)) = cached.build(&hooks, 7) else {
        panic!(rt; "ctor accepted the argument 7")
    };
    assert!(rt; code == 7 && cached.no() == 5 && cached.zone() == 1 && cached.domain() == 2);
    let Ok(live) = cached.build(&hooks, 0) else {
        panic!(rt; "ctor refused")
    };
    let (stored, deed) = live.finish(&hooks).give_back(&hooks);
    assert!(rt; book.accept(deed) == (5, 1));
    let tally = stored.end(&rt, &hooks);
    let once = ZoneTally {
        inits: 1,
        ctors: 1,
        dtors: 1,
        finis: 1,
    };
    assert!(rt; tally.keg_inits == 1 && tally.keg_finis == 1 && tally.zones[1] == once);
    assert!(rt; hooks.buried() == 1);
    Ok(())
}

#[test]
fn a_body_that_keg_init_refuses_is_buried(rt: HostRuntime) -> Result<(), Fail> {
    let hooks = CountedHooks::new(true);
    let refused = Stored::<Counted>::bring(&rt, rt.alloc(), &hooks, 5).err();
    assert!(rt; refused == Some(BringRefused::Init { code: 9 }));
    let text = format!(in rt.alloc(); "{}", BringRefused::Init { code: 9 })?;
    assert_eq!(rt; text.as_str(), "keg_init refused the item with code 9");
    assert!(rt; hooks.buried() == 1);
    Ok(())
}

#[test]
fn zone_init_runs_in_secondary_zones_alone(rt: HostRuntime) -> Result<(), Fail> {
    let hooks = CountedHooks::new(false);
    let mut book = Book::new(rt.alloc(), 8)?;
    let stored = Stored::bring(&rt, rt.alloc(), &hooks, 5)?;
    let Err((stored, deed, code)) = stored.lend(&hooks, book.issue(5, 6), 0) else {
        panic!(rt; "zone_init accepted zone 6")
    };
    assert!(rt; code == 6 && stored.no() == 5 && book.accept(deed) == (5, 6));
    let Ok(cached) = stored.lend(&hooks, book.issue(5, 0), 0) else {
        panic!(rt; "zone_init refused zone 0")
    };
    assert!(rt; cached.body().tally.zones[0].inits == 0);
    let (stored, deed) = cached.give_back(&hooks);
    assert!(rt; book.accept(deed) == (5, 0));
    assert!(rt; stored.end(&rt, &hooks).zones[0].finis == 0);
    Ok(())
}

// A live item whose own word was changed, on a thread of its own.
fn marked_elsewhere<R: Threads + Sync>(rt: &R, live: Live<Counted>, word: u64) -> Live<Counted>
    ensures number { live_no result ≡ live_no live }
    ensures ticket { live_ticket result ≡ live_ticket live }
{
    let mark = move || -> Live<Counted>
        ensures number { live_no result ≡ live_no live }
        ensures ticket { live_ticket result ≡ live_ticket live }
    {
        let (mut body, ticket) = live.into_parts();
        body.word = word;
        Live::from_parts(body, ticket)
    };
    join(rt, mark, || ()).0
}

#[test]
fn a_live_item_keeps_its_ticket_across_threads_and_lists(rt: HostRuntime) -> Result<(), Fail> {
    let hooks = CountedHooks::new(false);
    let mut book = Book::new(rt.alloc(), 8)?;
    let stored = Stored::bring(&rt, rt.alloc(), &hooks, 5)?;
    let Ok(cached) = stored.lend(&hooks, book.issue(5, 1), 3) else {
        panic!(rt; "zone_init refused")
    };
    let Ok(live) = cached.build(&hooks, 0) else {
        panic!(rt; "ctor refused")
    };
    let live = marked_elsewhere(&rt, live, 77);
    let lives = Lives::from_vec(vec![in rt.alloc(); live]?);
    for live in lives.into_vec() {
        assert!(rt; live.no() == 5 && live.zone() == 1 && live.domain() == 3);
        assert!(rt; live.body().word == 77);
        let (deed, domain) = remade(live.into_parts().1).into_deed();
        assert!(rt; deed.no() == 5 && deed.zone() == 1 && domain == 3);
    }
    Ok(())
}

// A ticket of a ticket's deed and domain is that ticket again.
fn remade(ticket: Ticket) -> Ticket
    ensures { result ≡ ticket }
{
    let (deed, domain) = ticket.into_deed();
    Ticket::of(deed, domain)
}

// What an item's own hooks put into its word comes out of each step: the argument by `ctor`, their mark by `dtor`.
fn used(hooks: &CountedHooks, item: Cached<Counted>, arg: u64) -> Result<Cached<Counted>, u8>
    ensures { IfOk result (λ item. (cached_body item).word ≡ hooks.now.mark) }
{
    match item.build(hooks, arg) {
        Ok(live) => Ok(live.finish(hooks)),
        Err((_item, code)) => Err(code),
    }
}

// And their mark by `zone_fini`, in a secondary zone.
fn home(hooks: &CountedHooks, item: Cached<Counted>) -> Stored<Counted>
    ensures { cached_zone item ≢ 0 → (stored_body result).word ≡ hooks.now.mark }
{
    item.give_back(hooks).0
}

#[test]
fn a_body_is_as_the_hooks_left_it_that_ran(rt: HostRuntime) -> Result<(), Fail> {
    let (keg, zone) = (CountedHooks::marking(10), CountedHooks::marking(20));
    let mut book = Book::new(rt.alloc(), 8)?;
    let stored = Stored::bring(&rt, rt.alloc(), &keg, 5)?;
    assert!(rt; stored.body().word == 10);
    let Ok(cached) = stored.lend(&zone, book.issue(5, 1), 0) else {
        panic!(rt; "zone_init refused")
    };
    assert!(rt; cached.body().word == 20);
    let cached = used(&keg, cached, 30)?;
    assert!(rt; cached.body().word == 10);
    assert!(rt; home(&zone, cached).body().word == 20);
    Ok(())
}
