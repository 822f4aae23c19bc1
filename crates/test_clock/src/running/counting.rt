ghost use Rattle.std.specs.Prelude.{◌≡◌, ◌<◌, Some, None, IsSome, IfOk};
ghost use Rattle.smr_core.specs.declared.holder.Phase.{Phase};
ghost use Rattle.smr_clock.specs.Belongs.{IsPassOf, view, holder, table_of, setup_of};
ghost use Rattle.smr_clock.specs.CountingHost.{count_place};
ghost use Rattle.smr_clock.specs.HostSteps.{IsHand};
ghost use Rattle.smr_clock.specs.Notes.{IsSeatOf, IsNoteOf, seat_knows, note_knows};

use super::*;
use smr_clock::{Host, HostAct, HostJoin, HostPlay, HostSeat, HostSplit, Note};
use smr_core::hands::{READ_PLACE, WRITE_PLACE};

/// A host with one word of its own, which only the seat that keeps it stores.
struct Counting;

impl Host for Counting {
    type Part = Option<u64>;

    ghost use Rattle.std.specs.Prelude.{refl, Some, None};
    ghost use Rattle.smr_clock.specs.CountingHost.{Counted, keeps_none, counted_includes, counted_frame, counted_split, counted_join};

    ghost holds = { λ setup words views. Counted setup words views };

    ghost first = { λ setup. Some setup.plan.0 };

    ghost blank = { None };

    ghost may_note = { keeps_none };

    ghost copied = { λ _. None };

    ghost merged = { λ part _. part };

    ghost may_copy = { λ _. refl };

    ghost includes = { counted_includes };

    ghost frame = { counted_frame };

    ghost split = { counted_split };

    ghost join = { counted_join };
}

/// A step of the seat that keeps the word.
struct Counts;

impl HostPlay<Counting> for Counts {
    ghost use Rattle.smr_clock.specs.CountingHost.{counts};

    ghost changes = { counts };
}

/// A step that only looks.
struct Reads;

impl HostPlay<Counting> for Reads {
    ghost use Rattle.smr_clock.specs.CountingHost.{reads};

    ghost changes = { reads };
}

/// The new seat keeps the word.
struct HandsOver;

impl HostSplit<Counting> for HandsOver {
    ghost use Rattle.std.specs.Prelude.{None};

    ghost left = { λ _. None };

    ghost right = { λ part. part };
}

/// The seat keeps the word if either did.
struct TakesBack;

impl HostJoin<Counting> for TakesBack {
    ghost use Rattle.smr_clock.specs.CountingHost.{either_count};

    ghost both = { either_count };
}

// A clock of two seats, whose word begins as the host's first number. The seat keeps the word.
fn counted(
    alloc: Global,
    count: u32,
) -> Result<(Clock<Counting>, Pass<Counting>, HostSeat<Counting>), ClockRefused>
    ensures here { IfOk result (λ made. IsPassOf made.0 made.1 × IsSeatOf made.0 made.2) }
    ensures worded { IfOk result (λ made. count_place (setup_of made.0) < (table_of made.0).words) }
    ensures outside { IfOk result (λ made. (holder made.1).phase ≡ Phase.Outside) }
    ensures keeps { IfOk result (λ made. (seat_knows made.2).host ≡ Some count) }
{
    let more = vec![in alloc; u64::from(count); 1]?;
    let (clock, mut passes, seat) = Clock::<Counting>::hosted(alloc, 2, 1, 8, more, (count, 0))?;
    let Some(pass) = passes.pop() else {
        unreachable!()
    };
    Ok((clock, pass, seat))
}

fn count_word(clock: &Clock<Counting>) -> u32
    ensures { result ≡ count_place (setup_of clock.now) }
{
    clock.host_place()
}

// What stands in the word, as any pass may read it.
fn read(clock: &Clock<Counting>, pass: &mut Pass<Counting>) -> u64
    requires here { IsPassOf clock.now pass.old }
    requires worded { count_place (setup_of clock.now) < (table_of clock.now).words }
    ensures here { IsPassOf clock.now pass.new }
    ensures view { view pass.new ≡ view pass.old }
{
    clock.host_step::<Reads>(pass, count_word(clock), HostAct::Load)
}

// Stores a number in the word. What stood there is what the seat knew.
fn put(clock: &Clock<Counting>, seat: &mut HostSeat<Counting>, count: u64) -> u64
    requires here { IsSeatOf clock.now seat.old }
    requires worded { count_place (setup_of clock.now) < (table_of clock.now).words }
    requires keeps { IsSome (seat_knows seat.old).host }
    ensures here { IsSeatOf clock.now seat.new }
    ensures found { (seat_knows seat.old).host ≡ Some result }
    ensures keeps { (seat_knows seat.new).host ≡ Some count }
{
    clock.seat_step::<Counts>(seat, count_word(clock), HostAct::Store { value: count })
}

// A hand, as the seat loads it.
fn hand(clock: &Clock<Counting>, seat: &mut HostSeat<Counting>, word: u32) -> u64
    requires here { IsSeatOf clock.now seat.old }
    requires hand { IsHand word }
    ensures here { IsSeatOf clock.now seat.new }
    ensures host { (seat_knows seat.new).host ≡ (seat_knows seat.old).host }
{
    clock.seat_step::<Reads>(seat, word, HostAct::Load)
}

// The new seat keeps the word from now on.
fn hand_over(clock: &Clock<Counting>, seat: &mut HostSeat<Counting>) -> HostSeat<Counting>
    requires here { IsSeatOf clock.now seat.old }
    ensures here { IsSeatOf clock.now seat.new }
    ensures other_here { IsSeatOf clock.now result }
    ensures keeps_none { (seat_knows seat.new).host ≡ None }
    ensures keeps { (seat_knows result).host ≡ (seat_knows seat.old).host }
{
    clock.seat_split::<HandsOver>(seat)
}

// The first seat keeps the word again. The other is spent.
fn take_back(clock: &Clock<Counting>, seat: &mut HostSeat<Counting>, other: HostSeat<Counting>)
    requires here { IsSeatOf clock.now seat.old }
    requires other_here { IsSeatOf clock.now other }
    requires keeps_none { (seat_knows seat.old).host ≡ None }
    ensures here { IsSeatOf clock.now seat.new }
    ensures keeps { (seat_knows seat.new).host ≡ (seat_knows other).host }
{
    clock.seat_join::<TakesBack>(seat, other);
}

#[test]
fn the_seat_that_keeps_a_word_knows_what_it_finds(rt: HostRuntime) -> Result<(), Fail> {
    let (clock, mut pass, mut seat) = counted(rt.alloc(), 7)?;
    let again = clock.share(rt.alloc())?;
    assert_eq!(rt; read(&clock, &mut pass), 7);
    assert_eq!(rt; put(&again, &mut seat, 9), 7);
    let mut other = hand_over(&clock, &mut seat);
    assert_eq!(rt; put(&clock, &mut other, 11), 9);
    take_back(&again, &mut seat, other);
    assert_eq!(rt; put(&clock, &mut seat, 13), 11);
    assert_eq!(rt; read(&again, &mut pass), 13);
    Ok(())
}

#[test]
fn the_clock_goes_on_under_a_host(rt: HostRuntime) -> Result<(), Fail> {
    let (clock, mut pass, mut seat) = counted(rt.alloc(), 7)?;
    clock.enter(&mut pass)?;
    let goal = clock.advance(&mut pass)?;
    assert!(rt;
        hand(&clock, &mut seat, WRITE_PLACE as u32) == 3
            && hand(&clock, &mut seat, READ_PLACE as u32) == 1
    );
    clock.exit(&mut pass);
    let seat = clock.note(&mut pass).into_host();
    let mut note = Note::of_host(seat);
    assert!(rt; clock.poll(&mut note, &goal));
    clock.absorb(&mut pass, note);
    assert_eq!(rt; clock.hands(&mut pass), (3, 3));
    assert!(rt; clock.plan() == (7, 0) && read(&clock, &mut pass) == 7);
    Ok(())
}
