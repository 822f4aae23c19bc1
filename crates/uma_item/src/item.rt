ghost use Rattle.std.specs.Prelude.{◌≡◌, ◌<◌, ◌≤◌};
ghost use Rattle.uma_item.specs.Counts.{kept_stays, KeepsItsStays};
ghost use Rattle.uma_life.specs.Trail.{keg_inits_by, keg_finis_by, open_builds, open_stays};
ghost use Rattle.std.specs.Fn.{FnOnceReturnsAtMut};

use crate::trail::Trailed;
use uma_life::{Body, BodyPhase, Live, Tally, ZoneTally};

/// How often an item entered a secondary zone, and how often it was built there. The counts wrap.
#[derive(Clone, Copy, Debug, PartialEq, Eq)]
pub struct StayCounts {
    pub inits: u64,
    pub ctors: u64,
}

/// An item that keeps the user's data with its own trail, in one block that is made with its slab: what moves is one word.
#[derive(Drop)]
pub struct Item<B> {
    pub(crate) whole: Box<Trailed<B>>,
    pub ghost counted: { KeepsItsStays whole.value.phase (kept_stays whole.value.stays) },
}

/// 1 where an item of this phase is built in the zone, else 0.
fn builds(phase: BodyPhase, zone: u8) -> u64
    ensures { result ≡ open_builds phase zone }
{
    match phase {
        BodyPhase::Built { zone: of } if of == zone => 1,
        _ => 0,
    }
}

/// 1 where an item of this phase stays in the secondary zone, else 0.
fn stays(phase: BodyPhase, zone: u8) -> u64
    requires { 1 ≤ zone }
    ensures { result ≡ open_stays phase zone }
{
    match phase {
        BodyPhase::Zoned { zone: of } if of == zone => 1,
        BodyPhase::Built { zone: of } if of == zone => 1,
        _ => 0,
    }
}

/// 1 where an item of this phase passed `keg_init`, else 0.
fn keg_inits(phase: BodyPhase) -> u64
    ensures { result ≡ keg_inits_by phase }
{
    match phase {
        BodyPhase::Raw => 0,
        _ => 1,
    }
}

/// 1 where an item of this phase passed `keg_fini`, else 0.
fn keg_finis(phase: BodyPhase) -> u64
    ensures { result ≡ keg_finis_by phase }
{
    match phase {
        BodyPhase::Gone => 1,
        _ => 0,
    }
}

impl<B> Item<B> {
    ghost use Rattle.uma_item.specs.Counts.{stay_at};
    ghost use Rattle.uma_item.specs.Item.{item_data, item_life, item_stays, item_counts, item_tally};
    ghost use Rattle.uma_life.specs.Live.{live_body, live_ticket};

    /// Returns the user's data.
    pub fn data(&self) -> &B
        ensures { result.now ≡ item_data self.now }
    {
        &self.whole.data
    }

    /// The kept counts of a secondary zone; 0 where the item keeps none.
    fn stay(&self, zone: u8) -> StayCounts
        requires { 1 ≤ zone }
        ensures { result ≡ stay_at (item_stays self.now) zone }
    {
        let none = StayCounts { inits: 0, ctors: 0 };
        match &self.whole.stays {
            Some(counts) => counts.get(zone as usize - 1).copied().unwrap_or(none),
            None => none,
        }
    }

    /// How often the item passed each hook of a zone.
    fn counts(&self, zone: u8) -> ZoneTally
        ensures { result ≡ item_counts self.now zone }
    {
        if zone == 0 {
            return ZoneTally {
                inits: 0,
                ctors: self.whole.ctors,
                dtors: self.whole.ctors.wrapping_sub(builds(self.whole.phase, 0)),
                finis: 0,
            };
        }
        let stay = self.stay(zone);
        ZoneTally {
            inits: stay.inits,
            ctors: stay.ctors,
            dtors: stay.ctors.wrapping_sub(builds(self.whole.phase, zone)),
            finis: stay.inits.wrapping_sub(stays(self.whole.phase, zone)),
        }
    }

    /// How often the item passed each hook.
    pub(crate) fn whole_tally(&self) -> Tally
        ensures { result ≡ item_tally self.now }
    {
        Tally {
            keg_inits: keg_inits(self.whole.phase),
            keg_finis: keg_finis(self.whole.phase),
            zones: [
                self.counts(0),
                self.counts(1),
                self.counts(2),
                self.counts(3),
                self.counts(4),
                self.counts(5),
                self.counts(6),
                self.counts(7),
            ],
        }
    }

    /// Changes the data of a live item in place. Returns the item and the result of `change`. The item keeps its phase,
    /// counts, number, zone and domain, whatever `change` does.
    pub fn change<R, F: FnOnce(&mut B) -> R>(live: Live<Item<B>>, change: F) -> (Live<Item<B>>, R)
        requires { F.IsAlwaysCallable change }
        ensures changed { FnOnceReturnsAtMut F.FnOnce change (item_data (live_body live)) result.1 (item_data (live_body result.0)) }
        ensures life { item_life (live_body result.0) ≡ item_life (live_body live) }
        ensures ticket { live_ticket result.0 ≡ live_ticket live }
    {
        let (mut item, ticket) = live.into_parts();
        let answer = change(&mut item.whole.data);
        (Live::from_parts(item, ticket), answer)
    }
}

impl<B> Body for Item<B> {
    ghost use Rattle.uma_item.specs.Item.{item_life};

    ghost life = { λ item. item_life item };

    fn no(&self) -> u32 {
        self.whole.no
    }

    fn phase(&self) -> BodyPhase {
        self.whole.phase
    }

    fn tally(&self) -> Tally {
        self.whole_tally()
    }
}
