ghost use Rattle.std.specs.Prelude.{◌≡◌, ◌+◌, ◌*◌, ◌^◌, sum_by, All, IfOk, IfErr, ◌<◌, ◌-◌, ◌↔◌, IsTrue, min};
ghost use Rattle.uma_life.specs.Sum.{AreBelow, times_of};
ghost use Rattle.uma_keg.specs.Paired.{ArePaired};
ghost use Rattle.uma_life.specs.Live.{live_table};
ghost use Rattle.uma_keg.specs.Outside.{outside_zones, outside_table};
ghost use Rattle.uma_keg.specs.Recount.{KeepsOutside, Recounts, MayTakeIn, TakesDeeds, MayIssueAgain, IssuesAgain};
ghost use Rattle.uma_life.specs.Hook.{Hook};
ghost use Rattle.uma_keg.specs.Totals.{MayAddHome, AddsHome};

use crate::home_items::{HomeItems, Outside, Undeeded};
use crate::keg::Keg;
use crate::slabs::MOST_TALLIED;
use deed_book::Book;
use std::alloc::Global;
use std::snapshot::Snapshot;
use uma_life::{Body, Hooks, Live, Lives, Tally, TallySum};
use uma_slabs::KegCounts;

/// How a keg stands, with the items outside it and what its own items passed. [`crate::Keg::census`] alone makes one.
///
/// The items of the slabs that are in are free or outside in one of the zones. In the tally, of the items at home and
/// the buried, hooks come in pairs: in each zone inits and finis, and ctors and dtors, are equal modulo 2^64. Each sum of
/// the tally is below 2^121.
#[derive(Drop)]
pub struct Census {
    pub(crate) counts: KegCounts,
    // By the zone's number.
    pub(crate) outs: [u64; 8],
    pub(crate) tally: TallySum,
    // That of the keg's numbers, for contracts alone.
    pub(crate) book: Snapshot<Book>,
    pub ghost balanced: { counts.slabs * counts.per_slab ≡ counts.free + sum_by (λ out. out) outs },
    pub ghost paired: { ArePaired tally },
    pub ghost bounded: { AreBelow (2 ^ 121) tally },
}

impl Census {
    ghost use Rattle.uma_keg.specs.Census.{census_counts, census_outs, AreCensusTally};

    /// Returns the counts of the keg at the census.
    pub fn counts(&self) -> KegCounts
        ensures { result ≡ census_counts self.now }
    {
        self.counts
    }

    /// Returns how many items were outside in each zone, 0 for a zone that didn't exist.
    pub fn outs(&self) -> [u64; 8]
        ensures { result ≡ census_outs self.now }
    {
        self.outs
    }

    /// Returns how often items have passed each hook, summed over the items in the keg and the buried ones.
    pub fn tally(&self) -> &TallySum
        ensures { AreCensusTally self.now result.now }
    {
        &self.tally
    }
}

impl<T: Body, K: Hooks<T>> Keg<T, K> {
    ghost use Rattle.uma_keg.specs.Totals.{AreTotals};
    ghost use Rattle.uma_keg.specs.Keg.{total_in, table_in};
    ghost use Rattle.uma_keg.specs.Frames.{IsUnchanged};
    ghost use Rattle.uma_keg.specs.Census.{CountsWith, IsCensusOf};

    /// Counts the keg, its items outside and the hooks, and gives the live items back that it was lent, in the same order.
    ///
    /// It takes the deeds of all of them in and issues them again: so no zone has fewer items outside than it was lent.
    /// The Err is want of memory alone, which is taken first.
    pub fn census(&mut self, alloc: Global, lives: Lives<T>) -> Result<(Census, Lives<T>), Lives<T>>
        requires { All (λ item. live_table item ≡ table_in self.old) lives }
        ensures census { IfOk result (λ (census, back). CountsWith self.old lives census back) }
        ensures refused { IfErr result (λ back. back ≡ lives) }
        ensures kept { IsUnchanged self.old self.new }
    {
        let back = recount(&mut self.outside, alloc, lives)?;
        Ok((self.counted(), back))
    }

    /// The census itself.
    fn counted(&self) -> Census
        ensures { IsCensusOf self.now result }
    {
        Census {
            counts: self.counts(),
            outs: self.outside.outs(),
            tally: self.wide_tally(),
            book: Snapshot::of(&self.outside.book),
        }
    }

    /// How often the items passed each hook, summed up over those at home in the keg and the buried.
    pub fn wide_tally(&self) -> TallySum
        ensures { AreTotals self.now result }
    {
        let KegCounts { cap, per_slab, .. } = self.places.counts();
        let mut sums = self.buried;
        for no in 0..cap * per_slab {
            add_home(&self.home_items, no, &mut sums);
        }
        sums
    }

    /// Whether each sum is below 2^120, so that slabs and items may come.
    pub(crate) fn has_tally_room(&self) -> bool
        ensures { IsTrue result ↔ ((hook : Hook) → total_in self.now hook < 2 ^ 120) }
    {
        let KegCounts { cap, per_slab, .. } = self.places.counts();
        // Each item at home adds less than 2^64, so it is seldom needed to go over them.
        let most_at_home = u128::from(cap * per_slab) * (1 << 64);
        self.buried.are_below(MOST_TALLIED - most_at_home)
            || self.wide_tally().are_below(MOST_TALLIED)
    }

    /// `wide_tally` as counts of 64 bits, where a sum above 2^64 - 1 is 2^64 - 1.
    pub fn tally(&self) -> Tally
        ensures { (hook : Hook) → times_of result hook ≡ min (total_in self.now hook) (2 ^ 64 - 1) }
    {
        self.wide_tally().capped()
    }
}

/// Takes the deeds of live items in and issues them again. So each was outside, and no zone has fewer numbers outside
/// than items in the list. The Err is want of memory alone.
pub(crate) fn recount<T: Body>(
    outside: &mut Outside,
    alloc: Global,
    lives: Lives<T>,
) -> Result<Lives<T>, Lives<T>>
    requires { All (λ item. live_table item ≡ outside_table outside.old) lives }
    ensures recounted { IfOk result (λ back. Recounts (outside_zones outside.old) lives back) }
    ensures refused { IfErr result (λ back. back ≡ lives) }
    ensures kept { KeepsOutside outside.old outside.new }
{
    let mut items = lives.into_vec();
    let Ok(mut taken) = Vec::with_capacity(alloc, items.len()) else {
        return Err(Lives::from_vec(items));
    };
    let before = Snapshot::of(&*outside);
    take_in(outside, &mut items, &mut taken);
    issue_again(outside, before, taken, &mut items);
    Ok(Lives::from_vec(items))
}

/// Takes the deeds of live items in, from the last item to the first.
fn take_in<T: Body>(outside: &mut Outside, items: &mut Vec<Live<T>>, taken: &mut Vec<Undeeded<T>>)
    requires { MayTakeIn outside.old items.old taken.old }
    ensures { TakesDeeds outside.old outside.new items.old items.new taken.new }
{
    while let Some(item) = items.pop() {
        let (item, deed) = Undeeded::of(item);
        outside.accept(deed);
        taken.push_reserved(item);
    }
}

/// Issues their deeds again, from the last that was taken in to the first. So the map of the numbers outside is as it
/// was before.
fn issue_again<T: Body>(
    outside: &mut Outside,
    before: Snapshot<Outside>,
    mut taken: Vec<Undeeded<T>>,
    items: &mut Vec<Live<T>>,
)
    requires { MayIssueAgain before.value outside.old taken items.old }
    ensures { IssuesAgain before.value outside.old outside.new taken.items items.new.items }
{
    while let Some(item) = taken.pop() {
        let (no, zone) = item.deed();
        items.push_reserved(item.with(outside.issue(no, zone)));
    }
    taken.destroy_empty();
}

/// Adds the tally of the item of a number, if it is at home.
fn add_home<T: Body>(home_items: &HomeItems<T>, no: u32, sums: &mut TallySum)
    requires { MayAddHome home_items.now no sums.old }
    ensures { AddsHome home_items.now no sums.old sums.new }
{
    match home_items.item(no) {
        Some(item) => sums.add(item.body().tally()),
        None => {}
    }
}
