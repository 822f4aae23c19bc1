ghost use Rattle.std.specs.Prelude.{◌≡◌, ◌<◌, None, Some, length, slice_get, slice_set, ◌+◌, ◌^◌, IfOk, IfErr, OnOk, ℕ, ◌≤◌, ◌↔◌, IsTrue};
ghost use Rattle.std.specs.Option.{option_copied};
ghost use Rattle.uma_life.specs.Life.{raw_life};
ghost use Rattle.uma_life.specs.Sum.{AreBelow};
ghost use Rattle.uma_keg.specs.SlabItems.{places_of_slab};
ghost use Rattle.uma_keg.specs.Ended.{MayEnd, EndsItems, EndsItem};
ghost use Rattle.uma_keg.specs.NewItems.{RefusesItems, AreNumbers, MayBringItems, MakesItems, StopsMaking};
ghost use Rattle.uma_keg.specs.BringSlab.{BringsSlab, StaysWithout, BringsOrRefuses};
ghost use Rattle.uma_keg.specs.Keg.{buried_in, places_in, reserve_in};
ghost use Rattle.uma_keg.specs.Frames.{KeepsButSlabs};
ghost use Rattle.uma_keg.specs.Fetch.{IsNewSlabs};
ghost use Rattle.uma_keg.specs.BringSlabs.{found_in, BringsSlabs, StopsAtSlab, WantsSlab};
ghost use Rattle.uma_slabs.specs.Places.{free_count};
ghost use Rattle.uma_keg.specs.FreeSlabs.{FreesAtOnce, FreesGreatest};

use crate::fetch::FetchRefused;
use crate::keg::Keg;
use std::alloc::Global;
use std::sync::Wait;
use uma_life::{Body, BringRefused, Hooks, Stored, TallySum};
use uma_slabs::KegCounts;
use zone_stats::Refusal;

/// The items of one slab that are at home, each at its place. None where the place's item is outside.
#[derive(Drop)]
pub(crate) struct SlabItems<T: Body> {
    pub(crate) places: Vec<Option<Stored<T>>>,
}

impl<T: Body> SlabItems<T> {
    ghost use Rattle.uma_keg.specs.SlabItems.{TakesPlace};
    ghost use Rattle.uma_keg.specs.HomeLists.{item_on};

    /// The item of a place, if it is there.
    pub fn item(&self, place: u32) -> Option<&Stored<T>>
        requires { place < length (places_of_slab self.now) }
        ensures { option_copied result ≡ item_on place self.now }
    {
        self.places[place as usize].as_ref()
    }

    /// Takes the item of a place, if it is there.
    pub fn take(&mut self, place: u32) -> Option<Stored<T>>
        requires { place < length (places_of_slab self.old) }
        ensures { TakesPlace self.old place result self.new }
    {
        self.places[place as usize].take()
    }

    /// Puts an item at its place, where none is.
    #[tactic(auto, using(std::proofs::lemmas::Option::slice_get_within))]
    pub fn put(&mut self, place: u32, item: Stored<T>)
        requires { slice_get (places_of_slab self.old) place ≡ Some None }
        ensures { places_of_slab self.new ≡ slice_set (places_of_slab self.old) place (Some item) }
    {
        let gap = self.places[place as usize].replace(item);
        let None = gap else { unreachable!() };
    }

    /// Makes the items of a new slab, the first of which has the number `first`. Where `keg_init` refuses one, or memory
    /// is wanting, those made before it are ended, and their tallies are added to the buried.
    pub fn bring<K: Hooks<T>, R: Wait>(
        rt: &R,
        alloc: Global,
        hooks: &K,
        first: u32,
        per_slab: u32,
        buried: &mut TallySum,
    ) -> Result<SlabItems<T>, BringRefused>
        requires { MayBringItems first per_slab buried.old }
        ensures made { IfOk result (λ slab_items. MakesItems first per_slab (K.origin hooks.now) (λ place. (raw : T) × (T.life raw ≡ raw_life (first + place)) × (K.refuses_init hooks.now raw 0 ≡ None)) (places_of_slab slab_items)) }
        ensures buried { OnOk result (buried.new ≡ buried.old) }
        ensures refused { IfErr result (RefusesItems per_slab (λ place code. (raw : T) × (T.life raw ≡ raw_life (first + place)) × (K.refuses_init hooks.now raw 0 ≡ Some code)) (λ place. (raw : T) × (T.life raw ≡ raw_life (first + place)) × (K.refuses_init hooks.now raw 0 ≡ None)) buried.old buried.new) }
    {
        match make_items(rt, alloc, hooks, first, per_slab) {
            Ok(places) => Ok(SlabItems { places }),
            Err((places, refused)) => {
                end_all(rt, hooks, places, buried);
                Err(refused)
            }
        }
    }

    /// Ends the items that are there, and adds their tallies to the buried.
    pub fn end<K: Hooks<T>, R: Wait>(self, rt: &R, hooks: &K, buried: &mut TallySum)
        requires { MayEnd (places_of_slab self) buried.old }
        ensures { EndsItems (λ body gone. K.leaves_fini hooks.now body 0 gone) (places_of_slab self) buried.old buried.new }
    {
        let SlabItems { places } = self;
        end_all(rt, hooks, places, buried);
    }
}

/// The items of a new slab; or else those made before one was refused, and why it was.
fn make_items<T: Body, K: Hooks<T>, R: Wait>(
    rt: &R,
    alloc: Global,
    hooks: &K,
    first: u32,
    per_slab: u32,
) -> Result<Vec<Option<Stored<T>>>, (Vec<Option<Stored<T>>>, BringRefused)>
    requires { AreNumbers first per_slab }
    ensures made { IfOk result (λ places. MakesItems first per_slab (K.origin hooks.now) (λ place. (raw : T) × (T.life raw ≡ raw_life (first + place)) × (K.refuses_init hooks.now raw 0 ≡ None)) places.items) }
    ensures stopped { IfErr result (λ (places, refused). StopsMaking first per_slab (λ place code. (raw : T) × (T.life raw ≡ raw_life (first + place)) × (K.refuses_init hooks.now raw 0 ≡ Some code)) (λ place. (raw : T) × (T.life raw ≡ raw_life (first + place)) × (K.refuses_init hooks.now raw 0 ≡ None)) places.items refused) }
{
    let Ok(mut places) = Vec::with_capacity(alloc, per_slab as usize) else {
        return Err((Vec::new(alloc), BringRefused::Memory));
    };
    for place in 0..per_slab {
        match Stored::bring(rt, alloc, hooks, first + place) {
            Ok(item) => places.push_reserved(Some(item)),
            Err(refused) => return Err((places, refused)),
        }
    }
    Ok(places)
}

/// Ends the items of a slab that are there, and adds their tallies to the buried.
pub(crate) fn end_all<T: Body, K: Hooks<T>, R: Wait>(
    rt: &R,
    hooks: &K,
    mut places: Vec<Option<Stored<T>>>,
    buried: &mut TallySum,
)
    requires { MayEnd places.items buried.old }
    ensures { EndsItems (λ body gone. K.leaves_fini hooks.now body 0 gone) places.items buried.old buried.new }
{
    while let Some(place) = places.pop() {
        end_one(rt, hooks, place, buried);
    }
    places.destroy_empty();
}

/// Ends the item of a place, if one is there, and adds its tally to the buried.
fn end_one<T: Body, K: Hooks<T>, R: Wait>(
    rt: &R,
    hooks: &K,
    place: Option<Stored<T>>,
    buried: &mut TallySum,
)
    requires { AreBelow (2 ^ 127) buried.old }
    ensures { EndsItem (λ body gone. K.leaves_fini hooks.now body 0 gone) place buried.old buried.new }
{
    match place {
        Some(item) => buried.add(item.end(rt, hooks)),
        None => {}
    }
}

/// A slab is brought in while each sum of hooks is below this (own), so that no sum comes to its end.
pub(crate) const MOST_TALLIED: u128 = 1 << 120;

impl<T: Body, K: Hooks<T>> Keg<T, K> {
    /// Brings in one slab more, of the memory domain of the seat that asks.
    ///
    /// `Full` exactly where as many slabs are in as may be. `Init` where `keg_init` refuses an item, with its code; those
    /// of the slab that were made before it are ended, and no half of a slab is in. `Memory` where memory is wanting, or
    /// one of the sums of hooks is at 2^120. It waits for `raw` and `bury` alone.
    pub fn bring<R: Wait>(&mut self, rt: &R, alloc: Global, domain: u8) -> Result<(), FetchRefused>
        ensures { BringsOrRefuses self.old domain result self.new }
    {
        if !self.has_tally_room() {
            return Err(FetchRefused::Memory);
        }
        self.bring_slab(rt, alloc, domain)
    }

    /// The same where each sum is below its bound.
    pub(crate) fn bring_slab<R: Wait>(
        &mut self,
        rt: &R,
        alloc: Global,
        domain: u8,
    ) -> Result<(), FetchRefused>
        requires { AreBelow (2 ^ 120) (buried_in self.old) }
        ensures brings { OnOk result (BringsSlab self.old domain self.new) }
        ensures refused { IfErr result (λ why. StaysWithout self.old why self.new) }
        ensures kept { KeepsButSlabs self.old self.new }
    {
        let KegCounts {
            slabs,
            cap,
            made,
            per_slab,
            ..
        } = self.places.counts();
        if slabs == cap {
            return Err(FetchRefused::Refused {
                refusal: Refusal::Full { slabs, made },
            });
        }
        let Some(index) = self.home_items.first_gap() else {
            unreachable!()
        };
        let first = index * per_slab;
        match SlabItems::bring(rt, alloc, &self.hooks, first, per_slab, &mut self.buried) {
            Ok(slab_items) => {
                let Ok(_) = self.places.bring(domain) else {
                    unreachable!()
                };
                self.home_items.add(index, slab_items);
                Ok(())
            }
            Err(refused) => Err(FetchRefused::from(refused)),
        }
    }

    /// Brings in the least count of slabs with which some item is free beyond the reserve, or as many as may be. Where
    /// one is refused, those before it stay.
    pub(crate) fn bring_slabs<R: Wait>(
        &mut self,
        rt: &R,
        alloc: Global,
        domain: u8,
    ) -> Result<(), FetchRefused>
        requires { AreBelow (2 ^ 120) (buried_in self.old) }
        ensures brings { OnOk result ((slabs : ℕ) × BringsSlabs self.old domain slabs self.new × ((zone : ℕ) → IsNewSlabs (found_in self.old zone) slabs)) }
        ensures refused { IfErr result (λ why. StopsAtSlab self.old domain why self.new) }
        ensures kept { KeepsButSlabs self.old self.new }
    {
        while self.wants_slab() {
            self.bring_slab(rt, alloc, domain)?;
        }
        Ok(())
    }

    /// Whether no item is free beyond the reserve, and a further slab may be in.
    fn wants_slab(&self) -> bool
        ensures { WantsSlab self.now result }
    {
        let KegCounts {
            slabs,
            cap,
            free,
            ..
        } = self.places.counts();
        free <= self.reserve && slabs < cap
    }

    /// Gives up wholly free slabs, the greatest index first, and answers how many. It goes on while one is left and as
    /// many free items stay as the reserve has. So the count is the least of how many are wholly free and how many lie
    /// whole in what is free beyond the reserve.
    ///
    /// Their items pass `keg_fini` of the keg's own hooks and are buried. None is given up where more than `2^40 - cap` slabs were ever brought
    /// in. It waits for `bury` alone.
    pub fn free_slabs<R: Wait>(&mut self, rt: &R) -> u32
        ensures frees { FreesAtOnce self.old result self.new }
        ensures kept { KeepsButSlabs self.old self.new }
    {
        let KegCounts { per_slab, .. } = self.places.counts();
        let mut count = 0;
        while self.can_spare(per_slab) {
            let Some(_) = self.free_slab(rt) else {
                return count;
            };
            count += 1;
        }
        count
    }

    /// Whether the reserve stays where so many items are free no more.
    fn can_spare(&self, items: u32) -> bool
        ensures { IsTrue result ↔ (reserve_in self.now + items ≤ free_count (places_in self.now)) }
    {
        let KegCounts { free, .. } = self.places.counts();
        self.reserve <= free && u64::from(items) <= free - self.reserve
    }

    /// Gives up the wholly free slab of greatest index, whatever the reserve, and answers that index. None exactly where
    /// no slab is wholly free, or more than `2^40 - cap` were ever brought in; nothing changes then.
    fn free_slab<R: Wait>(&mut self, rt: &R) -> Option<u32>
        ensures frees { FreesGreatest self.old result self.new }
        ensures kept { KeepsButSlabs self.old self.new }
    {
        let index = self.places.drop_slab()?;
        let slab_items = self.home_items.remove(index);
        slab_items.end(rt, &self.hooks, &mut self.buried);
        Some(index)
    }
}
