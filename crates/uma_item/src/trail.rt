ghost use Rattle.std.specs.Prelude.{◌≡◌, ◌≤◌, ◌<◌, ◌-◌, true, false, [], length, slice_set, ℕ, Option, Some, None, IfOk, IfErr, ◌==◌, replicate};
ghost use Rattle.uma_item.specs.Counts.{kept_stays, stay_at, with_init, with_ctor, no_stays, first_stays, refusal_of_stay};
ghost use Rattle.uma_life.specs.Hook.{KegInit, ZoneInit, Ctor, Dtor, ZoneFini, KegFini, MayPass, after, base_phase, IsCode};
ghost use Rattle.uma_item.specs.Item.{item_data, item_stays};

use crate::item::{Item, StayCounts};
use std::alloc::Global;
use std::sync::Wait;
use uma_life::{BodyPhase, Hooks, Memory, Tally};

/// The phase of an item that is in a zone and not built.
fn unbuilt(zone: u8) -> BodyPhase
    ensures { result ≡ base_phase zone }
{
    if zone == 0 {
        BodyPhase::Kept
    } else {
        BodyPhase::Zoned { zone }
    }
}

/// True: an item with a box has counts for each of the seven secondary zones.
fn are_seven(counts: &[StayCounts; 7]) -> bool
    ensures yes { result ≡ true }
    ensures seven { length counts.now ≡ 7 }
{
    true
}

/// Counts an init of a secondary zone.
fn count_init(stays: &mut Option<Box<[StayCounts; 7]>>, zone: u8)
    requires secondary { 1 ≤ zone }
    requires within { zone < 8 }
    ensures { kept_stays stays.new ≡ slice_set (kept_stays stays.old) (zone - 1) (with_init (stay_at (kept_stays stays.old) zone)) }
{
    if let Some(counts) = stays {
        let stay = &mut counts[zone as usize - 1];
        stay.inits = stay.inits.wrapping_add(1);
    }
}

/// Counts a ctor in a secondary zone.
fn count_ctor(stays: &mut Option<Box<[StayCounts; 7]>>, zone: u8)
    requires secondary { 1 ≤ zone }
    requires within { zone < 8 }
    ensures { kept_stays stays.new ≡ slice_set (kept_stays stays.old) (zone - 1) (with_ctor (stay_at (kept_stays stays.old) zone)) }
{
    if let Some(counts) = stays {
        let stay = &mut counts[zone as usize - 1];
        stay.ctors = stay.ctors.wrapping_add(1);
    }
}

impl<B> Item<B> {
    ghost use Rattle.uma_item.specs.Item.{item_life};

    /// Whether the item keeps the counts of stays in secondary zones.
    pub(crate) fn keeps_stays(&self) -> bool
        ensures none { result ≡ false → item_stays self.now ≡ [] }
        ensures all { result ≡ true → length (item_stays self.now) ≡ 7 }
    {
        match &self.whole.stays {
            Some(counts) => are_seven(counts),
            None => false,
        }
    }

    /// The item passes `keg_init`.
    pub(crate) fn come(&mut self)
        requires { MayPass KegInit (item_life self.old) }
        ensures life { item_life self.new ≡ after KegInit (item_life self.old) }
        ensures data { item_data self.new ≡ item_data self.old }
    {
        self.whole.phase = BodyPhase::Kept;
    }

    /// The item passes `keg_fini`.
    pub(crate) fn go(&mut self)
        requires { MayPass KegFini (item_life self.old) }
        ensures life { item_life self.new ≡ after KegFini (item_life self.old) }
        ensures data { item_data self.new ≡ item_data self.old }
    {
        self.whole.phase = BodyPhase::Gone;
    }

    /// The item passes `dtor`.
    pub(crate) fn end_use(&mut self, zone: u8)
        requires { MayPass (Dtor zone) (item_life self.old) }
        ensures life { item_life self.new ≡ after (Dtor zone) (item_life self.old) }
        ensures data { item_data self.new ≡ item_data self.old }
    {
        self.whole.phase = unbuilt(zone);
    }

    /// The item passes `zone_fini`.
    pub(crate) fn leave(&mut self, zone: u8)
        requires { MayPass (ZoneFini zone) (item_life self.old) }
        ensures life { item_life self.new ≡ after (ZoneFini zone) (item_life self.old) }
        ensures data { item_data self.new ≡ item_data self.old }
    {
        self.whole.phase = BodyPhase::Kept;
    }

    /// The item passes `zone_init` of a secondary zone. It keeps the counts of its stays.
    pub(crate) fn enter(&mut self, zone: u8)
        requires free { MayPass (ZoneInit zone) (item_life self.old) }
        requires counts { length (item_stays self.old) ≡ 7 }
        ensures life { item_life self.new ≡ after (ZoneInit zone) (item_life self.old) }
        ensures data { item_data self.new ≡ item_data self.old }
    {
        count_init(&mut self.whole.stays, zone);
        self.whole.phase = BodyPhase::Zoned { zone };
    }

    /// The item passes `ctor`.
    pub(crate) fn begin_use(&mut self, zone: u8)
        requires { MayPass (Ctor zone) (item_life self.old) }
        ensures life { item_life self.new ≡ after (Ctor zone) (item_life self.old) }
        ensures data { item_data self.new ≡ item_data self.old }
    {
        if zone == 0 {
            self.begin_use_in_primary();
        } else {
            self.begin_use_in_stay(zone);
        }
    }

    fn begin_use_in_primary(&mut self)
        requires { MayPass (Ctor 0) (item_life self.old) }
        ensures life { item_life self.new ≡ after (Ctor 0) (item_life self.old) }
        ensures data { item_data self.new ≡ item_data self.old }
    {
        self.whole.ctors = self.whole.ctors.wrapping_add(1);
        self.whole.phase = BodyPhase::Built { zone: 0 };
    }

    fn begin_use_in_stay(&mut self, zone: u8)
        requires secondary { 1 ≤ zone }
        requires free { MayPass (Ctor zone) (item_life self.old) }
        ensures life { item_life self.new ≡ after (Ctor zone) (item_life self.old) }
        ensures data { item_data self.new ≡ item_data self.old }
    {
        count_ctor(&mut self.whole.stays, zone);
        self.whole.phase = BodyPhase::Built { zone };
    }
}

/// The user's data with the item's trail, which takes at most 32 bytes.
///
/// 1. What the life trail lets one derive isn't kept: the keg's counts follow from the phase, a zone's dtors from its
///    ctors and the phase, its finis from its inits and the phase.
/// 2. An item that never enters a secondary zone keeps the count of its ctors alone. One that may has its other counts
///    in a box, which is taken when the item is made.
#[derive(Drop)]
pub struct Trailed<B> {
    pub(crate) data: B,
    pub(crate) no: u32,
    pub(crate) phase: BodyPhase,
    /// The ctors of the primary zone.
    pub(crate) ctors: u64,
    /// The counts of zones 1 to 7, each at one place less.
    pub(crate) stays: Option<Box<[StayCounts; 7]>>,
}

/// What a user of a zone writes: how the data of an item is made, and what each hook does to it.
///
/// 1. The ghost members say what each hook leaves of the data. Each may say as much or as little as it can; where it
///    isn't written the hook leaves the data as it was, and refuses nothing.
/// 2. `init` and `ctor` may refuse, by the implementation's own meaning of refusal, with a code from 1 to 255. Then they
///    leave the data as it was.
/// 3. `make` and `bury` alone may wait.
///
/// The zone is 0 for the primary zone, 1 to 7 for a secondary one.
pub trait ItemHooks<B>: Drop {
    /// Which data `make` makes for a number.
    ghost makes: { Self → ℕ → B → Type 0 } = { λ hooks number made. Unit {0} };

    /// The code with which `init` refuses data in a zone.
    ghost refuses_init: { Self → B → ℕ → Option ℕ } = { λ hooks before zone. None };

    /// What `init` leaves of data that it takes in a zone.
    ghost leaves_init: { Self → B → ℕ → B → Type 0 } = { λ hooks before zone left. left ≡ before };

    /// The code with which `ctor` refuses data in a zone with an argument.
    ghost refuses_ctor: { Self → B → ℕ → ℕ → Option ℕ } = { λ hooks before zone arg. None };

    /// What `ctor` leaves of data that it takes in a zone with an argument.
    ghost leaves_ctor: { Self → B → ℕ → ℕ → B → Type 0 } = { λ hooks before zone arg left. left ≡ before };

    /// What `dtor` leaves of data in a zone.
    ghost leaves_dtor: { Self → B → ℕ → B → Type 0 } = { λ hooks before zone left. left ≡ before };

    /// What `fini` leaves of data in a zone.
    ghost leaves_fini: { Self → B → ℕ → B → Type 0 } = { λ hooks before zone left. left ≡ before };

    /// Makes the data of an item, when its slab is brought in. It runs under the keg's lock.
    ///
    /// # Arguments
    ///
    /// - `no`: the item's number in its keg, below 262,144.
    ///
    /// # Errors
    ///
    /// `Memory`: out of memory. The slab isn't brought in.
    fn make<R: Wait>(&self, rt: &R, alloc: Global, no: u32) -> Result<B, Memory>
        ensures { IfOk result (λ made. makes self.now no made) };

    /// Runs in zone 0 when the item's slab is brought in, and in a secondary zone when the item enters it.
    ///
    /// # Arguments
    ///
    /// - `zone`: the number of the zone, 0 to 7.
    ///
    /// # Errors
    ///
    /// A code, 1 to 255, refuses the item. The data is then unchanged.
    fn init(&self, zone: u8, item: &mut B) -> Result<(), u8>
        ensures left { IfOk result (λ _. leaves_init self.now item.old zone item.new) }
        ensures accepts { IfOk result (λ _. refuses_init self.now item.old zone ≡ None) }
        ensures refuses { IfErr result (λ code. (refuses_init self.now item.old zone ≡ Some code) × IsCode code) }
        ensures unchanged { IfErr result (λ _. item.new ≡ item.old) };

    /// Runs on each allocation.
    ///
    /// # Arguments
    ///
    /// - `zone`: the number of the zone, 0 to 7.
    /// - `arg`: the argument of the request, any number.
    ///
    /// # Errors
    ///
    /// A code, 1 to 255, refuses the item. The data is then unchanged.
    fn ctor(&self, zone: u8, item: &mut B, arg: u64) -> Result<(), u8>
        ensures left { IfOk result (λ _. leaves_ctor self.now item.old zone arg item.new) }
        ensures accepts { IfOk result (λ _. refuses_ctor self.now item.old zone arg ≡ None) }
        ensures refuses { IfErr result (λ code. (refuses_ctor self.now item.old zone arg ≡ Some code) × IsCode code) }
        ensures unchanged { IfErr result (λ _. item.new ≡ item.old) };

    /// Runs once for each allocation that was freed. In an SMR zone it runs when the item's bucket is ripe.
    ///
    /// # Arguments
    ///
    /// - `zone`: the number of the zone, 0 to 7.
    fn dtor(&self, zone: u8, item: &mut B)
        ensures { leaves_dtor self.now item.old zone item.new };

    /// Runs when the item leaves a secondary zone, and in zone 0 when its slab is given up.
    ///
    /// # Arguments
    ///
    /// - `zone`: the number of the zone, 0 to 7.
    fn fini(&self, zone: u8, item: &mut B)
        ensures { leaves_fini self.now item.old zone item.new };

    /// Ends the data of an item that has passed no hook, or all of them.
    fn bury<R: Wait>(&self, rt: &R, item: B);
}

/// The code with which an item that keeps no counts of stays refuses to enter a secondary zone.
pub const NO_STAYS: u8 = 255;

/// The hooks of a zone of items that carry their own trail, around what a user wrote for their data.
#[derive(Drop)]
pub struct TrailHooks<K> {
    hooks: K,
    stays: bool,
}

impl<K> TrailHooks<K> {
    /// Wraps a user's hooks, for items that never enter a secondary zone. An item that should enter one refuses with
    /// `NO_STAYS`, 255.
    pub fn new(hooks: K) -> TrailHooks<K>
        ensures { result ≡ record { hooks = hooks; stays = false } }
    {
        TrailHooks {
            hooks,
            stays: false,
        }
    }

    /// Wraps a user's hooks, for items that may enter secondary zones. Each item has a box for the counts of its stays.
    pub fn with_stays(hooks: K) -> TrailHooks<K>
        ensures { result ≡ record { hooks = hooks; stays = true } }
    {
        TrailHooks { hooks, stays: true }
    }

    /// Returns the user's hooks.
    pub fn hooks(&self) -> &K
        ensures { result.now ≡ self.now.hooks }
    {
        &self.hooks
    }

    /// Ends the data of an item, and its trail.
    fn end<B, R: Wait>(&self, rt: &R, whole: Trailed<B>)
    where
        K: ItemHooks<B>,
    {
        let Trailed {
            data,
            no: _,
            phase: _,
            ctors: _,
            stays: _,
        } = whole;
        self.hooks.bury(rt, data);
    }
}

/// A box for the counts of an item's stays, all 0.
fn new_stays(alloc: Global) -> Result<Box<[StayCounts; 7]>, Memory>
    ensures { IfOk result (λ stays. stays.value ≡ replicate 7 no_stays) }
{
    let none = StayCounts { inits: 0, ctors: 0 };
    Box::new(alloc, [none; 7]).map_err(|_| Memory)
}

/// What a new item keeps of its stays: a box where it may enter secondary zones.
fn first_box(alloc: Global, stays: bool) -> Result<Option<Box<[StayCounts; 7]>>, Memory>
    ensures { IfOk result (λ kept. kept_stays kept ≡ first_stays stays) }
{
    if !stays {
        return Ok(None);
    }
    Ok(Some(new_stays(alloc)?))
}

impl<B, K: ItemHooks<B>> Hooks<Item<B>> for TrailHooks<K> {
    ghost makes = { λ hooks number made. K.makes hooks.hooks number (item_data made) × (item_stays made ≡ first_stays hooks.stays) };

    ghost refuses_init = { λ hooks item zone. refusal_of_stay (zone == 0) (item_stays item) (K.refuses_init hooks.hooks (item_data item) zone) };

    ghost leaves_init = { λ hooks item zone left. K.leaves_init hooks.hooks (item_data item) zone (item_data left) };

    ghost refuses_ctor = { λ hooks item zone arg. K.refuses_ctor hooks.hooks (item_data item) zone arg };

    ghost leaves_ctor = { λ hooks item zone arg left. K.leaves_ctor hooks.hooks (item_data item) zone arg (item_data left) };

    ghost leaves_dtor = { λ hooks item zone left. K.leaves_dtor hooks.hooks (item_data item) zone (item_data left) };

    ghost leaves_fini = { λ hooks item zone left. K.leaves_fini hooks.hooks (item_data item) zone (item_data left) };

    fn raw<R: Wait>(&self, rt: &R, alloc: Global, no: u32) -> Result<Item<B>, Memory> {
        let stays = first_box(alloc, self.stays)?;
        let data = self.hooks.make(rt, alloc, no)?;
        let whole = Trailed {
            data,
            no,
            phase: BodyPhase::Raw,
            ctors: 0,
            stays,
        };
        match Box::new(alloc, whole) {
            Ok(whole) => Ok(Item { whole }),
            Err(refused) => {
                self.end(rt, refused.value);
                Err(Memory)
            }
        }
    }

    fn keg_init(&self, item: &mut Item<B>) -> Result<(), u8> {
        self.hooks.init(0, &mut item.whole.data)?;
        item.come();
        Ok(())
    }

    fn zone_init(&self, zone: u8, item: &mut Item<B>) -> Result<(), u8> {
        if !item.keeps_stays() {
            return Err(NO_STAYS);
        }
        self.hooks.init(zone, &mut item.whole.data)?;
        item.enter(zone);
        Ok(())
    }

    fn ctor(&self, zone: u8, item: &mut Item<B>, arg: u64) -> Result<(), u8> {
        self.hooks.ctor(zone, &mut item.whole.data, arg)?;
        item.begin_use(zone);
        Ok(())
    }

    fn dtor(&self, zone: u8, item: &mut Item<B>) {
        self.hooks.dtor(zone, &mut item.whole.data);
        item.end_use(zone);
    }

    fn zone_fini(&self, zone: u8, item: &mut Item<B>) {
        self.hooks.fini(zone, &mut item.whole.data);
        item.leave(zone);
    }

    fn keg_fini(&self, item: &mut Item<B>) {
        self.hooks.fini(0, &mut item.whole.data);
        item.go();
    }

    fn bury<R: Wait>(&self, rt: &R, item: Item<B>) -> Tally {
        let tally = item.whole_tally();
        self.end(rt, Box::into_inner(item.whole));
        tally
    }
}
