ghost use Rattle.std.specs.Prelude.{◌≡◌, ◌<◌, ◌↔◌, [], IsTrue, IfOk, IfErr, replicate};
ghost use Rattle.deed_book.specs.Book.{book_table, zones_of};
ghost use Rattle.deed_book.specs.Deed.{deed_table};
ghost use Rattle.uma_slabs.specs.Refused.{IsRefusedFor};
ghost use Rattle.uma_keg.specs.KegLaw.{PlacesLaw, ZonesLaw, AreOfOrigin};
ghost use Rattle.uma_keg.specs.Tallies.{TallyLaw};
ghost use Rattle.uma_keg.specs.Paired.{ArePaired};
ghost use Rattle.uma_life.specs.Cached.{cached_table};

use crate::fetch::FetchRefused;
use crate::home_items::{HomeItems, Outside};
use crate::rights::new_rights;
use deed_book::{Book, Deed, Names, Origin};
use listed::Log;
use std::alloc::Global;
use std::marker::PhantomData;
use std::snapshot::Snapshot;
use uma_life::{Body, Cached, Hooks, TallySum};
use uma_slabs::{KegCounts, KegRefused, Places};

/// The store of items that a primary zone and its secondary zones share.
///
/// The law that holds between any two calls:
///
/// 1. A place of a slab that is in is free exactly where the item of its number is at home, and used exactly where the
///    number is allocated, in the book of the keg's numbers. An item in the keg has its number, and its slab's domain.
/// 2. A zone exists exactly where its right is in the book of the keg's rights. One that doesn't exist has no
///    item outside.
/// 3. In the sums of the buried hooks come in pairs.
/// 4. The items at home, and the book of the keg's numbers, have the origin of the keg's hooks.
///
/// Contracts alone see, for each zone, the list of how its fetches ended, each with its answer.
#[derive(Drop)]
pub struct Keg<T: Body, K: Hooks<T>> {
    pub(crate) places: Places,
    pub(crate) outside: Outside,
    pub(crate) home_items: HomeItems<T>,
    pub(crate) rights: Book,
    // By the zone's number.
    pub(crate) limits: [u64; 8],
    pub(crate) fetches: [Log<Result<u32, FetchRefused>>; 8],
    pub(crate) reserve: u64,
    // Of an item, in bytes.
    pub(crate) size: u32,
    // The sums of the tallies of buried bodies.
    pub(crate) buried: TallySum,
    // Those of the primary zone.
    pub(crate) hooks: K,
    pub ghost places_law: { PlacesLaw places (zones_of outside.book) home_items },
    pub ghost zones_law: { ZonesLaw (zones_of outside.book) (zones_of rights) limits },
    pub ghost tally_law: { TallyLaw buried places },
    pub ghost paired: { ArePaired buried },
    pub ghost book_of_hooks: { (book_table outside.book).origin ≡ K.origin hooks },
    pub ghost items_of_hooks: { AreOfOrigin (K.origin hooks) home_items },
}

/// Reads the origin off hooks.
struct HooksOrigin<T> {
    bodies: PhantomData<T>,
}

impl<T: Body, K: Hooks<T>> Names<K> for HooksOrigin<T> {
    ghost numbers = { λ hooks. K.origin hooks };
}

fn no_fetches() -> [Log<Result<u32, FetchRefused>>; 8]
    ensures { result ≡ replicate 8 [] }
{
    [
        Log::new(),
        Log::new(),
        Log::new(),
        Log::new(),
        Log::new(),
        Log::new(),
        Log::new(),
        Log::new(),
    ]
}

impl<T: Body, K: Hooks<T>> Keg<T, K> {
    ghost use Rattle.uma_keg.specs.GiveItem.{TakesBack};
    ghost use Rattle.uma_keg.specs.SetLimit.{MayLimit, SetsLimit};
    ghost use Rattle.uma_keg.specs.Keg.{table_in, limit_in, out_in, book_in, rights_in, HasZone, size_in};
    ghost use Rattle.uma_keg.specs.Census.{CountsKeg};
    ghost use Rattle.uma_keg.specs.NewKeg.{IsNewKeg, AddsZone};

    /// A keg of items of `size` bytes, 8 to 4,096, with room for `slabs` slabs, 1 to 1,024, of which none is in, and of
    /// no zone. With it come its eight rights to a zone, whose numbers are 7 down to 0.
    ///
    /// It keeps `reserve` free items for requests that say that they may use them. The size is tested first, then the
    /// slabs. `Memory` where memory is wanting.
    pub fn new(
        alloc: Global,
        size: u32,
        slabs: u32,
        reserve: u64,
        hooks: K,
    ) -> Result<(Keg<T, K>, Vec<Deed>), KegRefused>
        ensures made { IfOk result (λ (keg, rights). IsNewKeg size slabs reserve hooks keg rights.items) }
        ensures refused { IfErr result (IsRefusedFor size slabs) }
    {
        let places = Places::new(alloc, size, slabs)?;
        let KegCounts { cap, per_slab, .. } = places.counts();
        let origin = Origin::of::<K, HooksOrigin<T>>(&hooks);
        let outside = Outside::new(alloc, cap * per_slab, origin)?;
        let (rights, deeds) = new_rights(alloc)?;
        let home_items = HomeItems::new(alloc, cap, per_slab)?;
        let keg = Keg {
            places,
            outside,
            home_items,
            rights,
            limits: [0; 8],
            fetches: no_fetches(),
            reserve,
            size,
            buried: TallySum::none(),
            hooks,
        };
        Ok((keg, deeds))
    }

    /// How the keg stands.
    pub fn counts(&self) -> KegCounts
        ensures { CountsKeg self.now result }
    {
        let counts = self.places.counts();
        KegCounts {
            reserve: self.reserve,
            ..counts
        }
    }

    /// The size of an item, in bytes, that the keg was made with. Kegs of several sizes have as many items a slab.
    pub fn size(&self) -> u32
        ensures { result ≡ size_in self.now }
    {
        self.size
    }

    /// Whether the zone of this number exists.
    pub fn has_zone(&self, zone: u8) -> bool
        ensures { IsTrue result ↔ HasZone self.now zone }
    {
        self.rights.is_home(u32::from(zone))
    }

    /// How many items are outside the keg in a zone, 0 for one that doesn't exist.
    pub fn out(&self, zone: u8) -> u64
        ensures out { zone < 8 → result ≡ out_in self.now zone }
        ensures no_zone { (HasZone self.now zone → ⊥) → result ≡ 0 }
    {
        if zone < 8 { self.outside.out(zone) } else { 0 }
    }

    /// The limit of a zone, where 0 is none.
    pub fn limit(&self, zone: u8) -> u64
        ensures { result ≡ limit_in self.now zone }
    {
        if zone < 8 {
            self.limits[zone as usize]
        } else {
            0
        }
    }

    /// The book of the keg's numbers, for contracts alone.
    pub fn book(&self) -> Snapshot<Book>
        ensures { result.value ≡ book_in self.now }
    {
        Snapshot::of(&self.outside.book)
    }

    /// The book of the keg's numbers.
    pub fn numbers(&self) -> &Book
        ensures { result.now ≡ book_in self.now }
    {
        &self.outside.book
    }

    /// The book of the keg's rights, for contracts alone.
    pub fn rights(&self) -> Snapshot<Book>
        ensures { result.value ≡ rights_in self.now }
    {
        Snapshot::of(&self.rights)
    }

    /// Adds a zone with this limit, where 0 is none, by a right that came with this keg. Answers its index, which is the
    /// right's number.
    pub fn add_zone(&mut self, right: Deed, limit: u64) -> u8
        requires { deed_table right ≡ book_table (rights_in self.old) }
        ensures { AddsZone self.old right limit result self.new }
    {
        let (no, _) = self.rights.accept(right);
        self.limits[no as usize] = limit;
        no as u8
    }

    /// Sets the limit of a zone, at most 1,000,000, where 0 is none, and answers the former one. One that doesn't exist
    /// yet gets another as it is added.
    ///
    /// A lowered limit takes nothing away: more items may then be outside than it allows, and no fetch gives one until
    /// fewer are.
    pub fn set_limit(&mut self, zone: u8, limit: u64) -> u64
        requires { MayLimit zone limit }
        ensures former { result ≡ limit_in self.old zone }
        ensures set { SetsLimit self.old zone limit self.new }
    {
        let former = self.limits[zone as usize];
        self.limits[zone as usize] = limit;
        former
    }

    /// Takes an item of this keg back. It passes `zone_fini` of the hooks that are handed, those of its zone, but for zone 0,
    /// and its place is free.
    pub fn give(&mut self, hooks: &K, item: Cached<T>)
        requires { cached_table item ≡ table_in self.old }
        ensures { TakesBack self.old hooks.now item self.new }
    {
        let (stored, deed) = item.give_back(hooks);
        let no = self.outside.accept(deed);
        self.places.give(no);
        self.home_items.put(no, stored);
    }
}
