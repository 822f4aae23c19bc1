ghost use Rattle.std.specs.Prelude.{◌≡◌, ◌<◌, ◌≤◌, ◌/◌, true, IfOk, is_none, position, count_by, is_some, sum_by};
ghost use Rattle.deed_book.specs.Deed.{deed_table};
ghost use Rattle.uma_life.specs.Trail.{IsAt};
ghost use Rattle.uma_life.specs.declared.tally.BodyPhase.TheVariants.{Built};
ghost use Rattle.std.specs.Option.{option_copied};
ghost use Rattle.uma_keg.specs.HomeLists.{AreWhole};
ghost use Rattle.deed_book.specs.Book.{zones_of};
ghost use Rattle.uma_keg.specs.Outs.{CountsOuts};

use crate::slabs::SlabItems;
use deed_book::{Book, Deed, Memory, Origin};
use std::alloc::{AllocError, Global};
use uma_life::{Body, Live, Stored, Ticket};

/// A live item whose deed its keg took in, to issue it again.
#[derive(Drop)]
pub(crate) struct Undeeded<T: Body> {
    body: T,
    no: u32,
    zone: u8,
    domain: u8,
    pub ghost zone_in_range: { zone < 8 },
    ghost numbered: { (T.life body).no ≡ no },
    ghost at: { IsAt (Built zone) (T.life body) },
}

impl<T: Body> Undeeded<T> {
    ghost use Rattle.uma_keg.specs.Lent.{seen_of, seen_without, deed_without, PartsFrom, MayHave};

    /// The item and its deed.
    pub fn of(item: Live<T>) -> (Undeeded<T>, Deed)
        ensures { PartsFrom item result.0 result.1 }
    {
        let (body, ticket) = item.into_parts();
        let (deed, domain) = ticket.into_deed();
        let item = Undeeded {
            body,
            no: deed.no(),
            zone: deed.zone(),
            domain,
        };
        (item, deed)
    }

    /// The number and the zone of the deed that it had.
    pub fn deed(&self) -> (u32, u8)
        ensures { result ≡ deed_without self.now }
    {
        (self.no, self.zone)
    }

    /// The item with a deed of its number and zone.
    pub fn with(self, deed: Deed) -> Live<T>
        requires { MayHave deed self }
        ensures { seen_of result ≡ seen_without (deed_table deed) self }
    {
        let Undeeded { body, domain, .. } = self;
        Live::from_parts(body, Ticket::of(deed, domain))
    }
}

/// The items of a keg that are at home, by their numbers. Each slab that is in has its list of items.
#[derive(Drop)]
pub(crate) struct HomeItems<T: Body> {
    slabs: Vec<Option<SlabItems<T>>>,
    per_slab: u32,
    pub ghost some_place: { 1 ≤ per_slab },
    pub ghost whole: { AreWhole per_slab slabs.items },
}

impl<T: Body> HomeItems<T> {
    ghost use Rattle.uma_keg.specs.HomeItems.{item_at, has_slab, slab_room, places_each, IsNewHome, TakesHome, MayPutHome, PutsHome, FindsGap, MayAddSlab, IsAdded, IsRemoved};

    /// Room for `cap` slabs' items, of so many places, and none there.
    pub fn new(alloc: Global, cap: u32, per_slab: u32) -> Result<HomeItems<T>, AllocError>
        requires { 1 ≤ per_slab }
        ensures { IfOk result (IsNewHome cap per_slab) }
    {
        let mut slabs = Vec::with_capacity(alloc, cap as usize)?;
        for _ in 0..cap {
            slabs.push_reserved(None);
        }
        Ok(HomeItems { slabs, per_slab })
    }

    /// The item of a number, if it is there.
    pub fn item(&self, no: u32) -> Option<&Stored<T>>
        requires { no / places_each self.now < slab_room self.now }
        ensures { option_copied result ≡ item_at self.now no }
    {
        let index = (no / self.per_slab) as usize;
        let place = no % self.per_slab;
        match &self.slabs[index] {
            Some(slab_items) => slab_items.item(place),
            None => None,
        }
    }

    /// Takes the item of a number, if it is there.
    pub fn take(&mut self, no: u32) -> Option<Stored<T>>
        requires { no / places_each self.old < slab_room self.old }
        ensures { TakesHome self.old no result self.new }
    {
        let index = (no / self.per_slab) as usize;
        let place = no % self.per_slab;
        match &mut self.slabs[index] {
            Some(slab_items) => slab_items.take(place),
            None => None,
        }
    }

    /// Puts an item where its number's place is, which has none.
    pub fn put(&mut self, no: u32, item: Stored<T>)
        requires { MayPutHome self.old no }
        ensures { PutsHome self.old no item self.new }
    {
        let index = (no / self.per_slab) as usize;
        let place = no % self.per_slab;
        match &mut self.slabs[index] {
            Some(slab_items) => slab_items.put(place, item),
            None => unreachable!(),
        }
    }

    /// The least index that has no list of items. None where each has one.
    pub fn first_gap(&self) -> Option<u32>
        requires { slab_room self.now ≤ 1024 }
        ensures { FindsGap self.now result }
    {
        match first_empty(&self.slabs) {
            Some(index) => Some(index as u32),
            None => None,
        }
    }

    /// Puts the items of a new slab at an index that has none.
    pub fn add(&mut self, index: u32, slab_items: SlabItems<T>)
        requires { MayAddSlab self.old index slab_items }
        ensures { IsAdded self.old self.new index slab_items }
    {
        let gap = self.slabs[index as usize].replace(slab_items);
        let None = gap else { unreachable!() };
    }

    /// Takes the items of a slab away, with the items that are there.
    pub fn remove(&mut self, index: u32) -> SlabItems<T>
        requires { has_slab self.old index ≡ true }
        ensures { IsRemoved self.old self.new index result }
    {
        let Some(slab_items) = self.slabs[index as usize].take() else {
            unreachable!()
        };
        slab_items
    }
}

/// The least index without a slab's items.
fn first_empty<T: Body>(slabs: &[Option<SlabItems<T>>]) -> Option<usize>
    ensures { result ≡ position is_none slabs.now }
{
    slabs.iter().position(|slab_items| slab_items.is_none())
}

/// Which numbers of a keg are outside it, and how many are in each of its eight zones.
#[derive(Drop)]
pub(crate) struct Outside {
    pub(crate) book: Book,
    outs: [u64; 8],
    pub ghost counted: { CountsOuts (zones_of book) outs },
    pub ghost total: { sum_by (λ out. out) outs ≡ count_by is_some (zones_of book) },
}

impl Outside {
    ghost use Rattle.uma_keg.specs.Outs.{out_of};
    ghost use Rattle.uma_keg.specs.Outside.{outside_zones, outside_table, IsNewOutside, MayIssue, IssuesDeed, AcceptsDeed, CountsEach};

    /// All numbers below `numbers`, which is 1 to 262,144, are at home. Their deeds are of this origin.
    pub fn new(alloc: Global, numbers: u32, origin: Origin) -> Result<Outside, Memory>
        requires { (1 ≤ numbers) × (numbers ≤ 262144) }
        ensures { IfOk result (IsNewOutside numbers origin) }
    {
        let Ok(book) = Book::made_for(alloc, numbers, origin) else {
            return Err(Memory);
        };
        Ok(Outside { book, outs: [0; 8] })
    }

    /// Issues the deed of a number that is at home to a zone.
    pub fn issue(&mut self, no: u32, zone: u8) -> Deed
        requires { MayIssue self.old no zone }
        ensures { IssuesDeed self.old no zone result self.new }
    {
        self.outs[zone as usize] += 1;
        self.book.issue(no, zone)
    }

    /// Takes a deed back, and answers its number. It was outside with the deed's zone, and is at home again.
    pub fn accept(&mut self, deed: Deed) -> u32
        requires { deed_table deed ≡ outside_table self.old }
        ensures { AcceptsDeed self.old deed result self.new }
    {
        let (no, zone) = self.book.accept(deed);
        self.outs[zone as usize] -= 1;
        no
    }

    /// How many numbers are outside in a zone.
    pub fn out(&self, zone: u8) -> u64
        requires { zone < 8 }
        ensures { result ≡ out_of (outside_zones self.now) zone }
    {
        self.outs[zone as usize]
    }

    /// How many numbers are outside in each zone. Together these are all numbers outside.
    pub fn outs(&self) -> [u64; 8]
        ensures { CountsEach (outside_zones self.now) result }
    {
        self.outs
    }
}
