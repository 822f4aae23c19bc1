ghost use Rattle.std.specs.Prelude.{◌≡◌, ◌<◌, ◌^◌, Err, IfOk, IfErr, OnOk};
ghost use Rattle.uma_life.specs.Hook.{Hook};
ghost use Rattle.uma_keg.specs.Keg.{total_in};
ghost use Rattle.uma_keg.specs.Fetching.{MayFetch, GivesCount, GivesNone, KeepsButFetched, EndsFetch, ChecksLimit, MayCount, CountsGiven, ListsEnd};
ghost use Rattle.uma_bucket.specs.Bucket.{items_of};
ghost use Rattle.uma_keg.specs.TakeItems.{TakesInto, StopsAtItem, MayTakeItems};
ghost use Rattle.uma_keg.specs.Frames.{KeepsButTaken, KeepsButItems};
ghost use Rattle.uma_keg.specs.TakeItem.{TakesItem, MayTakeItem, KeepsRefused};
ghost use Rattle.uma_keg.specs.Fetch.{FetchLaw};

use crate::keg::Keg;
use listed::Log;
use std::alloc::Global;
use std::error::Error;
use std::fmt;
use std::sync::Wait;
use uma_bucket::Bucket;
use uma_life::{Body, BringRefused, Cached, Hooks};
use uma_slabs::KegCounts;
use zone_stats::Refusal;

/// What a fetch asks for.
#[derive(Clone, Copy, Debug, PartialEq, Eq)]
pub struct FetchAsk {
    pub zone: u8,
    /// The most items.
    pub most: u32,
    /// Whether it may use the keg's reserve.
    pub reserve: bool,
    /// The memory domain of the seat that asks, which new slabs get.
    pub domain: u8,
}

/// Why a keg gave no item, or brought no slab in.
#[derive(Clone, Copy, Debug, PartialEq, Eq)]
pub enum FetchRefused {
    /// The refusal of a fetch, found at the keg's own state. It is never `Ctor`.
    Refused { refusal: Refusal },
    /// Memory is wanting, or one of the keg's sums of hooks is at 2^120 or above it, which no keg lives to see.
    Memory,
}

impl fmt::Display for FetchRefused {
    fn fmt<W: fmt::Write>(&self, f: &mut fmt::Formatter<W>) -> fmt::Result {
        match self {
            FetchRefused::Refused { refusal } => write!(f, "{refusal}"),
            FetchRefused::Memory => write!(f, "out of memory"),
        }
    }
}

impl Error for FetchRefused {}

impl From<Refusal> for FetchRefused {
    ghost use Rattle.std.specs.Prelude.{◌≡◌};
    ghost use Rattle.uma_keg.specs.declared.fetch.FetchRefused.TheVariants.{Refused};

    ghost from_gives = { λ refusal refused. refused ≡ Refused refusal };

    fn from(refusal: Refusal) -> FetchRefused {
        FetchRefused::Refused { refusal }
    }
}

impl From<BringRefused> for FetchRefused {
    ghost use Rattle.std.specs.Prelude.{◌≡◌};
    ghost use Rattle.uma_keg.specs.BringSlab.{as_fetch};

    ghost from_gives = { λ refused passed. passed ≡ as_fetch refused };

    fn from(refused: BringRefused) -> FetchRefused {
        match refused {
            BringRefused::Init { code } => FetchRefused::Refused {
                refusal: Refusal::Init { code },
            },
            BringRefused::Memory => FetchRefused::Memory,
        }
    }
}

impl<T: Body, K: Hooks<T>> Keg<T, K> {
    /// Takes items out of the keg for a zone, at most as many as are asked for, and puts them into the bucket. Answers
    /// how many, which is at least one.
    ///
    /// A zone with a limit, and as many items outside or more, is refused. Else slabs are brought in until an item is free
    /// beyond the reserve, or as many are in as may be. Then `Full` where no item is free. Where none is beyond the
    /// reserve, a request with the right to it gets one, and any other is refused as `Reserved`. Else it gets as many as
    /// lie beyond the reserve and within the limit. `Init` where `keg_init` refuses an item of a new slab, or the zone's
    /// `zone_init` the first item; a later one that is refused ends the fetch. `Memory` where memory is wanting, or one of
    /// the sums of hooks is at 2^120. It waits for `raw` and `bury` alone.
    ///
    /// However it ends, its answer is put at the end of the zone's list, which contracts alone see.
    ///
    /// Of what `EndsFetch` says `given`, `names` and `refusals` are for callers: what they say of the items, of the keg that a
    /// refusal was found at, and of the zone's refusals follows from `fetched`, `refused` and `fetches`.
    pub fn fetch<R: Wait>(
        &mut self,
        rt: &R,
        alloc: Global,
        hooks: &K,
        ask: FetchAsk,
        into: &mut Bucket<T>,
    ) -> Result<u32, FetchRefused>
        requires { MayFetch self.old ask into.old }
        ensures { EndsFetch self.old hooks.now ask result into.old into.new self.new }
    {
        let end = self.fetch_items(rt, alloc, hooks, ask, into);
        list_end(&mut self.fetches, ask.zone, end);
        end
    }

    /// The same, with nothing added to the zone's list.
    fn fetch_items<R: Wait>(
        &mut self,
        rt: &R,
        alloc: Global,
        hooks: &K,
        ask: FetchAsk,
        into: &mut Bucket<T>,
    ) -> Result<u32, FetchRefused>
        requires asks { MayFetch self.old ask into.old }
        requires in_range { ask.zone < 8 }
        ensures given { IfOk result (λ count. GivesCount self.old hooks.now ask count into.old into.new self.new) }
        ensures none { IfErr result (λ why. GivesNone self.old hooks.now ask why into.old into.new self.new) }
        ensures sums_full { (((hook : Hook) → total_in self.old hook < 2 ^ 120) → ⊥) → result ≡ Err FetchRefused.Memory }
        ensures kept { KeepsButFetched self.old ask into.old into.new self.new }
    {
        if !self.has_tally_room() {
            return Err(FetchRefused::Memory);
        }
        self.check_limit(ask.zone)?;
        self.bring_slabs(rt, alloc, ask.domain)?;
        let count = self.count_given(ask)?;
        match self.take_items(hooks, ask.zone, count, into) {
            Ok(()) => Ok(count),
            Err((0, code)) => Err(FetchRefused::Refused {
                refusal: Refusal::Init { code },
            }),
            Err((taken, _)) => Ok(taken),
        }
    }

    /// Refuses a zone that is at its limit, or above one that was lowered.
    fn check_limit(&self, zone: u8) -> Result<(), Refusal>
        requires { zone < 8 }
        ensures { ChecksLimit self.now zone result }
    {
        let out = self.out(zone);
        let limit = self.limit(zone);
        if limit > 0 && out >= limit {
            return Err(Refusal::AtLimit { out, limit });
        }
        Ok(())
    }

    /// How many items a fetch gets that isn't at the limit, once no further slab is brought in, where `zone_init` refuses
    /// none; or why it gets none.
    fn count_given(&self, ask: FetchAsk) -> Result<u32, Refusal>
        requires { MayCount self.now ask.zone }
        ensures { CountsGiven self.now ask result }
    {
        let KegCounts {
            slabs,
            made,
            free,
            ..
        } = self.places.counts();
        if free == 0 {
            return Err(Refusal::Full { slabs, made });
        }
        if free <= self.reserve {
            return if ask.reserve {
                Ok(1)
            } else {
                Err(Refusal::Reserved {
                    free,
                    reserve: self.reserve,
                })
            };
        }
        let beyond = free - self.reserve;
        let limit = self.limit(ask.zone);
        let most = u64::from(ask.most);
        let allowed = if limit == 0 {
            most
        } else {
            limit - self.out(ask.zone)
        };
        Ok(most.min(beyond.min(allowed)) as u32)
    }

    /// Takes so many items out for a zone, by the taking rule, and puts each into the bucket. At the first one that
    /// `zone_init` refuses it stops, and answers how many there were before, and the code.
    pub(crate) fn take_items(
        &mut self,
        hooks: &K,
        zone: u8,
        count: u32,
        into: &mut Bucket<T>,
    ) -> Result<(), (u32, u8)>
        requires { MayTakeItems self.old zone count into.old }
        ensures takes { OnOk result (TakesInto self.old hooks.now zone count (items_of into.old) (items_of into.new) self.new) }
        ensures stops { IfErr result (λ (taken, code). StopsAtItem self.old hooks.now zone count taken code (items_of into.old) (items_of into.new) self.new) }
        ensures kept { KeepsButTaken self.old self.new into.old into.new }
    {
        for taken in 0..count {
            match self.take_item(hooks, zone) {
                Ok(item) => into.push(item),
                Err(code) => return Err((taken, code)),
            }
        }
        Ok(())
    }

    /// Takes one item out for a zone, by the taking rule. It passes `zone_init`, but for zone 0;
    /// where that refuses it stays in the keg, and the code is the answer.
    pub(crate) fn take_item(&mut self, hooks: &K, zone: u8) -> Result<Cached<T>, u8>
        requires { MayTakeItem self.old zone }
        ensures takes { IfOk result (λ item. TakesItem self.old hooks.now zone item self.new) }
        ensures refused { IfErr result (λ code. KeepsRefused self.old hooks.now zone code self.new) }
        ensures kept { KeepsButItems self.old self.new }
    {
        let no = self.places.take().unwrap();
        let item = self.home_items.take(no).unwrap();
        let deed = self.outside.issue(no, zone);
        let domain = self.places.domain(no);
        match item.lend(hooks, deed, domain) {
            Ok(item) => Ok(item),
            Err((item, deed, code)) => {
                let no = self.outside.accept(deed);
                self.places.give(no);
                self.home_items.put(no, item);
                Err(code)
            }
        }
    }
}

/// Puts how a fetch of a zone ended at the end of the zone's list.
fn list_end(
    lists: &mut [Log<Result<u32, FetchRefused>>; 8],
    zone: u8,
    end: Result<u32, FetchRefused>,
)
    requires { zone < 8 }
    ensures { ListsEnd lists.old zone end lists.new }
{
    lists[zone as usize].push(end);
}

/// The law of how a fetch ends, by the numbers that it begins with: it has one count of new slabs and one end, gives at
/// least one item and no more than it was asked for, keeps the limit, and gives items wherever it may. The right to the
/// reserve changes only the end of one that is refused as `Reserved`, which then gives one item.
pub fn fetches_keep_their_bounds()
    ensures { FetchLaw }
{}
