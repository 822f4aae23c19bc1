ghost use Rattle.std.specs.Prelude.{◌≡◌, ◌<◌, true, false};
ghost use Rattle.deed_book.specs.Deed.{no_of, zone_of, deed_table};
ghost use Rattle.uma_life.specs.Trail.{IsOutside, IsAt};
ghost use Rattle.uma_life.specs.Hook.{base_phase};
ghost use Rattle.uma_life.specs.declared.tally.BodyPhase.TheVariants.{Kept, Gone, Built};

use crate::hooks::{Body, BringRefused, Hooks};
use crate::tally::Tally;
use deed_book::Deed;
use std::alloc::Global;
use std::sync::Wait;

/// What an item outside its keg has beside its body, in eight bytes: its deed, whose label is the memory domain of the
/// item's slab.
#[derive(Drop)]
pub struct Ticket {
    deed: Deed,
}

impl Ticket {
    ghost use Rattle.deed_book.specs.Deed.{labelled};
    ghost use Rattle.uma_life.specs.Ticket.{ticket_deed, ticket_no, ticket_zone, ticket_domain};

    /// A ticket of this deed, for an item whose slab is of this memory domain.
    pub fn of(deed: Deed, domain: u8) -> Ticket
        ensures { ticket_deed result ≡ labelled deed domain }
    {
        Ticket {
            deed: deed.labelled(domain),
        }
    }

    /// The ticket's deed and domain. `of` makes the same ticket of them.
    pub fn into_deed(self) -> (Deed, u8)
        ensures { (result.0 ≡ ticket_deed self) × (result.1 ≡ ticket_domain self) }
    {
        let domain = self.deed.label();
        (self.deed, domain)
    }

    /// The item's number in its keg, that of the deed.
    pub fn no(&self) -> u32
        ensures { result ≡ ticket_no self.now }
    {
        self.deed.no()
    }

    /// The deed's zone of the keg, 0 to 7; 0 is the primary one.
    pub fn zone(&self) -> u8
        ensures kept { result ≡ ticket_zone self.now }
        ensures in_range { result < 8 }
    {
        self.deed.zone()
    }

    /// The memory domain of the item's slab.
    pub fn domain(&self) -> u8
        ensures { result ≡ ticket_domain self.now }
    {
        self.deed.label()
    }
}

/// An item outside its keg, cached or live. No mark beside it tells which, its body's phase does. So a place for items of
/// both states is no larger than an item, and an item passes `dtor` where it lies.
#[derive(Drop)]
pub struct Outside<T: Body> {
    body: T,
    ticket: Ticket,
    pub ghost numbered: { (T.life body).no ≡ no_of ticket.deed },
    pub ghost at: { IsOutside (zone_of ticket.deed) (T.life body) },
    pub ghost of_origin: { T.origin body ≡ (deed_table ticket.deed).origin },
}

impl<T: Body> Outside<T> {
    ghost use Rattle.uma_life.specs.Outside.{FinishesOutside, IsCachedItem, IsLiveItem, is_live, outside_tally};

    /// A cached item.
    pub fn of_cached(item: Cached<T>) -> Outside<T>
        ensures { IsCachedItem item result }
    {
        let Cached { body, ticket } = item;
        Outside { body, ticket }
    }

    /// A live item.
    pub fn of_live(item: Live<T>) -> Outside<T>
        ensures { IsLiveItem item result }
    {
        let Live { body, ticket } = item;
        Outside { body, ticket }
    }

    /// The cached item that it is.
    pub fn into_cached(self) -> Cached<T>
        requires { is_live self ≡ false }
        ensures { IsCachedItem result self }
    {
        let Outside { body, ticket } = self;
        Cached { body, ticket }
    }

    /// The live item passes `dtor`, where it lies.
    pub fn finish<K: Hooks<T>>(&mut self, hooks: &K)
        requires { is_live self.old ≡ true }
        ensures { FinishesOutside (K.leaves_dtor hooks.now) self.old self.new }
    {
        hooks.dtor(self.ticket.zone(), &mut self.body);
    }

    /// How often the item passed each hook.
    pub fn tally(&self) -> Tally
        ensures { result ≡ outside_tally self.now }
    {
        self.body.tally()
    }
}

/// An item in its keg.
#[derive(Drop)]
pub struct Stored<T: Body> {
    pub(crate) body: T,
    pub ghost kept: { IsAt Kept (T.life body) },
}

impl<T: Body> Stored<T> {
    ghost use Rattle.uma_life.specs.Hook.{after, KegFini};
    ghost use Rattle.uma_life.specs.Trail.{OnTrail};
    ghost use Rattle.uma_life.specs.Stored.{stored_body, stored_no, stored_origin};
    ghost use Rattle.uma_life.specs.Moves.{Brings, Lends};

    /// The item's number in its keg.
    pub fn no(&self) -> u32
        ensures { result ≡ stored_no self.now }
    {
        self.body.no()
    }

    /// The item's body, in phase Kept.
    pub fn body(&self) -> &T
        ensures body { result.now ≡ stored_body self.now }
        ensures kept { IsAt Kept (T.life result.now) }
    {
        &self.body
    }

    /// Makes an item of a keg: its body, after `keg_init`. Where that refuses the raw body was buried.
    pub fn bring<K: Hooks<T>, R: Wait>(
        rt: &R,
        alloc: Global,
        hooks: &K,
        no: u32,
    ) -> Result<Stored<T>, BringRefused>
        ensures { Brings no (K.origin hooks.now) (K.makes hooks.now no) (λ raw. K.refuses_init hooks.now raw 0) (λ raw. K.leaves_init hooks.now raw 0) result }
    {
        let mut body = hooks.raw(rt, alloc, no)?;
        if let Err(code) = hooks.keg_init(&mut body) {
            hooks.bury(rt, body);
            return Err(BringRefused::Init { code });
        }
        Ok(Stored { body })
    }

    /// Lends the item to the zone of a deed of its number, whose book is of the item's origin; `domain` is the memory domain of its
    /// slab. It passes `zone_init`, but for zone 0. Where that refuses
    /// the item and the deed are back, with the code.
    pub fn lend<K: Hooks<T>>(
        self,
        hooks: &K,
        deed: Deed,
        domain: u8,
    ) -> Result<Cached<T>, (Stored<T>, Deed, u8)>
        requires number { no_of deed ≡ stored_no self }
        requires origin { stored_origin self ≡ (deed_table deed).origin }
        ensures { Lends self deed domain (K.refuses_init hooks.now (stored_body self) (zone_of deed)) (K.leaves_init hooks.now (stored_body self) (zone_of deed)) result }
    {
        let Stored { mut body } = self;
        if deed.zone() != 0
            && let Err(code) = hooks.zone_init(deed.zone(), &mut body)
        {
            return Err((Stored { body }, deed, code));
        }
        let ticket = Ticket::of(deed, domain);
        Ok(Cached { body, ticket })
    }

    /// Ends the item: it passes `keg_fini`, and its body is buried. Answers the tally of its whole life.
    pub fn end<K: Hooks<T>, R: Wait>(self, rt: &R, hooks: &K) -> Tally
        ensures finished { result ≡ (after KegFini (T.life (stored_body self))).tally }
        ensures left { (gone : T) × K.leaves_fini hooks.now (stored_body self) 0 gone × (T.life gone ≡ after KegFini (T.life (stored_body self))) × (result ≡ (T.life gone).tally) }
        ensures whole { OnTrail Gone result }
    {
        let Stored { mut body } = self;
        hooks.keg_fini(&mut body);
        hooks.bury(rt, body)
    }
}

/// An item outside its keg that is not built: in a cache or on its way.
#[derive(Drop)]
pub struct Cached<T: Body> {
    pub(crate) body: T,
    pub(crate) ticket: Ticket,
    pub ghost numbered: { (T.life body).no ≡ no_of ticket.deed },
    pub ghost at: { IsAt (base_phase (zone_of ticket.deed)) (T.life body) },
    pub ghost of_origin: { T.origin body ≡ (deed_table ticket.deed).origin },
}

impl<T: Body> Cached<T> {
    ghost use Rattle.uma_life.specs.Moves.{ShowsBody, Builds, GivesBack};
    ghost use Rattle.uma_life.specs.Cached.{cached_body, cached_no, cached_zone, cached_domain, cached_ticket};

    /// The item's number in its keg.
    pub fn no(&self) -> u32
        ensures { result ≡ cached_no self.now }
    {
        self.ticket.no()
    }

    /// The zone of the keg that the item is in, 0 to 7; 0 is the primary one.
    pub fn zone(&self) -> u8
        ensures kept { result ≡ cached_zone self.now }
        ensures in_range { result < 8 }
    {
        self.ticket.zone()
    }

    /// The memory domain of the item's slab.
    pub fn domain(&self) -> u8
        ensures { result ≡ cached_domain self.now }
    {
        self.ticket.domain()
    }

    /// The item's body, in the phase of this state.
    pub fn body(&self) -> &T
        ensures { ShowsBody T.life T.origin (cached_body self.now) (cached_ticket self.now) (base_phase (cached_zone self.now)) result.now }
    {
        &self.body
    }

    /// Builds the item: it passes `ctor`. Where that refuses the item is back, with the code.
    pub fn build<K: Hooks<T>>(self, hooks: &K, arg: u64) -> Result<Live<T>, (Cached<T>, u8)>
        ensures { Builds self (K.refuses_ctor hooks.now (cached_body self) (cached_zone self) arg) (K.leaves_ctor hooks.now (cached_body self) (cached_zone self) arg) result }
    {
        let Cached { mut body, ticket } = self;
        match hooks.ctor(ticket.zone(), &mut body, arg) {
            Ok(()) => Ok(Live { body, ticket }),
            Err(code) => Err((Cached { body, ticket }, code)),
        }
    }

    /// Gives the item back to its keg. It passes `zone_fini`, but for zone 0.
    pub fn give_back<K: Hooks<T>>(self, hooks: &K) -> (Stored<T>, Deed)
        ensures { GivesBack self (K.leaves_fini hooks.now (cached_body self) (cached_zone self)) result.0 result.1 }
    {
        let Cached { mut body, ticket } = self;
        let (deed, _domain) = ticket.into_deed();
        if deed.zone() != 0 {
            hooks.zone_fini(deed.zone(), &mut body);
        }
        (Stored { body }, deed)
    }
}

/// An item that is built.
#[derive(Drop)]
pub struct Live<T: Body> {
    pub(crate) body: T,
    pub(crate) ticket: Ticket,
    pub ghost numbered: { (T.life body).no ≡ no_of ticket.deed },
    pub ghost at: { IsAt (Built (zone_of ticket.deed)) (T.life body) },
    pub ghost of_origin: { T.origin body ≡ (deed_table ticket.deed).origin },
}

impl<T: Body> Live<T> {
    ghost use Rattle.uma_life.specs.Moves.{ShowsBody, Agree, ComesApart, Finishes};
    ghost use Rattle.uma_life.specs.Live.{live_body, live_no, live_zone, live_domain, live_ticket};

    /// Returns the item's number in its keg.
    pub fn no(&self) -> u32
        ensures { result ≡ live_no self.now }
    {
        self.ticket.no()
    }

    /// Returns the number of the item's zone in its keg, 0 to 7. Zone 0 is the primary one.
    pub fn zone(&self) -> u8
        ensures kept { result ≡ live_zone self.now }
        ensures in_range { result < 8 }
    {
        self.ticket.zone()
    }

    /// Returns the number of the memory domain of the item's slab.
    pub fn domain(&self) -> u8
        ensures { result ≡ live_domain self.now }
    {
        self.ticket.domain()
    }

    /// Returns the item's body, which is in the phase Built.
    pub fn body(&self) -> &T
        ensures { ShowsBody T.life T.origin (live_body self.now) (live_ticket self.now) (Built (live_zone self.now)) result.now }
    {
        &self.body
    }

    /// Ends the item's use: the item passes `dtor` and is cached. `Zone::free` and ripe buckets do this. A caller that
    /// does it to an item of an SMR zone takes the item from its readers.
    pub fn finish<K: Hooks<T>>(self, hooks: &K) -> Cached<T>
        ensures { Finishes self (K.leaves_dtor hooks.now (live_body self) (live_zone self)) result }
    {
        let Live { mut body, ticket } = self;
        hooks.dtor(ticket.zone(), &mut body);
        Cached { body, ticket }
    }

    /// Takes the item apart, into its body and its number's ownership token. The caller may change the body's own data.
    pub fn into_parts(self) -> (T, Ticket)
        ensures { ComesApart self result }
    {
        (self.body, self.ticket)
    }

    /// Makes an item of a body and an ownership token that agree, such as those from [`Live::into_parts`].
    pub fn from_parts(body: T, ticket: Ticket) -> Live<T>
        requires { Agree T.life T.origin body ticket }
        ensures { (live_body result ≡ body) × (live_ticket result ≡ ticket) }
    {
        Live { body, ticket }
    }
}
