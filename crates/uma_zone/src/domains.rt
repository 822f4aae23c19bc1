ghost use Rattle.std.specs.Prelude.{◌≡◌, ◌≤◌, ◌<◌, length, All, IfOk, [], true};
ghost use Rattle.deed_book.specs.Book.{book_table};
ghost use Rattle.smr_clock.specs.Belongs.{clock_id};
ghost use Rattle.uma_domain.specs.Identity.{home_of};
ghost use Rattle.uma_zone.specs.OneDomain.{IsDomainOf};
ghost use Rattle.uma_seat.specs.Seat.{usable_of};

use deed_book::{Book, FailShare, Memory};
use smr_clock::{Clock, Host, Pass};
use std::alloc::Global;
use std::snapshot::Snapshot;
use std::sync::Wait;
use uma_bucket::{Bucket, Port, Ripe, Sums};
use uma_domain::Domain;
use uma_life::{Body, Hooks};
use uma_seat::{SeatCache, Seating};

pub(crate) mod flush;

/// The one to four memory domains of one zone.
///
/// They are all of one clock, one book of item numbers, one zone of that keg and one kind, and contracts see which.
#[derive(Drop)]
pub struct ZoneDomains<T: Body, H: Host> {
    pub(crate) clock: Clock<H>,
    pub(crate) book: Snapshot<Book>,
    pub(crate) zone: u8,
    pub(crate) smr: bool,
    pub(crate) domains: Vec<Domain<T, H>>,
    pub ghost some: { 1 ≤ length domains.items },
    pub ghost few: { length domains.items ≤ 4 },
    pub ghost of_zone: { All (IsDomainOf (clock_id clock) (home_of (book_table book.value) zone (length domains.items)) smr) domains.items },
}

impl<T: Body, H: Host> ZoneDomains<T, H> {
    ghost use Rattle.uma_zone.specs.Looking.{TakesOwnRipe, TakesOwnPlain, LooksForPlain, Looks};
    ghost use Rattle.uma_zone.specs.Settling.{TriesOwn};
    ghost use Rattle.uma_zone.specs.Domains.{domains_smr, domains_clock, domain_count};
    ghost use Rattle.uma_zone.specs.Calling.{CanTakeRipe, CanTakePlain, CanLook, CanSettle};
    ghost use Rattle.uma_zone.specs.AtDomain.{OpensPorts, IsCountOf, IsDomainAt, CanSeat, IsSeatingOf, OpensMisses};

    /// How many domains there are, 1 to 4.
    pub(crate) fn count(&self) -> u8
        ensures { IsCountOf self.now result }
    {
        self.domains.len() as u8
    }

    /// The clock of the zone's readers.
    pub(crate) fn clock(&self) -> &Clock<H>
        ensures { clock_id result.now ≡ domains_clock self.now }
    {
        &self.clock
    }

    /// Whether the zone's readers hold no lock, so that its frees are deferred.
    pub(crate) fn is_smr(&self) -> bool
        ensures { result ≡ domains_smr self.now }
    {
        self.smr
    }

    /// The domain with this number.
    pub(crate) fn get(&self, domain: u8) -> &Domain<T, H>
        requires { domain < domain_count self.now }
        ensures { IsDomainAt self.now domain result.now }
    {
        &self.domains[domain as usize]
    }

    /// For what a seat of this domain is made. The book is that of the keg's item numbers.
    pub(crate) fn seating(&self, book: &Book, domain: u8) -> Seating<H>
        requires { CanSeat self.now book.now domain }
        ensures { IsSeatingOf self.now domain result }
    {
        Seating {
            clock: Snapshot::of(&self.clock),
            book: Snapshot::of(book),
            zone: self.zone,
            domain,
            domains: self.count(),
            smr: self.smr,
        }
    }

    /// A share of the domain's book of misses that has no cause. Waits until it has the domain's lock.
    pub(crate) fn open_misses<R: Wait>(&self, rt: &R, domain: u8) -> FailShare
        requires { domain < domain_count self.now }
        ensures { OpensMisses self.now domain result }
    {
        self.get(domain).open_misses(rt)
    }

    /// A port of each domain's inbox, in order. Waits until it has each domain's lock.
    pub(crate) fn open_ports<R: Wait>(
        &self,
        rt: &R,
        alloc: Global,
    ) -> Result<Vec<Port<T, H>>, Memory>
        ensures { IfOk result (λ ports. OpensPorts self.now ports.items) }
    {
        let count = self.count();
        let mut ports = Vec::with_capacity(alloc, count as usize)?;
        for domain in 0..count {
            ports.push_reserved(self.get(domain).port(rt));
        }
        Ok(ports)
    }

    /// In an SMR zone each loose bucket that the domain lists tries once to be sealed, oldest first, under the domain's lock.
    /// A plain zone lists none, and takes no lock for this.
    pub(crate) fn try_listed<R: Wait>(
        &self,
        rt: &R,
        clock: &Clock<H>,
        pass: &mut Pass<H>,
        domain: u8,
    )
        requires { CanSettle self.now clock.now pass.old domain }
        ensures { TriesOwn self.now domain H.copied clock.now pass.old pass.new }
    {
        if !self.smr {
            return;
        }
        self.get(domain).seal_loose(rt, clock, pass);
    }

    /// Looks once for a bucket in the list of the seat's own domain, for a seat that has no usable item. In a plain zone it
    /// is the newest plain one, in an SMR zone the oldest sealed one whose poll says yes; the items of that pass `dtor`
    /// then. Whether there was one: it is the allocation bucket then. Where there was none, that is one more miss in the
    /// seat's share. Waits until it has the domain's lock.
    pub(crate) fn look<R: Wait, K: Hooks<T>>(
        &self,
        rt: &R,
        clock: &Clock<H>,
        pass: &mut Pass<H>,
        hooks: &K,
        seat: &mut SeatCache<T, H>,
    ) -> bool
        requires { CanLook self.now clock.now pass.old seat.old }
        ensures { Looks self.now H.merged (K.leaves_dtor hooks.now) clock.now pass.old seat.old result pass.new seat.new }
    {
        if self.smr {
            self.look_for_ripe(rt, clock, pass, hooks, seat)
        } else {
            self.look_for_plain(rt, seat)
        }
    }

    // Looks for a plain bucket.
    fn look_for_plain<R: Wait>(&self, rt: &R, seat: &mut SeatCache<T, H>) -> bool
        requires none { usable_of seat.old ≡ [] }
        requires can { CanTakePlain self.now seat.old }
        ensures { LooksForPlain self.now seat.old result seat.new }
    {
        match self.take_plain(rt, seat) {
            Some(bucket) => {
                seat.refill(bucket);
                true
            }
            None => false,
        }
    }

    // Looks for a bucket that is ripe. Its items pass `dtor`, and the pass takes in what its note knows.
    fn look_for_ripe<R: Wait, K: Hooks<T>>(
        &self,
        rt: &R,
        clock: &Clock<H>,
        pass: &mut Pass<H>,
        hooks: &K,
        seat: &mut SeatCache<T, H>,
    ) -> bool
        requires can { CanLook self.now clock.now pass.old seat.old }
        requires smr { domains_smr self.now ≡ true }
        ensures { Looks self.now H.merged (K.leaves_dtor hooks.now) clock.now pass.old seat.old result pass.new seat.new }
    {
        match self.take_ripe(rt, clock, seat) {
            Some(ripe) => {
                let (bucket, note) = ripe.into_cached(hooks);
                clock.absorb(pass, note);
                seat.refill(bucket);
                true
            }
            None => false,
        }
    }

    // Takes the newest plain bucket of the seat's own domain.
    fn take_plain<R: Wait>(&self, rt: &R, seat: &mut SeatCache<T, H>) -> Option<Bucket<T>>
        requires { CanTakePlain self.now seat.old }
        ensures { TakesOwnPlain self.now seat.old result seat.new }
    {
        let domain = self.get(seat.domain());
        domain.take_plain(rt, seat.misses())
    }

    // Takes the oldest sealed bucket of the seat's own domain whose poll says yes.
    fn take_ripe<R: Wait>(
        &self,
        rt: &R,
        clock: &Clock<H>,
        seat: &mut SeatCache<T, H>,
    ) -> Option<Ripe<T, H>>
        requires { CanTakeRipe self.now clock.now seat.old }
        ensures { TakesOwnRipe self.now seat.old result seat.new }
    {
        let domain = self.get(seat.domain());
        domain.take_ripe(rt, clock, seat.misses())
    }
}

impl<T: Body + Drop, H: Host> ZoneDomains<T, H> {
    ghost use Rattle.uma_zone.specs.Settling.{FlushesToLook, SettlesEach, SettlesOne};
    ghost use Rattle.uma_zone.specs.Domains.{domains_clock, domains_home};
    ghost use Rattle.uma_zone.specs.Calling.{CanSettle, CanFlush, IsBy};
    ghost use Rattle.uma_zone.specs.Making.{IsDomainCount};
    ghost use Rattle.uma_zone.specs.AtDomain.{AreHeldBy, AreMade};

    /// So many domains, 1 to 4, with empty lists, of a zone over the keg whose item numbers are those of the book. `smr`
    /// says whether readers of the zone hold no lock; their clock gets a handle more.
    pub(crate) fn new(
        alloc: Global,
        clock: &Clock<H>,
        book: &Book,
        zone: u8,
        domains: u8,
        smr: bool,
    ) -> Result<ZoneDomains<T, H>, Memory>
        requires { IsDomainCount domains }
        ensures { IfOk result (AreMade clock.now book.now zone domains smr) }
    {
        let Ok(handle) = clock.share(alloc) else {
            return Err(Memory);
        };
        let mut made = Vec::with_capacity(alloc, domains as usize)?;
        for _ in 0..domains {
            let domain = Domain::new(alloc, clock, Snapshot::of(book), zone, domains, smr)?;
            made.push_reserved(domain);
        }
        Ok(ZoneDomains {
            clock: handle,
            book: Snapshot::of(book),
            zone,
            smr,
            domains: made,
        })
    }

    /// How often the items that the domains have in lists and inboxes passed each hook, and how many of them are freed: one domain after
    /// another. In the zone the ctors exceed the dtors by those that are freed, and in every other zone they are equal,
    /// modulo 2^64. Waits until it has each domain's lock,
    /// and settles the inboxes into the lists; `Memory` where memory is wanting for that.
    pub(crate) fn sums<R: Wait>(&self, rt: &R) -> Result<Sums, Memory>
        ensures { IfOk result (AreHeldBy (domains_home self.now).zone) }
    {
        let mut sums = Sums::none();
        for domain in &self.domains {
            let more = domain.sums(rt)?;
            sums.add_sums(more);
        }
        Ok(sums)
    }

    /// Flushes the seat, and then settles its own domain, so that a look there meets what the seat had on its shelf. `Memory`
    /// where memory is wanting for the one or the other. Waits until it has the domain's lock.
    pub(crate) fn flush_to_look<R: Wait>(
        &self,
        rt: &R,
        clock: &Clock<H>,
        pass: &mut Pass<H>,
        seat: &mut SeatCache<T, H>,
    ) -> Result<(), Memory>
        requires { CanFlush self.now clock.now pass.old seat.old }
        ensures { FlushesToLook self.now H.copied clock.now pass.old seat.old result pass.new seat.new }
    {
        self.flush(rt, clock, pass, seat)?;
        self.settle(rt, clock, pass, seat.domain())
    }

    /// Settles a domain's inbox into its lists, where in an SMR zone each loose bucket tries once to be sealed then. After
    /// `Memory` what was listed stays listed, and the rest is in the inbox. Waits until it has the domain's lock.
    pub(crate) fn settle<R: Wait>(
        &self,
        rt: &R,
        clock: &Clock<H>,
        pass: &mut Pass<H>,
        domain: u8,
    ) -> Result<(), Memory>
        requires { CanSettle self.now clock.now pass.old domain }
        ensures { SettlesOne self.now domain H.copied clock.now pass.old result pass.new }
    {
        self.get(domain).settle(rt)?;
        self.try_listed(rt, clock, pass, domain);
        Ok(())
    }

    /// Settles each domain, one after another. After `Memory` the domains before the one for which it was wanting are
    /// settled, and that one as far as its memory went.
    pub(crate) fn settle_each<R: Wait>(
        &self,
        rt: &R,
        clock: &Clock<H>,
        pass: &mut Pass<H>,
    ) -> Result<(), Memory>
        requires { IsBy (domains_clock self.now) clock.now pass.old }
        ensures { SettlesEach self.now H.copied clock.now pass.old result pass.new }
    {
        for domain in 0..self.count() {
            self.settle(rt, clock, pass, domain)?;
        }
        Ok(())
    }
}
