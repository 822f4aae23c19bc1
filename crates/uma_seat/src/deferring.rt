ghost use Rattle.smr_clock.specs.Belongs.{IsPassOf};
ghost use Rattle.uma_seat.specs.FreeCalls.{TriesToSeal};

use crate::seat::SeatCache;
use smr_clock::{Clock, Host, Pass};
use uma_bucket::{Freed, Loose, Shelved};
use uma_life::{Body, Live};

impl<T: Body, H: Host> SeatCache<T, H> {
    ghost use Rattle.std.specs.Prelude.{◌≡◌, false, slice_set};
    ghost use Rattle.smr_clock.specs.Belongs.{view};
    ghost use Rattle.uma_life.specs.Live.{live_domain};
    ghost use Rattle.uma_bucket.specs.Freed.{freed_item};
    ghost use Rattle.uma_seat.specs.Frames.{KeepsAllButFreed, KeepsAllButFreedAndRack, KeepsPass};
    ghost use Rattle.uma_seat.specs.FreeCalls.{CanDefer, CanFreeSmr, CanSeal, FreesSmr};
    ghost use Rattle.uma_seat.specs.Freeing.{ShelvesFreed};
    ghost use Rattle.uma_seat.specs.Stack.{stack_at, with_item};
    ghost use Rattle.uma_seat.specs.Seat.{freed_of};

    /// Takes in an item of a zone whose readers hold no lock. The item stays built and is deferred, and no item of the
    /// seat becomes usable. It is put into the bucket of its domain. If that bucket is full then, it tries once to be
    /// sealed and becomes the newest on the shelf, and a spare takes its place.
    #[inline]
    pub fn free_smr(&mut self, clock: &Clock<H>, pass: &mut Pass<H>, item: Live<T>)
        requires { CanFreeSmr clock.now pass.old self.old item }
        ensures { FreesSmr H.copied clock.now pass.old self.old item pass.new self.new }
    {
        let domain = item.domain();
        self.counts.count_free(domain != self.seating.domain);
        if self.freed.is_filled_by_one(domain) {
            self.seal_full(clock, pass, domain, Freed::of(item));
        } else {
            self.defer(domain, Freed::of(item));
        }
    }

    fn defer(&mut self, domain: u8, item: Freed<T>)
        requires { CanDefer false self.old domain item }
        ensures put { freed_of self.new ≡ slice_set (freed_of self.old) domain (with_item (stack_at (freed_of self.old) domain) (freed_item item)) }
        ensures frame { KeepsAllButFreed self.old self.new }
    {
        self.freed.push(domain, item);
    }

    // Kept out of `free_smr`, as `shelve` is kept out of `free`.
    #[inline(never)]
    fn seal_full(&mut self, clock: &Clock<H>, pass: &mut Pass<H>, domain: u8, item: Freed<T>)
        requires { CanSeal clock.now pass.old self.old domain item }
        ensures pass { KeepsPass clock.now pass.old pass.new }
        ensures full { ShelvesFreed H.copied (view pass.old) self.old (live_domain (freed_item item)) (with_item (stack_at (freed_of self.old) (live_domain (freed_item item))) (freed_item item)) self.new (view pass.new) }
        ensures frame { KeepsAllButFreedAndRack self.old self.new }
    {
        let spare = self.rack.take_spare();
        let loose = self.freed.push_last(domain, item, Loose::reuse(spare));
        let newest = try_to_seal(clock, pass, domain, loose);
        self.rack.put_newest(newest);
    }
}

/// Tries once to seal a loose bucket of a domain. It stays loose if the advance is refused.
///
/// # Arguments
///
/// - `domain`: the number of the memory domain to whose lists the bucket goes.
pub fn try_to_seal<T: Body, H: Host>(
    clock: &Clock<H>,
    pass: &mut Pass<H>,
    domain: u8,
    loose: Loose<T>,
) -> Shelved<T, H>
    requires here { IsPassOf clock.now pass.old }
    ensures { TriesToSeal H.copied clock.now pass.old domain loose result pass.new }
{
    match loose.seal(clock, pass) {
        Ok(bucket) => Shelved::Sealed { domain, bucket },
        Err((bucket, _)) => Shelved::Loose { domain, bucket },
    }
}
