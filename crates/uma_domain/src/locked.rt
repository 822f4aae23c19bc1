ghost use Rattle.std.specs.Prelude.{◌≡◌, [], ◌∷◌, OnOk};
ghost use Rattle.uma_bucket.specs.Inboxes.{taker_origin};
ghost use Rattle.uma_domain.specs.Identity.{origin_of};
ghost use Rattle.uma_domain.specs.Lists.{lists_identity};
ghost use Rattle.inbox.specs.Inbox.{inbox_id};
ghost use Rattle.uma_bucket.specs.Shelved.{CanBeListed};

use crate::lists::Lists;
use deed_book::Memory;
use smr_clock::Host;
use std::sync::Wait;
use uma_bucket::{Inbox, Port, Shelved, Sums, Taker};
use uma_life::Body;

/// What a domain's lock keeps: the lists, and the one way out of the domain's inbox.
#[derive(Drop)]
pub struct Locked<T: Body, H: Host> {
    pub(crate) lists: Lists<T, H>,
    pub(crate) taker: Taker<T, H>,
    pub ghost of_inbox: { taker_origin taker ≡ origin_of (lists_identity lists) },
}

/// How many buckets one settle lists at most.
const MOST_SETTLED: u32 = 65_536;

/// The greatest count of items in a bucket.
const MOST_SIZE: u64 = 64;

impl<T: Body, H: Host> Lists<T, H> {
    ghost use Rattle.uma_domain.specs.Puts.{HasRoom};
    ghost use Rattle.uma_domain.specs.Frames.{KeepsAll};
    ghost use Rattle.uma_domain.specs.Settled.{AreListed};

    // Makes room for one bucket of any kind. Where memory is wanting, or where 2^32 items or more could be listed then,
    // nothing changes.
    fn make_room(&mut self) -> Result<(), Memory>
        ensures room { OnOk result (HasRoom self.new) }
        ensures kept { KeepsAll self.old self.new }
    {
        if self.working.count + MOST_SIZE > u64::from(u32::MAX) {
            return Err(Memory);
        }
        self.plain.reserve(1)?;
        self.loose.reserve(1)?;
        let buckets = self.loose.len() + 1;
        self.sealed.reserve(buckets)?;
        Ok(())
    }

    // Lists a bucket as the newest of its kind, where there is room for it.
    fn list(&mut self, shelved: Shelved<T, H>)
        requires can { CanBeListed (lists_identity self.old).home (lists_identity self.old).clock shelved }
        requires room { HasRoom self.old }
        ensures { AreListed (shelved ∷ []) self.old self.new }
    {
        match shelved {
            Shelved::Plain { bucket, .. } => {
                let _ = bucket.len();
                match self.put_plain(bucket) {
                    Ok(()) => {}
                    Err(_) => unreachable!(),
                }
            }
            Shelved::Loose { bucket, .. } => {
                let _ = bucket.len();
                match self.put_loose(bucket) {
                    Ok(()) => {}
                    Err(_) => unreachable!(),
                }
            }
            Shelved::Sealed { bucket, .. } => {
                let _ = bucket.len();
                match self.put_sealed(bucket) {
                    Ok(()) => {}
                    Err(_) => unreachable!(),
                }
            }
        }
    }
}

impl<T: Body, H: Host> Locked<T, H> {
    ghost use Rattle.uma_domain.specs.Puts.{IsNewPort};

    /// The next port of the domain's inbox, which pushed nothing.
    pub(crate) fn port(&mut self, inbox: &Inbox<T, H>) -> Port<T, H>
        requires { inbox_id inbox.now ≡ (lists_identity self.old.lists).inbox }
        ensures port { IsNewPort (lists_identity self.old.lists) result }
        ensures lists { self.new.lists ≡ self.old.lists }
    {
        inbox.port(&mut self.taker)
    }
}

impl<T: Body + Drop, H: Host> Locked<T, H> {
    ghost use Rattle.uma_domain.specs.Settled.{SettlesAll, SettlesNext, SettlesSome, SumsSettled};
    ghost use Rattle.uma_domain.specs.Sums.{TellsSums};

    /// Settles the inbox into the lists: makes room, pops a bucket and lists it as the newest of its kind, until a pop finds
    /// nothing or 65,536 buckets were listed. Answers how many were. Where memory is wanting, or where 2^32 items or more
    /// could be listed, what was listed stays listed, and the rest is in the inbox.
    pub fn settle<R: Wait>(&mut self, rt: &R, inbox: &Inbox<T, H>) -> Result<u32, Memory>
        requires inbox { inbox_id inbox.now ≡ (lists_identity self.old.lists).inbox }
        ensures { SettlesAll self.old result self.new }
    {
        for count in 0..MOST_SETTLED {
            if !self.settle_one(rt, inbox)? {
                return Ok(count);
            }
        }
        Ok(MOST_SETTLED)
    }

    // Settles one bucket, if there is one.
    fn settle_one<R: Wait>(&mut self, rt: &R, inbox: &Inbox<T, H>) -> Result<bool, Memory>
        requires inbox { inbox_id inbox.now ≡ (lists_identity self.old.lists).inbox }
        ensures { SettlesNext self.old result self.new }
    {
        self.lists.make_room()?;
        let Some(shelved) = inbox.pop(rt, &mut self.taker) else {
            return Ok(false);
        };
        self.lists.list(shelved);
        Ok(true)
    }

    /// How often the items listed and those in the inbox passed each hook, and how many of them are freed: settles first.
    pub fn sums<R: Wait>(&mut self, rt: &R, inbox: &Inbox<T, H>) -> Result<Sums, Memory>
        requires inbox { inbox_id inbox.now ≡ (lists_identity self.old.lists).inbox }
        ensures told { TellsSums (lists_identity self.old.lists).home.zone (λ sums. SumsSettled self.old sums self.new) (SettlesSome self.old self.new) result }
        ensures identity { lists_identity self.new.lists ≡ lists_identity self.old.lists }
    {
        self.settle(rt, inbox)?;
        Ok(self.lists.sums())
    }
}
