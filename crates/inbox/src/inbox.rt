ghost use Rattle.inbox.specs.Views.{unnamed, naming};
ghost use Rattle.std.specs.Prelude.{◌≡◌, Some, ◌∷◌, [], true, false, None};
ghost use Rattle.crossbeam_queue.specs.SegTies.{IsSegPassOf};

use boxcar::tag::{Names, Tag};
use crossbeam_queue::protocol::{Lesson, Outcome, Protocol, Split};
use crossbeam_queue::{RuledSegQueue, SegPass};
use deed_book::Memory;
use listed::Log;
use std::alloc::Global;
use std::collections::LinkedList;
use std::marker::{Brand, PhantomData};
use std::snapshot::Snapshot;
use std::sync::Wait;

/// One push, as contracts see it. No value of it is made.
pub struct Entry<T> {
    /// The number of the port that pushed.
    pub port: u64,
    /// How many pushes that port had made before.
    pub before: u64,
    pub item: T,
}

/// What each item of an inbox keeps of the inbox's key: "the bucket isn't empty, and is of that zone, keg and clock".
///
/// Whoever pushes has to show it, and whoever pops is told it. `K` is the type of the key. A type that stands for the fact
/// has no values of its own: `struct ShelvedOfKey;`.
pub trait Fits<T, K> {
    ghost fits: { K → T → Type 0 };
}

/// A queue that ends where it is dropped.
pub struct Line<T, V, P: Protocol<T, V>> {
    pub(crate) queue: RuledSegQueue<T, V, P>,
}

impl<T: Drop, V, P: Protocol<T, V>> Drop for Line<T, V, P> {
    fn drop(self) {
        let Line { queue } = self;
        queue.destroy();
    }
}

/// What a pass of the queue knows. No value of it is made.
pub struct View<T, K> {
    /// Whether it pops, and makes ports.
    pub takes: bool,
    /// Whether it pushes.
    pub pushes: bool,
    /// The inbox's key. None as long as it has not been named.
    pub key: Option<K>,
    /// Of a port its number, and of the taker how many ports it made.
    pub number: u64,
    /// What a port pushed.
    pub sent: LinkedList<T>,
    /// What the taker popped.
    pub popped: LinkedList<Entry<T>>,
}

/// The rule of the queue.
pub struct InOrder<F> {
    fits: PhantomData<F>,
}

impl<T, K, F: Fits<T, K>> Protocol<T, View<T, K>> for InOrder<F> {
    ghost use Rattle.inbox.specs.Rule.{Keeps};

    ghost holds = { Keeps F.fits };

    ghost first = { unnamed };
}

pub(crate) type Queue<T, K, F> = RuledSegQueue<T, View<T, K>, InOrder<F>>;

pub(crate) type Seat<T, K> = SegPass<T, View<T, K>>;

/// A key that a call picks.
pub(crate) trait Named<K> {
    ghost use Rattle.std.specs.Prelude.{Option};

    ghost key: { Option K };
}

impl<K> Named<K> for Brand {
    ghost use Rattle.std.specs.Prelude.{None};

    ghost key = { None };
}

/// The first pass gets the key. The other one knows nothing.
pub(crate) struct Keying<N> {
    named: PhantomData<N>,
}

impl<T, K, N: Named<K>> Split<View<T, K>> for Keying<N> {
    ghost use Rattle.inbox.specs.Views.{spent};

    ghost left = { naming N.key };

    ghost right = { λ v. spent };
}

/// The taker makes the next port.
pub(crate) struct Opening;

impl<T, K> Split<View<T, K>> for Opening {
    ghost use Rattle.inbox.specs.Views.{opened, opening};

    ghost left = { opening };

    ghost right = { opened };
}

pub(crate) struct Sending;

impl<T, K> Outcome<T, View<T, K>> for Sending {
    ghost use Rattle.inbox.specs.Views.{sending};
    ghost use Rattle.std.specs.Prelude.{◌≡◌};

    ghost then = { λ v item w. w ≡ sending v item };
}

pub(crate) struct Taking<F> {
    fits: PhantomData<F>,
}

impl<T, K, F: Fits<T, K>> Outcome<T, View<T, K>> for Taking<F> {
    ghost use Rattle.inbox.specs.Rule.{TakesEntry};

    ghost then = { TakesEntry F.fits };
}

impl<T, K, F: Fits<T, K>> Lesson<T, View<T, K>> for Taking<F> {
    ghost use Rattle.inbox.specs.Rule.{SeesAll};

    ghost fact = { SeesAll };
}

/// A queue without end, into which many ports push and from which one taker pops. Its items keep a fact of its key.
#[derive(Drop)]
pub struct Inbox<T, K, F: Fits<T, K>> {
    pub(crate) line: Line<T, View<T, K>, InOrder<F>>,
}

/// Gives the first pass its key.
fn name<T, K, F: Fits<T, K>, N: Named<K>>(
    queue: &Queue<T, K, F>,
    seat: &mut Seat<T, K>,
    key: &K,
) -> Seat<T, K>
    requires picked { N.key ≡ Some key.now }
    requires queue { IsSegPassOf queue.now seat.old }
    requires first { seat.old.me.view.client ≡ unnamed }
    ensures queue { IsSegPassOf queue.now seat.new }
    ensures named { seat.new.me.view.client ≡ naming (Some key.now) unnamed }
{
    let _ = key;
    queue.another::<Keying<N>>(seat)
}

impl<T: Drop, K, F: Fits<T, K>> Inbox<T, K, F> {
    ghost use Rattle.inbox.specs.Inbox.{inbox_id, port_inbox, port_key, taker_inbox, taker_key};
    ghost use Rattle.inbox.specs.Calls.{MakesInbox, PopsOrNot, PushesOrNot};

    /// An empty inbox with this key, that has no port.
    pub fn new(alloc: Global, key: &K) -> Result<(Inbox<T, K, F>, Taker<T, K>), Memory>
        ensures { MakesInbox key.now result }
    {
        let (queue, mut seat) = Queue::<T, K, F>::with_rule(alloc)?;
        drop(name::<T, K, F, Brand>(&queue, &mut seat, key));
        let taker = Taker {
            seat,
            key: Snapshot::of(key),
        };
        let line = Line { queue };
        Ok((Inbox { line }, taker))
    }

    /// Puts an item in at the end. It comes back, and nothing changes, where memory is wanting, or after 2^62 pushes.
    pub fn push<R: Wait>(&self, rt: &R, port: &mut Port<T, K>, item: T) -> Result<(), T>
        requires port { port_inbox port.old ≡ inbox_id self.now }
        requires fits { F.fits (port_key port.old) item }
        ensures { PushesOrNot port.old item result port.new }
    {
        match self
            .line
            .queue
            .push_as::<Sending, R>(rt, &mut port.seat, item)
        {
            Ok(()) => Ok(()),
            Err(item) => {
                port.turned.push(());
                Err(item)
            }
        }
    }

    /// Takes the item at the front. None only where the inbox was empty at a step of this call.
    pub fn pop<R: Wait>(&self, rt: &R, taker: &mut Taker<T, K>) -> Option<T>
        requires { taker_inbox taker.old ≡ inbox_id self.now }
        ensures { PopsOrNot (F.fits (taker_key taker.old)) taker.old result taker.new }
    {
        self.line.queue.pop_as::<Taking<F>, R>(rt, &mut taker.seat)
    }
}

impl<T, K, F: Fits<T, K>> Inbox<T, K, F> {
    ghost use Rattle.inbox.specs.Inbox.{inbox_id, taker_inbox};
    ghost use Rattle.inbox.specs.Calls.{OpensPort};

    /// The port with the next number, which pushed nothing.
    pub fn port(&self, taker: &mut Taker<T, K>) -> Port<T, K>
        requires { taker_inbox taker.old ≡ inbox_id self.now }
        ensures { OpensPort (inbox_id self.now) taker.old taker.new result }
    {
        let seat = self.line.queue.another::<Opening>(&mut taker.seat);
        Port {
            seat,
            key: Snapshot::of(&taker.key),
            turned: Log::new(),
        }
    }
}

/// Which inbox it is, where a type can't name the types of an inbox: a part of a lock's key. It has no bytes.
#[derive(Drop)]
pub struct InboxName {
    tag: Tag,
}

struct NumbersOfInbox;

impl<T, K, F: Fits<T, K>> Names<Inbox<T, K, F>> for NumbersOfInbox {
    ghost use Rattle.inbox.specs.Inbox.{inbox_id};

    ghost numbers = { λ inbox. (inbox_id inbox).0 ∷ (inbox_id inbox).1 ∷ [] };
}

impl InboxName {
    ghost use Rattle.inbox.specs.Name.{name_id};
    ghost use Rattle.inbox.specs.Inbox.{inbox_id};

    /// Says which inbox this is.
    pub fn of<T, K, F: Fits<T, K>>(inbox: &Inbox<T, K, F>) -> InboxName
        ensures { name_id result ≡ inbox_id inbox.now }
    {
        InboxName {
            tag: Tag::of::<Inbox<T, K, F>, NumbersOfInbox>(inbox),
        }
    }
}

/// A way into an inbox, for one thread. Contracts see which inbox it is of, its number, what it pushed, and how many of its
/// pushes were turned back.
#[derive(Drop)]
pub struct Port<T, K> {
    pub(crate) seat: Seat<T, K>,
    pub(crate) key: Snapshot<Snapshot<K>>,
    pub(crate) turned: Log<()>,
    pub ghost no_slot: { seat.me.hand ≡ None },
    pub ghost no_block: { seat.me.spare ≡ None },
    pub ghost pushes: { seat.me.view.client.pushes ≡ true },
    pub ghost takes_not: { seat.me.view.client.takes ≡ false },
    pub ghost named: { seat.me.view.client.key ≡ Some key.value.value },
}

/// The one way out of an inbox. Contracts see which inbox it is of, its key, and what it popped.
#[derive(Drop)]
pub struct Taker<T, K> {
    pub(crate) seat: Seat<T, K>,
    pub(crate) key: Snapshot<K>,
    pub ghost no_slot: { seat.me.hand ≡ None },
    pub ghost no_block: { seat.me.spare ≡ None },
    pub ghost takes: { seat.me.view.client.takes ≡ true },
    pub ghost pushes_not: { seat.me.view.client.pushes ≡ false },
    pub ghost named: { seat.me.view.client.key ≡ Some key.value },
}
