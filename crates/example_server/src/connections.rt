ghost use Rattle.std.specs.Prelude.{◌≡◌, Some, None, ◌<◌, ◌+◌, ℕ, [], All, IfOk, IfErr, OnOk, length};
ghost use Rattle.uma.specs.LedgerSteps.{IsNew};
ghost use Rattle.uma.specs.Local.{ledger_in, pool_of};
ghost use Rattle.uma.specs.Pool.{IsItemOf};
ghost use Rattle.example_server.specs.Held.{IsOpen, first_of};

use std::alloc::Global;
use std::sync::Wait;
use uma::{DataLocal, DataPool, Item, ItemHooks, Memory, PoolLedger, Refused, TrailHooks};

/// A connection that a worker holds open for a session. The type has no copy: who has it is its only holder.
#[derive(Drop)]
pub struct Held {
    pub session: u64,
    pub peer: u64,
    pub item: uma::Held<Connection>,
}

/// The pool of connections, which all workers share by reference, and what one of them has of it.
pub type ConnectionPool = DataPool<Connection, ConnectionHooks>;

pub type ConnectionLocal<'a> = DataLocal<'a, Connection, ConnectionHooks>;

/// How many bytes a connection is said to have: 16 fit a slab.
pub const CONNECTION_SIZE: u32 = 256;

/// The code with which a connection refuses peer 0, who is nobody.
pub const NOBODY: u8 = 1;

/// The data of a connection, whose memory is used again and again: who is at the other end, while it is open.
#[derive(Debug, Drop)]
pub struct Connection {
    pub peer: Option<u64>,
}

/// What happens to a connection as it comes and goes. The argument of a request is the peer.
///
/// This is all that a user of a pool writes of it: no count, and no lock. Each `ghost` line says what a hook refuses or leaves; where none
/// is written it refuses nothing, and leaves the data as it was.
#[derive(Clone, Copy)]
pub struct ConnectionHooks;

impl ItemHooks<Connection> for ConnectionHooks {
    ghost use Rattle.example_server.specs.Connection.{bars};

    ghost makes = { λ hooks number made. made.peer ≡ None };

    ghost refuses_ctor = { λ hooks before zone peer. bars peer };

    ghost leaves_ctor = { λ hooks before zone peer left. left.peer ≡ Some peer };

    ghost leaves_dtor = { λ hooks before zone left. left.peer ≡ None };

    fn make<R: Wait>(&self, _rt: &R, _alloc: Global, _no: u32) -> Result<Connection, Memory> {
        Ok(Connection { peer: None })
    }

    fn init(&self, _zone: u8, _connection: &mut Connection) -> Result<(), u8> {
        Ok(())
    }

    /// Opens it.
    fn ctor(&self, _zone: u8, connection: &mut Connection, peer: u64) -> Result<(), u8> {
        if peer == 0 {
            return Err(NOBODY);
        }
        connection.peer = Some(peer);
        Ok(())
    }

    /// Closes it.
    fn dtor(&self, _zone: u8, connection: &mut Connection) {
        connection.peer = None;
    }

    fn fini(&self, _zone: u8, _connection: &mut Connection) {}

    fn bury<R: Wait>(&self, _rt: &R, _connection: Connection) {}
}

/// The connections that one worker holds, with its local of the pool.
///
/// What always holds: each held connection is of the pool, and open to its peer; and as many were opened as were closed and are held.
/// So a connection can't be lost: a body that drops one isn't proved.
#[derive(Drop)]
pub struct Connections<'a> {
    local: ConnectionLocal<'a>,
    held: Vec<Held>,
    ghost home: { All (λ held. IsItemOf (pool_of local) held.item) held.items },
    ghost opened: { All IsOpen held.items },
    ghost balanced: { (ledger_in local).allocs ≡ (ledger_in local).frees + length held.items },
}

impl<'a> Connections<'a> {
    ghost use Rattle.uma.specs.Local.{IsNotReady};
    ghost use Rattle.uma.specs.Table.{IsLedgerOf};
    ghost use Rattle.example_server.specs.Connections.{Closes, IsReady, KeepsPlace, KeepsPool, Opens, RefusesOpen, counts_in, held_in};

    /// No connection, by a local that counted nothing.
    pub fn new(alloc: Global, local: ConnectionLocal<'a>) -> Connections<'a>
        requires { IsNew (ledger_in local) }
        ensures local { result.local ≡ local.entry }
        ensures held { held_in result ≡ [] }
    {
        Connections {
            local,
            held: Vec::new(alloc),
        }
    }

    /// Opens a connection to a peer for a session, and answers its number in the pool. What can fail besides is done first, so a
    /// connection that was opened is held.
    pub fn open<R: Wait>(
        &mut self,
        rt: &R,
        alloc: Global,
        session: u64,
        peer: u64,
    ) -> Result<u64, Refused>
        ensures pool { KeepsPlace self.old self.new }
        ensures opened { IfOk result (λ number. Opens session peer number self.old self.new) }
        ensures refused { IfErr result (RefusesOpen peer self.old self.new) }
    {
        let Ok(()) = self.held.reserve(1) else {
            return Err(Refused::Memory);
        };
        let item = self.local.alloc(rt, alloc, peer)?;
        let number = u64::from(item.no());
        self.held.push_reserved(Held {
            session,
            peer,
            item,
        });
        Ok(number)
    }

    /// Sees to it that the next `close` may be called.
    ///
    /// # Errors
    ///
    /// `Counts` where the local's counts are full, and else `Memory`.
    pub fn make_ready<R: Wait>(&mut self, rt: &R, alloc: Global) -> Result<(), Refused>
        ensures ready { OnOk result (IsReady self.new) }
        ensures kept { KeepsPool self.old self.new }
        ensures refused { IfErr result (IsNotReady self.old.local) }
    {
        self.local.make_ready(rt, alloc)
    }

    /// Closes the connection at this place.
    pub fn close(&mut self, place: usize)
        requires ready { IsReady self.old }
        requires place { place < length (held_in self.old) }
        ensures pool { KeepsPlace self.old self.new }
        ensures closed { Closes place self.old self.new }
    {
        let Held { item, .. } = self.held.remove(place);
        self.local.put(item);
    }

    /// Where the first connection stands that is held for a session, if there is one.
    pub fn place_of(&self, session: u64) -> Option<usize>
        ensures { result ≡ first_of session (held_in self.now) }
    {
        place_in(self.held.as_slice(), session)
    }

    /// What the local counted.
    pub fn ledger(&self) -> PoolLedger<Item<Connection>, TrailHooks<ConnectionHooks>>
        ensures counts { result.counts ≡ counts_in self.now }
        ensures pool { IsLedgerOf (pool_of self.now.local) result }
    {
        self.local.ledger()
    }
}

// Where the first connection of a session stands.
fn place_in(held: &[Held], session: u64) -> Option<usize>
    ensures { result ≡ first_of session held.now }
{
    held.iter().position(|held| held.session == session)
}
