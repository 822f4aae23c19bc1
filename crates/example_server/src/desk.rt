use crate::connections::Connections;
use std::alloc::Global;
use std::fmt;
use std::sync::Wait;
use uma::{DirectoryLocal, Refused};

/// What a worker is asked.
#[derive(Clone, Copy, Debug, PartialEq, Eq)]
pub enum Request {
    /// Open a connection to a peer for a session, and bind the session's name to it.
    Open { session: u64, peer: u64 },
    /// Close the connection that this worker holds for a session, and take its name out.
    Close { session: u64 },
    /// Look up which connection a session has, whichever worker holds it.
    Look { session: u64 },
}

impl fmt::Display for Request {
    fn fmt<W: fmt::Write>(&self, f: &mut fmt::Formatter<W>) -> fmt::Result {
        match self {
            Request::Open { session, peer } => write!(f, "open {session} to {peer}"),
            Request::Close { session } => write!(f, "close {session}"),
            Request::Look { session } => write!(f, "look {session}"),
        }
    }
}

/// What became of a request.
#[derive(Clone, Copy, Debug, PartialEq, Eq)]
pub enum Answer {
    /// The connection of this number is open and held, and the session's name is bound to it.
    Opened { connection: u64 },
    /// The connection is open and held, but the directory bound no name.
    Unnamed { connection: u64, why: Refused },
    /// The pool opened none, and nothing was asked of the directory.
    Refused { why: Refused },
    /// The connection is closed. `named` tells to which its name was bound still; none where it had been evicted by another.
    Closed { named: Option<u64> },
    /// The connection is held still: the pool wasn't ready for it, or the directory took no name out.
    Kept { why: Refused },
    /// This worker holds no connection for the session.
    NotHeld,
    /// The session's name was bound to this connection.
    Found { connection: u64 },
    /// The session's name wasn't bound.
    NotFound,
    /// The clock went on while the worker was about to look. It may look again.
    Late { why: Refused },
}

/// A request and what became of it.
#[derive(Clone, Copy, Debug, PartialEq, Eq)]
pub struct Done {
    pub request: Request,
    pub answer: Answer,
}

/// What a worker works with: its connections, and its local of the directory.
#[derive(Drop)]
pub struct Desk<'a> {
    pub connections: Connections<'a>,
    pub names: DirectoryLocal<'a>,
}

impl Desk<'_> {
    ghost use Rattle.example_server.specs.Answers.{Ends, Stays};

    /// Does what a request asks, and answers what became of it.
    pub fn serve<R: Wait>(&mut self, rt: &R, alloc: Global, request: Request) -> Answer
        ensures ends { Ends request result self.old self.new }
        ensures stays { Stays self.old self.new }
    {
        match request {
            Request::Open { session, peer } => self.open(rt, alloc, session, peer),
            Request::Close { session } => self.close(rt, alloc, session),
            Request::Look { session } => self.look(session),
        }
    }

    // Opens a connection, and then binds its name.
    fn open<R: Wait>(&mut self, rt: &R, alloc: Global, session: u64, peer: u64) -> Answer
        ensures ends { Ends (Request.Open session peer) result self.old self.new }
        ensures stays { Stays self.old self.new }
    {
        let connection = match self.connections.open(rt, alloc, session, peer) {
            Ok(connection) => connection,
            Err(why) => return Answer::Refused { why },
        };
        match self.names.bind(rt, alloc, session, connection) {
            Ok(()) => Answer::Opened { connection },
            Err(why) => Answer::Unnamed { connection, why },
        }
    }

    // Takes the name of a session out whose connection is held here, and closes that. Another worker's sessions are left alone.
    fn close<R: Wait>(&mut self, rt: &R, alloc: Global, session: u64) -> Answer
        ensures ends { Ends (Request.Close session) result self.old self.new }
        ensures stays { Stays self.old self.new }
    {
        let Some(place) = self.connections.place_of(session) else {
            return Answer::NotHeld;
        };
        if let Err(why) = self.connections.make_ready(rt, alloc) {
            return Answer::Kept { why };
        }
        let named = match self.names.unbind(rt, alloc, session) {
            Ok(named) => named,
            Err(why) => return Answer::Kept { why },
        };
        self.connections.close(place);
        Answer::Closed { named }
    }

    // Looks a name up.
    fn look(&mut self, session: u64) -> Answer
        ensures ends { Ends (Request.Look session) result self.old self.new }
        ensures stays { Stays self.old self.new }
    {
        match self.names.look(session) {
            Ok(Some(connection)) => Answer::Found { connection },
            Ok(None) => Answer::NotFound,
            Err(why) => Answer::Late { why },
        }
    }
}
