ghost use Rattle.std.specs.Prelude.{◌≡◌, All};
ghost use Rattle.example_server.specs.Accounts.{Balances};

use crate::desk::{Desk, Done, Request};
use std::alloc::Global;
use std::sync::Wait;

/// A worker, with what became of each of its requests, in order.
///
/// What always holds is all that its user wants of it, as `Balances` says: as many connections were opened as were closed and are
/// held; the pool counted exactly those requests as failed that were answered so; and what was found was bound.
#[derive(Drop)]
pub struct Worker<'a> {
    pub desk: Desk<'a>,
    pub log: Vec<Done>,
    /// Whether there was memory for its log so far.
    pub logs: bool,
    pub ghost accounts: { Balances desk log.items },
}

impl Worker<'_> {
    ghost use Rattle.std.specs.Prelude.{◌∷◌, []};
    ghost use Rattle.example_server.specs.Serving.{Works};

    /// Does what these requests ask, one after another. A worker for whose log there was no memory does nothing more.
    pub fn work<R: Wait>(&mut self, rt: &R, alloc: Global, requests: &[Request])
        ensures { Works requests.now self.old self.new }
    {
        for request in requests {
            self.serve(rt, alloc, *request);
        }
    }

    // Does what a request asks, and logs it. The log has room before anything is done.
    fn serve<R: Wait>(&mut self, rt: &R, alloc: Global, request: Request)
        ensures { Works (request ∷ []) self.old self.new }
    {
        if !self.logs {
            return;
        }
        let Ok(()) = self.log.reserve(1) else {
            self.logs = false;
            return;
        };
        let answer = self.desk.serve(rt, alloc, request);
        self.log.push_reserved(Done { request, answer });
    }
}
