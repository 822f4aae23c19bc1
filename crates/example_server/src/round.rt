use crate::desk::Request;

/// What each worker is asked in one round, from worker 0 on.
#[derive(Drop)]
pub struct Round {
    pub lists: Vec<Vec<Request>>,
}

impl Round {
    ghost use Rattle.std.specs.Prelude.{◌≡◌};
    ghost use Rattle.example_server.specs.Serving.{asked_of};

    /// What worker `n` is asked: nothing where there is no list for it.
    pub fn list(&self, n: usize) -> &[Request]
        ensures { result.now ≡ asked_of self.now n }
    {
        match self.lists.get(n) {
            Some(list) => list.as_slice(),
            None => &[],
        }
    }
}
