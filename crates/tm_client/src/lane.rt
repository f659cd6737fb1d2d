//! What a client keeps for one trustee.
ghost use Rattle.std.specs.Prelude.{◌≡◌, ℕ, ◌+◌, ◌<◌, ◌++◌, ◌∷◌, [], length};
ghost use Rattle.tm_batch.specs.declared.limits.TheConstants.{WINDOW};
ghost use Rattle.tm_client.specs.Lanes.{HasAccepted, name_of};

use circular_buffer::HeapCircularBuffer;
use tm_batch::{Name, Request};
use tm_pair::FitsBatches;

/// What waits for the answer to a request: its continuation, and the name that the request had.
#[derive(Drop)]
pub struct Waiting<C> {
    pub(crate) after: C,
    // The default name for an entrust, which has none.
    pub(crate) name: Name,
}

/// What waits for the completion of a launch whose ticket came: the ticket, and the continuation and the name of its request.
#[derive(Drop)]
pub struct Unfinished<C> {
    pub(crate) ticket: u64,
    pub(crate) after: C,
    pub(crate) name: Name,
}

/// What a client keeps for one trustee: its side there and what has not come back.
#[derive(Drop)]
pub struct Lane<S: FitsBatches, C, D> {
    pub(crate) side: D,
    // The requests that wait, and what waits for the answers of all requests whose answers did not come, in order.
    pub(crate) waits: HeapCircularBuffer<Request<S>>,
    pub(crate) afters: HeapCircularBuffer<Waiting<C>>,
    // The launches whose tickets came and whose completions did not, in the order of their tickets' coming.
    pub(crate) launched: HeapCircularBuffer<Unfinished<C>>,
    // Whether a batch is out, and its room.
    pub(crate) out: bool,
    pub(crate) room: u32,
    // How many requests count: those whose answers were not taken, and launches whose completions were not.
    pub(crate) counting: u32,
    // Whether `fetch` was called since the last batch was published, and whether `close` was called.
    pub(crate) fetching: bool,
    pub(crate) closing: bool,
    // Whether a `Bye` was sent.
    pub(crate) said: bool,
}

/// The name that a request has; the default name where it has none.
fn name_of<S: FitsBatches>(request: &Request<S>) -> Name
    ensures { result ≡ name_of request.now }
{
    match request {
        Request::Apply(name, _) | Request::Launch(name, _) | Request::Grant(name, _) => *name,
        Request::Release(name) | Request::Reclaim(name) => *name,
        Request::Entrust(_) | Request::Bye => Name::default(),
    }
}

impl<S: FitsBatches, C: Drop, D> Lane<S, C, D> {
    /// Lets a request wait behind those that do.
    pub(crate) fn accept(&mut self, request: Request<S>, after: C)
        requires waits { length self.old.waits.items < self.old.waits.capacity }
        requires afters { length self.old.afters.items < self.old.afters.capacity }
        requires counting { self.old.counting < WINDOW }
        ensures { HasAccepted request after self.old self.new }
    {
        let name = name_of(&request);
        let _ = self.waits.try_push_back(request);
        let _ = self.afters.try_push_back(Waiting { after, name });
        self.counting += 1;
    }
}
