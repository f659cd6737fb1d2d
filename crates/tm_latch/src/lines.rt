//! The objects on which a ticket runs.
ghost use Rattle.std.specs.Prelude.{◌≡◌, ◌+◌, ◌%◌, ◌<◌, ◌≤◌, [], length, None, IsSome, IfOk, IfSome, IfNone, slice_index_or};
ghost use Rattle.slab.specs.Slab.{slab_len, HasRoomFor};
ghost use Rattle.tm_latch.specs.Lines.{Pairs, get, in_bucket, IsTable, IsSpot, SetsOnly, LosesOnly};

use slab::Slab;
use std::alloc::{AllocError, Global};

/// The keys of the first and the last of a queue.
#[derive(Clone, Copy)]
pub struct Ends {
    pub first: usize,
    pub last: usize,
}

/// The ticket that runs on an object, and the queue behind it.
#[derive(Clone, Copy)]
pub struct Line {
    pub ticket: u64,
    pub queue: Option<Ends>,
}

/// The line of an object, and the key of the next node of its bucket.
#[derive(Clone, Copy)]
pub struct Node {
    pub id: u64,
    pub line: Line,
    pub next: Option<usize>,
}

/// Where the node of an object stands: its key, and that of the node before it in its bucket.
#[derive(Clone, Copy)]
pub struct Spot {
    pub before: Option<usize>,
    pub key: usize,
}

/// The lines of the objects on which a ticket runs, in buckets by what the ids leave when they are
/// divided by the number of buckets.
///
/// A call that names an object looks at the objects of its bucket. Ids are given by counting, and
/// there are more buckets than lines, so mostly that is one.
#[derive(Drop)]
pub struct Lines {
    /// The key of the first node of each bucket.
    pub firsts: Vec<Option<usize>>,
    /// The nodes of all buckets.
    pub nodes: Slab<Node>,
}

impl Lines {
    /// No object has a line, and there is room for `room` lines, with one bucket more: 80 bytes for
    /// each. Want of memory is the one error.
    pub fn new(alloc: Global, room: u32) -> Result<Lines, AllocError>
        ensures none { IfOk result (λ a. IsTable a.firsts.items a.nodes []) }
        ensures room { IfOk result (λ a. room ≤ a.nodes.capacity) }
        ensures buckets { IfOk result (λ a. length a.firsts.items ≡ room + 1) }
    {
        Ok(Lines {
            firsts: vec![in alloc; None; room as usize + 1]?,
            nodes: Slab::with_capacity(alloc, room as usize)?,
        })
    }

    /// How many objects have a line.
    pub fn len(&self) -> usize
        ensures { result ≡ slab_len self.now.nodes }
    {
        self.nodes.len()
    }

    /// The line of an object, if a ticket runs on it.
    pub fn line_of(&self, id: u64) -> Option<Line>
        requires { (pairs : Pairs) × IsTable self.now.firsts.items self.now.nodes pairs }
        ensures { (pairs : Pairs) → IsTable self.now.firsts.items self.now.nodes pairs → result ≡ get pairs id }
    {
        match self.search(id) {
            Some(spot) => Some(self.nodes[spot.key].line),
            None => None,
        }
    }

    /// Gives an object a line that had none.
    pub fn add(&mut self, id: u64, line: Line)
        requires table { (pairs : Pairs) × IsTable self.old.firsts.items self.old.nodes pairs }
        requires room { HasRoomFor self.old.nodes 1 }
        ensures adds { (pairs : Pairs) → IsTable self.old.firsts.items self.old.nodes pairs → get pairs id ≡ None → (now : Pairs) × IsTable self.new.firsts.items self.new.nodes now × SetsOnly pairs now id line × (length now ≡ length pairs + 1) }
        ensures capacity { self.new.nodes.capacity ≡ self.old.nodes.capacity }
        ensures buckets { length self.new.firsts.items ≡ length self.old.firsts.items }
    {
        let bucket = self.bucket(id);
        let next = self.firsts[bucket];
        let key = self.nodes.insert_reserved(Node { id, line, next });
        self.firsts[bucket] = Some(key);
    }

    /// Gives an object another line.
    pub fn set(&mut self, id: u64, line: Line)
        requires { (pairs : Pairs) × IsTable self.old.firsts.items self.old.nodes pairs × IsSome (get pairs id) }
        ensures sets { (pairs : Pairs) → IsTable self.old.firsts.items self.old.nodes pairs → IsSome (get pairs id) → (now : Pairs) × IsTable self.new.firsts.items self.new.nodes now × SetsOnly pairs now id line × (length now ≡ length pairs) }
        ensures capacity { self.new.nodes.capacity ≡ self.old.nodes.capacity }
        ensures buckets { length self.new.firsts.items ≡ length self.old.firsts.items }
    {
        let Some(spot) = self.search(id) else {
            unreachable!()
        };
        self.nodes[spot.key].line = line;
    }

    /// Takes the line of an object away.
    pub fn remove(&mut self, id: u64)
        requires { (pairs : Pairs) × IsTable self.old.firsts.items self.old.nodes pairs × IsSome (get pairs id) }
        ensures loses { (pairs : Pairs) → IsTable self.old.firsts.items self.old.nodes pairs → IsSome (get pairs id) → (now : Pairs) × IsTable self.new.firsts.items self.new.nodes now × LosesOnly pairs now id × (length now + 1 ≡ length pairs) }
        ensures capacity { self.new.nodes.capacity ≡ self.old.nodes.capacity }
        ensures buckets { length self.new.firsts.items ≡ length self.old.firsts.items }
    {
        let Some(spot) = self.search(id) else {
            unreachable!()
        };
        let next = self.nodes.remove(spot.key).next;
        match spot.before {
            Some(before) => self.nodes[before].next = next,
            None => {
                let bucket = self.bucket(id);
                self.firsts[bucket] = next;
            }
        }
    }

    // The bucket of an id.
    fn bucket(&self, id: u64) -> usize
        requires { 0 < length self.now.firsts.items }
        ensures bucket { result ≡ id % length self.now.firsts.items }
        ensures within { result < length self.now.firsts.items }
    {
        (id % self.firsts.len() as u64) as usize
    }

    // Where the node of an object stands, if it has one.
    fn search(&self, id: u64) -> Option<Spot>
        requires { (pairs : Pairs) × IsTable self.now.firsts.items self.now.nodes pairs }
        ensures found { IfSome result (λ spot. (pairs : Pairs) → IsTable self.now.firsts.items self.now.nodes pairs → IsSpot self.now.nodes (slice_index_or self.now.firsts.items (id % length self.now.firsts.items) None) (in_bucket (length self.now.firsts.items) (id % length self.now.firsts.items) pairs) id spot) }
        ensures absent { IfNone result ((pairs : Pairs) → IsTable self.now.firsts.items self.now.nodes pairs → get pairs id ≡ None) }
    {
        let mut before = None;
        let mut at = self.firsts[self.bucket(id)];
        for _ in 0..self.nodes.len() {
            let Some(key) = at else {
                return None;
            };
            let node = self.nodes[key];
            if node.id == id {
                return Some(Spot { before, key });
            }
            before = at;
            at = node.next;
        }
        None
    }
}
