//! What is still to be asked for a command.
ghost use Rattle.std.specs.Prelude.{◌≡◌, ◌↔◌, ◌∷◌, ◌++◌, [], None, length, option_to_list, true};
ghost use Rattle.mc_next.specs.Works.{left_of, pieces_of};

use crate::piece::Piece;
use mc_route::{Ask, ShardPart};
use std::alloc::Global;
use std::vec::IntoIter;

/// What is still to be asked for a command, in order.
#[derive(Drop)]
pub(crate) struct Todo {
    // What was put back stands before the rest.
    pub(crate) first: Option<Piece>,
    pub(crate) rest: IntoIter<ShardPart, Global>,
}

/// How many questions a command has.
pub(crate) fn count_of(ask: &Ask) -> usize
    ensures { result ≡ length (pieces_of ask.now) }
{
    match ask {
        Ask::Nobody => 0,
        Ask::Shards(parts) => parts.len(),
        Ask::Desk(_) => 1,
    }
}

impl Todo {
    /// All that is asked for a command. Takes no memory.
    pub(crate) fn of(alloc: Global, ask: Ask) -> Todo
        ensures { left_of result ≡ pieces_of ask }
    {
        match ask {
            Ask::Nobody => Todo {
                first: None,
                rest: Vec::new(alloc).into_iter(),
            },
            Ask::Shards(parts) => Todo {
                first: None,
                rest: parts.into_vec().into_iter(),
            },
            Ask::Desk(task) => Todo {
                first: Some(Piece::Launch(task)),
                rest: Vec::new(alloc).into_iter(),
            },
        }
    }

    /// Whether nothing is left to be asked.
    pub(crate) fn is_empty(&self) -> bool
        ensures { (result ≡ true) ↔ (left_of self.now ≡ []) }
    {
        self.first.is_none() && self.rest.len() == 0
    }

    // Takes the first of the parts out.
    fn take_part(&mut self) -> Option<Piece>
        requires { self.old.first ≡ None }
        ensures left { left_of self.old ≡ option_to_list result ++ left_of self.new }
        ensures free { self.new.first ≡ None }
        ensures none { result ≡ None → left_of self.new ≡ [] }
    {
        match self.rest.next() {
            Some(part) => Some(Piece::Part(part)),
            None => None,
        }
    }

    /// Takes the first question out, if there is one.
    pub(crate) fn take(&mut self) -> Option<Piece>
        ensures left { left_of self.old ≡ option_to_list result ++ left_of self.new }
        ensures free { self.new.first ≡ None }
        ensures none { result ≡ None → left_of self.new ≡ [] }
    {
        match self.first.take() {
            Some(piece) => Some(piece),
            None => self.take_part(),
        }
    }

    /// Puts the question back that was taken out last.
    pub(crate) fn put_back(&mut self, piece: Piece)
        requires { self.old.first ≡ None }
        ensures { left_of self.new ≡ piece ∷ left_of self.old }
    {
        self.first = Some(piece);
    }
}
