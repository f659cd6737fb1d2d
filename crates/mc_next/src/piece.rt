//! One question of a command.

use mc_route::{DeskTask, ShardPart};

/// What one trustee is asked.
#[derive(Drop)]
pub(crate) enum Piece {
    /// An operation of a class.
    Part(ShardPart),
    /// Work of the desk.
    Launch(DeskTask),
}
