// A program's node: what a line or a block says, and its four numbers.
ghost use Rattle.std.specs.Prelude.{◌≡◌};
ghost use Rattle.text.specs.Nodes.{numbers_of};

use crate::phase::{Block, Move};

#[derive(Clone, Copy)]
pub enum Node {
    // No lines at all.
    Nothing,
    // A move: two numbers, and how fast.
    Go(Move, i64, i64, i64),
    // The lines so far, and the one behind them.
    Next(i64, i64),
    // A block, with the node of its lines.
    Lines(Block, i64),
    // The use of a sub-program, by the node of its body.
    Use(i64),
}

impl From<Node> for [i64; 4] {
    ghost from_gives = { λ node r. r ≡ numbers_of node };

    fn from(node: Node) -> [i64; 4] {
        match node {
            Node::Nothing => [0, 0, 0, 0],
            Node::Go(m, x, y, speed) => [m.kind(), x, y, speed],
            Node::Next(so_far, this) => [3, so_far, this, 0],
            Node::Lines(Block::Repeat(n), body) => [4, n, body, 0],
            Node::Lines(Block::Offset(x, y), body) => [5, x, y, body],
            Node::Lines(Block::Turned, body) => [6, body, 0, 0],
            Node::Lines(Block::Mirrored, body) => [7, body, 0, 0],
            Node::Use(body) => [8, body, 0, 0],
        }
    }
}
