// The text of a part program, as people write it, read into nodes.
//
//     text --scanner--> words --token--> tokens --reader--> nodes, four numbers each
//
//     to 10 -5 fast 40;    by 3 0 fast 40;                  a move
//     5 times { }   at 100 0 { }   turn { }   mirror { }    lines in braces
//     sub 2 { }   sub 2;                                    a sub-program before all else, and its use
//
// It knows nothing of what nodes mean: places, frames and targets are for others.

#![tactic(auto)]

mod draft;
mod error;
mod node;
mod phase;
mod reader;
mod scanner;
mod token;
mod words;

pub use error::{Expected, Unreadable};
pub use phase::{Block, Move};
pub use reader::read;
