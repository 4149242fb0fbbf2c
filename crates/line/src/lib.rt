// Straight lines between places: how many steps one is long, and where each axis is after so many of them. It knows
// nothing of targets, speeds or time.
//
//     2 |                  . o o
//     1 |        . o o .           the line from 0, 0 to 5, 2: it is 5 steps long, one for each
//     0 | o o .                    column, and the other axis takes the nearest step (o)
//         0 1 2 3 4 5

#![tactic(auto)]

ghost use Rattle.std.specs.Prelude.{◌≡◌};
ghost use Rattle.line.specs.Laws.{LineLaws};

mod line;
mod portion;

pub use line::Line;

// Nothing to run: what holds of every line is what it ensures.
pub fn line_laws_hold() -> u8
    ensures { LineLaws }
{
    0
}
