// The walk along a circle about a middle at 0, 0: the place after so many steps, how far along a place is, and whether
// it is of the walk at all, each in closed form. A circle is given by the square of its radius, a whole number, which
// the radius need not be. It knows nothing of targets, speeds or time, or of where an arc begins and ends.
//
//     5 | o o o                    a quarter of the circle of radius 5, from the x axis to the y axis: 7 steps,
//     4 |       o                  each to the neighbour ahead that is nearest to the circle
//     3 |         o
//     2 |           o
//     1 |           o
//     0 |           o
//         0 1 2 3 4 5

#![tactic(auto)]

ghost use Rattle.circle.specs.Laws.{CircleLaws};

mod circle;
mod on;
mod root;

pub use circle::Circle;
pub use on::is_on;

// Nothing to run: what holds of every circle is what it ensures.
#[tactic(auto, using(crate::proofs::Walks::circle_laws))]
pub fn circle_laws_hold() -> u8
    ensures { CircleLaws }
{
    0
}
