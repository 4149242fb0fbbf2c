// Whether a place is of the walk along a circle.
ghost use Rattle.std.specs.Prelude.{◌≡◌};
ghost use Rattle.circle.specs.Circles.{on};

use geometry::Place;

// Whether p is a place of the walk: no farther inside the circle, by the squares, than it is from the middle on its
// farther axis, and outside less far. It asks nothing of r, the square of the radius, and so is no method of a circle.
#[tactic(auto, unfolding(crate::specs::Circles::on, crate::specs::Circles::square))]
pub fn is_on(r: u64, p: Place) -> bool
    ensures { result ≡ on r p }
{
    let x = u128::from(p.x.unsigned_abs());
    let y = u128::from(p.y.unsigned_abs());
    let square = x * x + y * y;
    let reach = x.max(y);
    let r = u128::from(r);
    r <= square + reach && square < r + reach
}
