// A circle about 0, 0 and where the walk along it is: the first quarter row by row up to the diagonal, then column by
// column, and the others turned.
ghost use Rattle.std.specs.Prelude.{◌≡◌, ◌+◌, ◌≤◌};
ghost use Rattle.geometry.specs.Places.{Within};
ghost use Rattle.circle.specs.Circles.{quarter, best, corner, turns, after, into, index};

use crate::root::nearest_root;
use geometry::Place;

// The square of its radius, and how many steps a quarter of the walk has.
#[derive(Clone, Copy)]
pub struct Circle {
    pub squared_radius: u64,
    pub quarter_steps: u64,
    pub ghost small: { squared_radius ≤ 20000000000000000 },
    pub ghost quartered: { quarter_steps ≡ quarter squared_radius },
    pub ghost short: { quarter_steps ≤ 2147483648 },
}

// A place turned by n quarters to the left.
fn turned(p: Place, n: u64) -> Place
    requires { Within 2147483648 p }
    ensures value { result ≡ turns n p }
    ensures bound { Within 2147483648 result }
{
    match n % 4 {
        0 => p,
        1 => Place { x: -p.y, y: p.x },
        2 => Place { x: -p.x, y: -p.y },
        _ => Place { x: p.y, y: -p.x },
    }
}

impl Circle {
    // The circle whose radius has this square.
    #[tactic(auto, unfolding(crate::specs::Circles::quarter))]
    pub fn new(squared_radius: u64) -> Circle
        requires { squared_radius ≤ 20000000000000000 }
        ensures { result.squared_radius ≡ squared_radius }
    {
        Circle {
            squared_radius,
            quarter_steps: nearest_root(2 * squared_radius),
        }
    }

    // How far along the one axis it is where it is k along the other.
    #[tactic(auto, unfolding(crate::specs::Circles::best))]
    fn best(self, k: u64) -> u64
        requires { k ≤ 2147483648 }
        ensures value { result ≡ best self.squared_radius k }
        ensures bound { result ≤ 2147483648 }
    {
        nearest_root(self.squared_radius.saturating_sub(k * k))
    }

    // The place after j steps of the first quarter.
    #[tactic(auto, using(crate::proofs::Corners::corner_low, crate::proofs::Corners::corner_high))]
    fn corner(self, j: u64) -> Place
        requires { j ≤ self.quarter_steps }
        ensures value { result ≡ corner self.squared_radius j }
        ensures bound { Within 2147483648 result }
    {
        if 2 * j <= self.quarter_steps {
            Place {
                x: self.best(j) as i64,
                y: j as i64,
            }
        } else {
            let left = self.quarter_steps - j;
            Place {
                x: left as i64,
                y: self.best(left) as i64,
            }
        }
    }

    // The place after k steps to the left from the x axis.
    #[tactic(auto, using(crate::proofs::Walks::after_none), unfolding(crate::specs::Circles::after))]
    pub fn place(self, k: u64) -> Place
        ensures value { result ≡ after self.squared_radius k }
        ensures bound { Within 2147483648 result }
    {
        if self.quarter_steps == 0 {
            return Place::ORIGIN;
        }
        turned(self.corner(k % self.quarter_steps), k / self.quarter_steps)
    }

    // How many steps into the first quarter the place a, b is: its row up to the diagonal, then by its column.
    #[tactic(auto, unfolding(crate::specs::Circles::into))]
    fn into_quarter(self, a: u64, b: u64) -> u64
        ensures value { result ≡ into self.quarter_steps a b }
        ensures bound { result ≤ self.quarter_steps + b }
    {
        if b <= a {
            b
        } else {
            self.quarter_steps.saturating_sub(a)
        }
    }

    // How many steps to the left from the x axis the place p of the walk is.
    #[tactic(auto, unfolding(crate::specs::Circles::index))]
    pub fn index(self, p: Place) -> u64
        ensures { result ≡ index self.squared_radius p }
    {
        let x = p.x.unsigned_abs();
        let y = p.y.unsigned_abs();
        if p.x > 0 && p.y >= 0 {
            return self.into_quarter(x, y);
        }
        if p.y > 0 {
            return self.quarter_steps + self.into_quarter(y, x);
        }
        if p.x < 0 {
            return 2 * self.quarter_steps + self.into_quarter(x, y);
        }
        3 * self.quarter_steps + self.into_quarter(y, x)
    }
}
