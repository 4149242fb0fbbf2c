// A place in steps, an axis each.
ghost use Rattle.std.specs.Prelude.{◌≡◌, ◌++◌, Some, codes};
ghost use Rattle.std.specs.Fmt.{signed_decimal};
ghost use Rattle.geometry.specs.Places.{moved, within, Within};

use std::fmt;

#[derive(Clone, Copy, PartialEq, Eq, Debug)]
pub struct Place {
    pub x: i64,
    pub y: i64,
}

impl Place {
    pub const ORIGIN: Place = Place { x: 0, y: 0 };

    // How far from 0, 0 a target may lie on an axis.
    pub const REACH: u64 = 1_000_000_000;

    // Whether no axis is past n either way.
    pub fn is_within(self, n: u64) -> bool
        ensures { result ≡ within n self }
    {
        self.x.unsigned_abs() <= n && self.y.unsigned_abs() <= n
    }

    // This place, seen from outside a frame whose 0, 0 lies at d.
    pub fn moved(self, d: Place) -> Place
        requires { (Within 4000000000 self) × (Within 4000000000 d) }
        ensures { result ≡ moved d self }
    {
        Place {
            x: self.x + d.x,
            y: self.y + d.y,
        }
    }
}

// Its axes, as programs and scripts write them.
impl fmt::Display for Place {
    ghost output = { λ p. Some (signed_decimal p.x ++ (codes " " ++ signed_decimal p.y)) };

    fn fmt<W: fmt::Write>(&self, f: &mut fmt::Formatter<W>) -> fmt::Result {
        write!(f, "{} {}", self.x, self.y)
    }
}
