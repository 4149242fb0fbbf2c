// Where to go next, no axis making more than so many steps a tick.
ghost use Rattle.std.specs.Prelude.{◌≡◌};
ghost use Rattle.geometry.specs.Places.{within};

use count::count;
use geometry::Place;

#[derive(Clone, Copy, PartialEq, Eq, Debug)]
pub struct Target {
    pub to: Place,
    pub fast: u64,
}

impl Target {
    // Whether it is not past 10^9 on an axis.
    pub fn is_near(self) -> bool
        ensures { result ≡ within 1000000000 self.to }
    {
        self.to.is_within(Place::REACH)
    }
}

// A target lent as three numbers.
impl From<[i64; 3]> for Target {
    ghost use Rattle.std.specs.Prelude.{◌≡◌};
    ghost use Rattle.program.specs.Targets.{target_in};

    ghost from_gives = { λ numbers target. target ≡ target_in numbers };

    fn from(numbers: [i64; 3]) -> Target {
        let [x, y, fast] = numbers;
        Target {
            to: Place { x, y },
            fast: count(fast),
        }
    }
}
