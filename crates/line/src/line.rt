// A straight line between two places.
ghost use Rattle.std.specs.Prelude.{◌≡◌, ◌≤◌};
ghost use Rattle.geometry.specs.Places.{Within};
ghost use Rattle.line.specs.Lines.{long, on_line};

use crate::portion::Portion;
use geometry::Place;

#[derive(Clone, Copy)]
pub struct Line {
    pub from: Place,
    pub to: Place,
}

impl Line {
    // How many steps its longer axis makes.
    #[tactic(auto, unfolding(crate::specs::Lines::long))]
    pub fn length(self) -> u64
        ensures { result ≡ long self.from self.to }
    {
        let x = self.from.x.abs_diff(self.to.x);
        let y = self.from.y.abs_diff(self.to.y);
        x.max(y)
    }

    // Where it is after n of its steps; past its length it goes on beyond its end.
    #[tactic(auto, unfolding(crate::specs::Lines::on_line))]
    pub fn place(self, n: u64) -> Place
        requires from { Within 1000000000 self.from }
        requires to { Within 1000000000 self.to }
        requires steps { n ≤ 2000000000 }
        ensures { result ≡ on_line self.from self.to n }
    {
        let portion = Portion {
            made: n,
            of: self.length(),
        };
        Place {
            x: portion.along(self.from.x, self.to.x),
            y: portion.along(self.from.y, self.to.y),
        }
    }
}
