// So many steps of a line, out of all that it has, and what of its way an axis has made by then.
ghost use Rattle.std.specs.Prelude.{◌≡◌, ◌≤◌, ◌+ℤ◌, ◌-ℤ◌, unsigned_abs};
ghost use Rattle.line.specs.Lines.{part, share};

#[derive(Clone, Copy)]
pub struct Portion {
    pub made: u64,
    pub of: u64,
    pub ghost few: { made ≤ 2000000000 },
    pub ghost short: { of ≤ 2000000000 },
}

impl Portion {
    // How many steps of a way of `way` are made, halves rounded up.
    #[tactic(auto, using(crate::proofs::Parts::quotients))]
    fn part_of(self, way: u64) -> u64
        requires { way ≤ self.of }
        ensures value { result ≡ part self.made self.of way }
        ensures bound { result ≤ self.made }
    {
        // Most lines go along one axis: there nothing is divided.
        if way == 0 {
            return 0;
        }
        if way == self.of {
            return self.made;
        }
        (2 * way * self.made + self.of) / (2 * self.of)
    }

    // Where an axis is that goes from one number to another.
    pub fn along(self, from: i64, to: i64) -> i64
        requires from { unsigned_abs from ≤ 1000000000 }
        requires to { unsigned_abs to ≤ 1000000000 }
        requires way { unsigned_abs (to -ℤ from) ≤ self.of }
        ensures { result ≡ from +ℤ share self.made self.of (to -ℤ from) }
    {
        let made = self.part_of(from.abs_diff(to)) as i64;
        if to < from { from - made } else { from + made }
    }
}
