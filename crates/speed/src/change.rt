// By how much a tick may change the speed, in steps a tick, and what follows from it: the way to stop, and the next speed.
ghost use Rattle.std.specs.Prelude.{◌≡◌, ◌+◌, ◌^◌, ◌<◌, ◌≤◌, max, nat_le};
ghost use Rattle.speed.specs.Speeds.{stopping, fastest, next_speed};

// A speed stays a number with its limit in the contracts: as a u32 it would be cast wherever it meets a change, a cap or
// what is left, which have 64 bits.
#[derive(Clone, Copy)]
pub struct Change {
    pub steps: u64,
    pub ghost positive: { 1 ≤ steps },
}

impl Change {
    // How far it still goes if it is slowed by the change in each tick: the closed form of the sum.
    #[tactic(auto, using(crate::proofs::Stopping::closed_form))]
    pub fn stopping_distance(self, speed: u64) -> u64
        requires { speed < 2 ^ 32 }
        ensures { result ≡ stopping self.steps speed }
    {
        if speed <= self.steps {
            return 0;
        }
        let terms = speed / self.steps;
        terms * speed - self.steps * (terms * (terms + 1)) / 2
    }

    // The same, tick by tick: a loop that falls by the change, as long as there is speed left.
    #[tactic(auto, using(crate::proofs::Stopping::tick_by_tick))]
    pub fn stopping_distance_by_ticks(self, speed: u64) -> u64
        requires { speed < 2 ^ 32 }
        ensures { result ≡ stopping self.steps speed }
    {
        let mut rest = speed;
        let mut way = 0;
        while rest > self.steps {
            rest -= self.steps;
            way += rest;
        }
        way
    }

    // The speed of the next tick, with so much of the line left: the smaller of the cap and the fastest that can still
    // stop, or the speed less the change, if that is larger. Only speeds within the change of the present one are tried,
    // the highest first, so mostly one look is enough.
    #[tactic(auto, using(crate::proofs::Fastest::looks))]
    pub fn next_speed(self, cap: u64, left: u64, speed: u64) -> u64
        requires { speed + self.steps < 2 ^ 32 }
        ensures { result ≡ next_speed self.steps «cap» left speed }
    {
        let low = speed.saturating_sub(self.steps);
        let high = cap.min(speed + self.steps);
        if high <= low {
            return low;
        }
        if self.can_stop(left, high) {
            return high;
        }
        self.fastest_between(left, low, high)
    }

    // Whether it can make so many steps in this tick and still stop within what is left.
    #[tactic(auto, using(crate::proofs::Stopping::small))]
    fn can_stop(self, left: u64, speed: u64) -> bool
        requires { speed < 2 ^ 32 }
        ensures { result ≡ nat_le (speed + stopping self.steps speed) left }
    {
        speed + self.stopping_distance(speed) <= left
    }

    // The fastest speed below high that can still stop, by bisection, or low if that is larger. High itself can't stop.
    #[tactic(auto, using(crate::proofs::Fastest::bisection))]
    fn fastest_between(self, left: u64, low: u64, high: u64) -> u64
        requires small { high < 2 ^ 32 }
        requires some { low < high }
        requires past { left < high + stopping self.steps high }
        ensures { result ≡ max low (fastest self.steps left high) }
    {
        let mut below = low;
        let mut above = high;
        while above - below > 1 {
            let middle = below + (above - below) / 2;
            if self.can_stop(left, middle) {
                below = middle;
            } else {
                above = middle;
            }
        }
        below
    }
}
