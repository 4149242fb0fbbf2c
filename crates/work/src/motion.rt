// Motion along targets: how many are behind it, where the present line began, how many of its steps are done, and the
// speed in steps a tick. A tick sees the cap as a number and knows nothing of the panel.
ghost use Rattle.std.specs.Prelude.{◌≡◌, ◌+◌, ◌^◌, ◌<◌};
ghost use Rattle.line.specs.Lines.{long};
ghost use Rattle.std.specs.Option.{option_to_list};
ghost use Rattle.work.specs.Ranges.{Small, NearLine, Near};
ghost use Rattle.work.specs.Works.{begun_at, arrive, advance, after_tick, stands};

use geometry::Place;
use line::Line;
use program::Target;
use speed::Change;

#[derive(Clone, Copy)]
pub struct Motion {
    pub behind: usize,
    pub from: Place,
    pub done: u64,
    pub speed: u64,
}

impl Motion {
    // Motion that begins at a place.
    pub fn begin(from: Place) -> Motion
        ensures { result ≡ begun_at from }
    {
        Motion {
            behind: 0,
            from,
            done: 0,
            speed: 0,
        }
    }

    // A tick under a cap, on the way to a target.
    #[tactic(auto, using(speed::proofs::Fastest::no_more))]
    pub fn advance(self, change: u64, cap: u64, target: Target) -> Motion
        requires small { Small change self }
        ensures { result ≡ advance change «cap» self target }
    {
        let length = self.line_to(target).length();
        let left = length.saturating_sub(self.done);
        let speed = Change { steps: change }.next_speed(cap, left, self.speed);
        self.arrive(target.to, length, self.done + speed, speed)
    }

    // What a line's end carries over: where its length is reached, the next line begins at 0 with speed 0.
    fn arrive(self, to: Place, length: u64, done: u64, speed: u64) -> Motion
        requires length { length ≡ long self.from to }
        requires few { self.behind + 1 < 2 ^ 64 }
        ensures { result ≡ arrive self to done speed }
    {
        if length <= done {
            return Motion {
                behind: self.behind + 1,
                ..Motion::begin(to)
            };
        }
        Motion {
            done,
            speed,
            ..self
        }
    }

    // The line that it is on, on the way to a target.
    fn line_to(self, target: Target) -> Line
        ensures { result ≡ record { from = self.from; to = target.to } }
    {
        Line {
            from: self.from,
            to: target.to,
        }
    }

    // Where it is after a tick on the way to a target, with so many targets behind it before.
    pub fn place_after(self, behind: usize, target: Target) -> Place
        requires near { self.behind ≡ behind → NearLine self target }
        ensures { result ≡ after_tick self behind target }
    {
        if self.behind != behind {
            return self.from;
        }
        self.line_to(target).place(self.done)
    }

    // Where it is, on the way to a target or with none left.
    #[tactic(auto, unfolding(crate::specs::Works::stands))]
    pub fn place(self, next: Option<Target>) -> Place
        requires near { Near self next }
        ensures { result ≡ stands self (option_to_list next) }
    {
        match next {
            None => self.from,
            Some(target) => self.line_to(target).place(self.done),
        }
    }
}
