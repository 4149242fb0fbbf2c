// A frame that places stand in: turned by quarters, mirrored, and with its 0, 0 anywhere.
//
//     outside            inside, with its axes exchanged and x counted to the left: turned a quarter to the left
//
//        y                     x
//        |                     |
//        +--- x          y ----+
ghost use Rattle.std.specs.Prelude.{◌≡◌, ◌≤◌, unsigned_abs};
ghost use Rattle.geometry.specs.Places.{Within};
ghost use Rattle.geometry.specs.Frames.{sided, put, way, in_moved, in_turned, in_mirrored, FramesAct};

use super::place::Place;

#[derive(Clone, Copy, PartialEq, Eq, Debug)]
pub struct Frame {
    // Whether x and y are exchanged, and whether then x counts to the left and y downwards.
    pub swap: bool,
    pub left: bool,
    pub down: bool,
    pub origin: Place,
}

// A count of steps, or as many the other way.
fn signed(n: i64, other: bool) -> i64
    requires { unsigned_abs n ≤ 4000000000 }
    ensures { result ≡ sided other n }
{
    if other { -n } else { n }
}

impl Frame {
    pub const OUTSIDE: Frame = Frame {
        swap: false,
        left: false,
        down: false,
        origin: Place::ORIGIN,
    };

    // A way of the frame, seen from outside.
    pub fn way(self, d: Place) -> Place
        requires { Within 4000000000 d }
        ensures { result ≡ way self d }
    {
        let (x, y) = if self.swap { (d.y, d.x) } else { (d.x, d.y) };
        Place {
            x: signed(x, self.left),
            y: signed(y, self.down),
        }
    }

    // A place of the frame, seen from outside.
    pub fn place(self, p: Place) -> Place
        requires { (Within 4000000000 self.origin) × (Within 4000000000 p) }
        ensures { result ≡ put self p }
    {
        self.way(p).moved(self.origin)
    }

    // The frame inside this one whose 0, 0 lies at d.
    pub fn at(self, d: Place) -> Frame
        requires { (Within 4000000000 self.origin) × (Within 4000000000 d) }
        ensures { result ≡ in_moved self d }
    {
        Frame {
            origin: self.place(d),
            ..self
        }
    }

    // The frame inside this one that is turned a quarter to the left.
    pub fn turn(self) -> Frame
        ensures { result ≡ in_turned self }
    {
        Frame {
            swap: !self.swap,
            left: self.left == self.swap,
            down: self.down != self.swap,
            ..self
        }
    }

    // The frame inside this one with left and right exchanged.
    pub fn mirror(self) -> Frame
        ensures { result ≡ in_mirrored self }
    {
        if self.swap {
            Frame {
                down: !self.down,
                ..self
            }
        } else {
            Frame {
                left: !self.left,
                ..self
            }
        }
    }
}

// Frames put one into another act one after the other, the inner first, and what a frame puts outside it sees again.
pub fn frames_act() -> u8
    ensures { FramesAct }
{
    0
}
