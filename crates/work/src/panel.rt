// The operator's panel: whether it is held, and the knob's percent. It says one number to the motion, the cap.
ghost use Rattle.std.specs.Prelude.{◌≡◌, ◌^◌, ◌<◌};
ghost use Rattle.work.specs.Works.{limit};

use crate::machine::Machine;

#[derive(Clone, Copy)]
pub struct Panel {
    pub held: bool,
    pub percent: u32,
}

impl Panel {
    // The cap: the smaller of top speed and the target's, times the percent over 100, rounded down; 0 while held.
    pub fn cap(self, machine: Machine, fast: u64) -> u64
        requires top { machine.top < 2 ^ 32 }
        ensures { result ≡ limit machine self fast }
    {
        if self.held {
            return 0;
        }
        machine.top.min(fast) * u64::from(self.percent) / 100
    }
}
