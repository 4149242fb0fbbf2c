// The player: a run of so many ticks of a loaded control, printed as it goes.

#![tactic(auto)]

ghost use Rattle.std.specs.Prelude.{◌≡◌, IfOk};
ghost use Rattle.player.specs.Plays.{Ran};

use control::Control;
use decimal::put_pulses;
use std::alloc::AllocError;

// How many bytes are put before they are written out.
const FULL: usize = 65_536;

// Makes up to n ticks and puts each one's pulses, until there is enough to write out. Answers how many are left.
pub fn run(control: &mut Control, n: u64, out: &mut Vec<u8>) -> Result<u64, AllocError>
    ensures { IfOk result (λ left. Ran 65536 n left control.old out.old.items control.new out.new.items) }
{
    for made in 0..n {
        if out.len() >= FULL {
            return Ok(n - made);
        }
        put_pulses(out, control.tick())?;
    }
    Ok(0)
}
