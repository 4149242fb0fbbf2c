// A machine from two numbers.
ghost use Rattle.std.specs.Prelude.{◌≡◌};
ghost use Rattle.control.specs.Controls.{machine_of};

use refusal::{MachinePart, Refusal};
use work::Machine;

const MOST: u64 = 1_000_000;

// A machine with this change and top speed, each 1 to 1,000,000, or its refusal. The two stay two numbers until they come
// here: a struct of unchecked ones would be a second machine.
pub fn machine(change: u64, top: u64) -> Result<Machine, Refusal>
    ensures { result ≡ machine_of change top }
{
    if !(1..=MOST).contains(&change) {
        return Err(Refusal::Machine(MachinePart::Change));
    }
    if !(1..=MOST).contains(&top) {
        return Err(Refusal::Machine(MachinePart::Top));
    }
    Ok(Machine { change, top })
}
