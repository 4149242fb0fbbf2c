// Memory of seven numbers: the work that it says, if it is taken, and the work written back.
ghost use Rattle.std.specs.Prelude.{◌≡◌, ◌^◌, ◌<◌};
ghost use Rattle.entry.specs.Entries.{Checked, memory_checks, all_within, work_in, memory_of};

use count::count;
use geometry::Place;
use refusal::{LentPart, Refusal};
use work::{Motion, Panel, Work};

// How large a number in memory may be either way.
const MOST: u64 = 2_000_000_000;

// The work that memory says.
pub fn work_in(memory: &[i64]) -> Result<Work, Refusal>
    ensures { Checked (memory_checks memory.now) result (λ work. work ≡ work_in memory.now) }
{
    let unsound = Err(Refusal::Lent(LentPart::Memory));
    let [behind, x, y, done, speed, held, percent] = *memory else {
        return unsound;
    };
    let from = Place { x, y };
    if !all_within(memory, MOST) || count(percent) > 100 || !from.is_within(Place::REACH) {
        return unsound;
    }
    Ok(Work {
        motion: Motion {
            behind: count(behind) as usize,
            from,
            done: count(done),
            speed: count(speed),
        },
        panel: Panel {
            held: count(held) == 1,
            percent: count(percent) as u32,
        },
    })
}

// Whether no number is past m either way.
fn all_within(numbers: &[i64], m: u64) -> bool
    ensures { result ≡ all_within m numbers.now }
{
    numbers.iter().all(|n| n.unsigned_abs() <= m)
}

// The seven numbers of a work. No `From`: that may ask nothing, and these have to fit.
pub fn memory_of(work: Work) -> [i64; 7]
    requires behind { work.motion.behind < 2 ^ 63 }
    requires done { work.motion.done < 2 ^ 63 }
    requires speed { work.motion.speed < 2 ^ 63 }
    ensures { result ≡ memory_of work }
{
    [
        work.motion.behind as i64,
        work.motion.from.x,
        work.motion.from.y,
        work.motion.done as i64,
        work.motion.speed as i64,
        i64::from(work.panel.held),
        i64::from(work.panel.percent),
    ]
}
