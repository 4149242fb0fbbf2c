// One event on lent memory.
ghost use Rattle.entry.specs.Entries.{event_of, refusal_of, DoneSays};

use crate::done::Done;
use crate::memory::memory_of;
use crate::request::Request;

// Does an event on the work in memory: everything is checked first, and only then is memory written. Numbers and slices,
// and a `Done`: the shop fixed this signature.
pub fn happen(
    change: u64,
    top: u64,
    targets: &[i64],
    memory: &mut [i64],
    kind: u64,
    number: u64,
) -> Done
    ensures { DoneSays (refusal_of change top targets.now memory.old kind number) (record { change = change; top = top }) targets.now memory.old (event_of kind number) result memory.new }
{
    match Request::read(change, top, targets, memory, kind, number) {
        Ok(request) => {
            let (work, pulses) = request.step();
            memory.copy_from_slice(&memory_of(work));
            Done::Moved(pulses.x, pulses.y)
        }
        Err(refusal) => Done::Turned(refusal),
    }
}
