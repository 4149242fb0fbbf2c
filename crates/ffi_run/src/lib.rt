// A program run from the beginning for so many ticks, for programs in C and Rust: a loaded control and nothing else, so
// that its library, which `ffi_run_c` exports, is also what the control's speed is measured by. It knows nothing of texts.

#![tactic(auto)]

ghost use Rattle.std.specs.Prelude.{◌≡◌, ◌^◌, min};
ghost use Rattle.ffi_run.specs.Runs.{end_from, Ran, RunTold};
ghost use Rattle.geometry.specs.Places.{Within};
ghost use Rattle.pulses.specs.Motors.{onto};

use control::Control;
use geometry::Place;
use program::load;
use pulses::Pulses;
use refusal::{Failed, Refusal};
use std::alloc::Global;

// What a run returns where there is not enough memory for the targets.
const NO_MEMORY: u64 = u64::MAX;

// Loads a program that says at most so many targets, makes so many ticks, and writes the sum of all pulses into `moved`. The C
// interface fixed the form.
pub fn mill_run(
    heap: Global,
    change: u64,
    top: u64,
    nodes: &[i64],
    most: u64,
    count: u64,
    moved: &mut [i64; 2],
    at: &mut [u64; 1],
) -> u64
    ensures { RunTold change top nodes.now (min most (2 ^ 60)) count moved.old at.old result moved.new at.new }
{
    match run(heap, change, top, nodes, most, count) {
        Ok(end) => {
            *moved = [end.x, end.y];
            0
        }
        Err(Failed::Refused(refusal)) => {
            *at = [refusal.place()];
            refusal.number()
        }
        Err(Failed::Memory) => NO_MEMORY,
    }
}

// Where a program is after so many ticks.
fn run(
    heap: Global,
    change: u64,
    top: u64,
    nodes: &[i64],
    most: u64,
    count: u64,
) -> Result<Place, Failed<Refusal>>
    ensures { Ran change top nodes.now (min most (2 ^ 60)) count result }
{
    let targets = load(heap, nodes, most)?;
    let mut control = Control::load(change, top, targets)?;
    Ok(travel(&mut control, count))
}

// Where a control is after so many ticks more, by adding up their pulses. The ticks that are left are counted, down to 1:
// a tick with no target left then takes eight instructions, and nine where the ticks made are counted up to `count`, or
// by `(0..count).rev()`.
fn travel(control: &mut Control, count: u64) -> Place
    ensures { result ≡ end_from control.old count }
{
    let mut end = control.place();
    for _ in (1..=count).rev() {
        end = onto(end, control.tick());
    }
    end
}

// A place after pulses more.
fn onto(place: Place, pulses: Pulses) -> Place
    requires { (Within 4000000000 place) × (Within 4000000000 (onto place pulses)) }
    ensures { result ≡ onto place pulses }
{
    Place {
        x: place.x + pulses.x,
        y: place.y + pulses.y,
    }
}
