// A whole run for programs in C and Rust, exported from a static library of its own: the function of its name in
// `ffi_run`, with its clause. No argument is passed for the heap.

#![tactic(auto)]

ghost use Rattle.std.specs.Prelude.{◌^◌, min};
ghost use Rattle.ffi_run.specs.Runs.{RunTold};

use std::alloc::Global;

// Loads a program that says at most so many targets, makes so many ticks, and writes the sum of all pulses into `moved`.
#[unsafe(no_mangle)]
pub extern "C" fn mill_run(
    heap: Global,
    change: u64,
    top: u64,
    nodes: &[i64],
    most: u64,
    count: u64,
    moved: &mut [i64; 2],
    at: &mut [u64; 1],
) -> u64
    ensures { RunTold change top nodes.now (min most (2 ^ 60)) count moved.old at.old result moved.new at.new }
{
    ffi_run::mill_run(heap, change, top, nodes, most, count, moved, at)
}
