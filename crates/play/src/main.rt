// Plays a script from standard input: after each tick its pulses are printed, and the place where it says `where`.

#![tactic(auto)]

use anyhow::bail;
use control::Control;
use decimal::put_place;
use message::Sentence;
use player::run;
use script::{Machine, Order, Script, read};
use std::io::{Read, Write};
use std::process::ExitCode;

fn main(rt: HostRuntime) -> anyhow::Result<ExitCode> {
    let mut text = Vec::new(rt.alloc());
    rt.stdin().read_to_end(&mut text)?;
    match read(rt.alloc(), &text) {
        Ok(script) => {
            play(&rt, &script)?;
            Ok(ExitCode::SUCCESS)
        }
        Err(error) => {
            eprintln!(rt; "{}", Sentence(error))?;
            Ok(ExitCode::FAILURE)
        }
    }
}

// Does each order of a script, which was checked whole.
fn play(rt: &HostRuntime, script: &Script) -> anyhow::Result<()> {
    let Machine { change, top } = script.machine;
    let Ok(mut control) = Control::load(change, top, Vec::new(rt.alloc())) else {
        bail!("the machine is unfit");
    };
    let mut out = Vec::new(rt.alloc());
    for order in &script.orders {
        match *order {
            Order::To(target) => {
                if control.add(target).is_err() {
                    bail!("the target was not added");
                }
            }
            Order::Tick(n) => ticks(rt, &mut control, n, &mut out)?,
            Order::Hold => control.hold(),
            Order::Go => control.go(),
            Order::Knob(percent) => control.knob(percent),
            Order::Where => put_place(&mut out, control.place())?,
        }
    }
    rt.stdout().write_all(&out)?;
    Ok(())
}

// So many ticks, written out in large pieces.
fn ticks(rt: &HostRuntime, control: &mut Control, n: u64, out: &mut Vec<u8>) -> anyhow::Result<()> {
    let mut left = run(control, n, out)?;
    while left > 0 {
        rt.stdout().write_all(out)?;
        out.clear();
        left = run(control, left, out)?;
    }
    Ok(())
}
