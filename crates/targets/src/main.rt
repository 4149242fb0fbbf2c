// Prints the targets that a part program says: its text is read from standard input.

#![tactic(auto)]

use decimal::put_target;
use loader::{Failure, targets};
use message::ProgramSentence;
use program::Target;
use refusal::Refusal;
use std::io::{Read, Write};
use std::process::ExitCode;
use text_message::TextSentence;

// How many targets there is room for.
const MOST: u64 = 1 << 24;

// How many bytes are put before they are written out.
const FULL: usize = 65_536;

fn main(rt: HostRuntime) -> anyhow::Result<ExitCode> {
    let mut text = Vec::new(rt.alloc());
    rt.stdin().read_to_end(&mut text)?;
    match targets(rt.alloc(), &text, MOST) {
        Ok(targets) => {
            print(&rt, &targets)?;
            Ok(ExitCode::SUCCESS)
        }
        Err(failure) => {
            tell(&rt, &text, &failure)?;
            Ok(ExitCode::FAILURE)
        }
    }
}

// A line for each target, written out in large pieces.
fn print(rt: &HostRuntime, targets: &[Target]) -> anyhow::Result<()> {
    let mut out = Vec::new(rt.alloc());
    for target in targets {
        put_target(&mut out, *target)?;
        if out.len() >= FULL {
            rt.stdout().write_all(&out)?;
            out.clear();
        }
    }
    rt.stdout().write_all(&out)?;
    Ok(())
}

// Why there are none, in words.
fn tell(rt: &HostRuntime, text: &[u8], failure: &Failure) -> anyhow::Result<()> {
    match failure {
        Failure::Unreadable(unreadable) => {
            let refusal = Refusal::from(*unreadable);
            let sentence = TextSentence {
                text,
                fault: *unreadable,
            };
            eprintln!(rt; "refused {refusal}: {sentence}")?;
        }
        Failure::Refused(refusal, numbers) => {
            eprintln!(rt; "{}", ProgramSentence(*refusal, found(*refusal, numbers)))?;
        }
        Failure::Memory => eprintln!(rt; "there is not enough memory for the program")?,
    }
    Ok(())
}

// The number that a refusal is about.
fn found(refusal: Refusal, numbers: &[i64]) -> Option<i64> {
    match refusal {
        Refusal::Number(place) => numbers.get(place as usize).copied(),
        _ => None,
    }
}
