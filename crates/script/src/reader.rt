// A script, line by line, and then its numbers.
ghost use Rattle.std.specs.Prelude.{◌≡◌, ◌+◌, ◌^◌, ◌<◌, None, Some, MatchResult};
ghost use Rattle.script.specs.Scripts.{reads, far, beyond, in_limits, unfit};
ghost use Rattle.script.specs.Words.{lines};
ghost use Rattle.script.specs.Refusals.{Answers, Behind, Reading, Said, told};

use crate::fault::{Expected, Fault, ScriptError, Wrong};
use crate::lines::Lines;
use crate::order::{machine, order};
use crate::script::{Machine, Order, Script};
use crate::words::Words;
use geometry::Place;
use refusal::Failed;
use std::alloc::Global;
use word::line_feeds;

// Reads a script whole, and checks its numbers.
pub fn read(heap: Global, text: &[u8]) -> Result<Script, Failed<ScriptError<'_>>>
    ensures script { Answers (reads text.now) result }
    ensures memory { Behind (lines text.now) result }
{
    let script = told(heap, text)?;
    check(&script)?;
    Ok(script)
}

// What a script says, whatever its numbers.
fn told(heap: Global, text: &[u8]) -> Result<Script, Failed<ScriptError<'_>>>
    ensures script { Reading (reads text.now) result }
    ensures memory { Behind (lines text.now) result }
{
    let mut script = None;
    for (line, now) in Lines::of(text).enumerate() {
        with_line(heap, &mut script, line as u64, now)?;
    }
    script.ok_or_else(|| {
        let wrong = Wrong {
            found: None,
            expected: Expected::Machine,
        };
        ScriptError::Text(line_feeds(text), wrong).into()
    })
}

// Puts one line more to a script: none as long as no line has had a word. A blank line leaves it where it is.
#[tactic(auto, unfolding(crate::specs::Scripts::script_from, crate::specs::Scripts::orders_from, crate::specs::Scripts::says_machine))]
fn with_line<'a>(
    heap: Global,
    script: &mut Option<Script>,
    line: u64,
    now: &'a [u8],
) -> Result<(), Failed<ScriptError<'a>>>
    ensures { Said line script.old now.now script.new result }
{
    let mut words = Words::of(now);
    let Some(key) = words.next() else {
        return Ok(());
    };
    match script {
        None => {
            let machine = machine(key, words).map_err(|wrong| ScriptError::Text(line, wrong))?;
            *script = Some(Script {
                machine,
                orders: Vec::new(heap),
            });
        }
        Some(script) => {
            let order = order(key, words).map_err(|wrong| ScriptError::Text(line, wrong))?;
            script.orders.push(order)?;
        }
    }
    Ok(())
}

// Whether every number is in its limits; or the first that is not.
#[tactic(auto, using(crate::proofs::Firsts::first_drop, crate::proofs::Firsts::first_end, std::proofs::lemmas::Grind::common_steps))]
fn check(script: &Script) -> Result<(), Fault>
    ensures { MatchResult result (λ _. unfit (told script.now) ≡ None) (λ f. unfit (told script.now) ≡ Some f) }
{
    let Machine { change, top } = script.machine;
    if !is_in_limits(change) {
        return Err(Fault::Change(change));
    }
    if !is_in_limits(top) {
        return Err(Fault::Top(top));
    }
    for order in &script.orders {
        near(*order)?;
    }
    for order in &script.orders {
        on_scale(*order)?;
    }
    Ok(())
}

fn is_in_limits(n: u64) -> bool
    ensures { result ≡ in_limits n }
{
    (1..=1_000_000).contains(&n)
}

// No target is too far.
fn near(order: Order) -> Result<(), Fault>
    ensures { MatchResult result (λ _. far order ≡ None) (λ f. far order ≡ Some f) }
{
    match order {
        Order::To(target) if !target.to.is_within(Place::REACH) => Err(Fault::Far(target.to)),
        _ => Ok(()),
    }
}

// No turn of the knob is beyond its scale.
fn on_scale(order: Order) -> Result<(), Fault>
    ensures { MatchResult result (λ _. beyond order ≡ None) (λ f. beyond order ≡ Some f) }
{
    match order {
        Order::Knob(n) if n > 1_000 => Err(Fault::Knob(n)),
        _ => Ok(()),
    }
}
