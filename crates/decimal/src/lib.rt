// The lines that the programs print, as bytes: made in memory, so that millions of lines a second can be written out in
// large pieces.

#![tactic(auto)]

ghost use Rattle.std.specs.Prelude.{◌≡◌, ◌++◌, codes, decimal, OnOk};
ghost use Rattle.std.specs.Fmt.{signed_decimal};
ghost use Rattle.decimal.specs.Lines.{pulse_text, pulses_line, place_line, target_line};

use geometry::Place;
use itoa::Buffer;
use program::Target;
use pulses::Pulses;
use std::alloc::AllocError;

// The digits of a number: `write!` takes four times as long for a line. They are pushed one by one, since so few are
// copied no faster together. It stands apart, so that the numbers of one digit need no call.
#[inline(never)]
fn put_digits(out: &mut Vec<u8>, n: u64) -> Result<(), AllocError>
    ensures { OnOk result (out.new.items ≡ out.old.items ++ decimal n) }
{
    for digit in Buffer::new().format(n).as_bytes() {
        out.push(*digit)?;
    }
    Ok(())
}

// A number without a sign. Most pulses have one digit, which is pushed at once: the buffer that a longer number is
// formatted in would cost more than the digit.
#[tactic(auto, using(std::proofs::lemmas::Fmt::decimal_digit))]
fn put_size(out: &mut Vec<u8>, n: u64) -> Result<(), AllocError>
    ensures { OnOk result (out.new.items ≡ out.old.items ++ decimal n) }
{
    if n < 10 {
        out.push(b'0' + n as u8)?;
        return Ok(());
    }
    put_digits(out, n)
}

// A number, with its sign if it is below 0.
fn put_number(out: &mut Vec<u8>, n: i64) -> Result<(), AllocError>
    ensures { OnOk result (out.new.items ≡ out.old.items ++ signed_decimal n) }
{
    if n < 0 {
        out.push(b'-')?;
    }
    put_size(out, n.unsigned_abs())
}

// The pulses of an axis, with their sign; inlined, since two are put in each tick.
#[inline]
#[tactic(auto, using(crate::proofs::Signs::above, crate::proofs::Signs::not_above, std::proofs::lemmas::Grind::common_steps))]
fn put_pulse(out: &mut Vec<u8>, n: i64) -> Result<(), AllocError>
    ensures { OnOk result (out.new.items ≡ out.old.items ++ pulse_text n) }
{
    if n > 0 {
        out.push(b'+')?;
    }
    put_number(out, n)
}

// A line with a tick's pulses.
pub fn put_pulses(out: &mut Vec<u8>, pulses: Pulses) -> Result<(), AllocError>
    ensures { OnOk result (out.new.items ≡ out.old.items ++ pulses_line pulses) }
{
    put_pulse(out, pulses.x)?;
    out.push(b' ')?;
    put_pulse(out, pulses.y)?;
    out.push(b'\n')?;
    Ok(())
}

// A place: its axes with a space between.
fn put_axes(out: &mut Vec<u8>, place: Place) -> Result<(), AllocError>
    ensures { OnOk result (out.new.items ≡ out.old.items ++ (signed_decimal place.x ++ (codes " " ++ signed_decimal place.y))) }
{
    put_number(out, place.x)?;
    out.push(b' ')?;
    put_number(out, place.y)
}

// A line with a place.
pub fn put_place(out: &mut Vec<u8>, place: Place) -> Result<(), AllocError>
    ensures { OnOk result (out.new.items ≡ out.old.items ++ place_line place) }
{
    put_axes(out, place)?;
    out.push(b'\n')?;
    Ok(())
}

// A line with a target.
pub fn put_target(out: &mut Vec<u8>, target: Target) -> Result<(), AllocError>
    ensures { OnOk result (out.new.items ≡ out.old.items ++ target_line target) }
{
    out.extend_from_slice(b"to ")?;
    put_axes(out, target.to)?;
    out.extend_from_slice(b" fast ")?;
    put_size(out, target.fast)?;
    out.push(b'\n')?;
    Ok(())
}
