// What the words of a line say: the machine, or an order.
ghost use Rattle.script.specs.Orders.{Reads, target_of, order_of, machine_of};

use crate::fault::{Expected, Wrong};
use crate::script::{Machine, Order};
use crate::words::Words;
use count::count;
use geometry::Place;
use program::Target;

// What stands behind `to`.
fn target<'a>(mut rest: Words<'a>) -> Result<Target, Wrong<'a>>
    ensures { Reads (target_of rest.entry) result }
{
    let x = rest.number()?;
    let y = rest.number()?;
    let fast = rest.speed()?;
    Ok(Target {
        to: Place { x, y },
        fast: count(fast),
    })
}

// The order of a line whose first word is `key`.
pub fn order<'a>(key: &'a [u8], rest: Words<'a>) -> Result<Order, Wrong<'a>>
    ensures { Reads (order_of key.now rest.entry) result }
{
    match key {
        b"to" => Ok(Order::To(target(rest)?)),
        b"tick" => Ok(Order::Tick(count(rest.last_number()?))),
        b"knob" => Ok(Order::Knob(count(rest.last_number()?))),
        b"hold" => rest.ended(Order::Hold),
        b"go" => rest.ended(Order::Go),
        b"where" => rest.ended(Order::Where),
        _ => Err(Wrong {
            found: Some(key),
            expected: Expected::Order,
        }),
    }
}

// The machine of a line whose first word is `key`.
pub fn machine<'a>(key: &'a [u8], mut rest: Words<'a>) -> Result<Machine, Wrong<'a>>
    ensures { Reads (machine_of key.now rest.entry) result }
{
    if key != b"machine".as_slice() {
        return Err(Wrong {
            found: Some(key),
            expected: Expected::Machine,
        });
    }
    let change = count(rest.number()?);
    let top = count(rest.last_number()?);
    Ok(Machine { change, top })
}
