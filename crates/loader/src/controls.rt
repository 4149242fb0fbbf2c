// Controls loaded with what a program says.
ghost use Rattle.std.specs.Prelude.{◌^◌, min};
ghost use Rattle.loader.specs.Texts.{LoadsNodes, LoadsText};
ghost use Rattle.text.specs.Reading.{read as read_text};

use crate::failure::Failure;
use crate::texts::targets;
use control::Control;
use program::load;
use refusal::{Failed, Refusal};
use std::alloc::Global;

// A control loaded with a program in numbers, where it says no more than `most` targets.
pub fn load_nodes(
    heap: Global,
    change: u64,
    top: u64,
    nodes: &[i64],
    most: u64,
) -> Result<Control, Failed<Refusal>>
    ensures { LoadsNodes nodes.now (min most (2 ^ 60)) change top result }
{
    let targets = load(heap, nodes, most)?;
    Ok(Control::load(change, top, targets)?)
}

// A control loaded with a program's text.
pub fn load_text(
    heap: Global,
    change: u64,
    top: u64,
    text: &[u8],
    most: u64,
) -> Result<Control, Failure>
    ensures { LoadsText (read_text text.now) (min most (2 ^ 60)) change top result }
{
    let targets = targets(heap, text, most)?;
    Control::load(change, top, targets).map_err(|refusal| Failure::Refused(refusal, Vec::new(heap)))
}
