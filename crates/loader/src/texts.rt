// The whole way from a text to its targets.
ghost use Rattle.std.specs.Prelude.{◌^◌, min};
ghost use Rattle.loader.specs.Texts.{Says};
ghost use Rattle.text.specs.Reading.{read as read_text};

use crate::failure::Failure;
use program::{Target, load};
use refusal::Failed;
use std::alloc::Global;
use text::read;

// The targets that a text says, where there are no more than `most`.
pub fn targets(heap: Global, text: &[u8], most: u64) -> Result<Vec<Target>, Failure>
    ensures { Says (read_text text.now) (min most (2 ^ 60)) result }
{
    let nodes = read(heap, text)?;
    load(heap, &nodes, most).map_err(|failed| match failed {
        Failed::Refused(refusal) => Failure::Refused(refusal, nodes),
        Failed::Memory => Failure::Memory,
    })
}
