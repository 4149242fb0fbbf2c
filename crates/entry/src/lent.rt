// Lent targets, of three numbers each.
ghost use Rattle.std.specs.Prelude.{◌≡◌, map, slice_get};
ghost use Rattle.control.specs.Controls.{near};
ghost use Rattle.entry.specs.Entries.{Checked, targets_checks, targets_in};
ghost use Rattle.program.specs.Targets.{target_in};

use program::Target;
use refusal::{LentPart, Refusal};

// The targets that numbers say, three each and none of them too far.
pub fn targets_in(numbers: &[i64]) -> Result<&[[i64; 3]], Refusal>
    ensures { Checked (targets_checks numbers.now) result (λ targets. map target_in targets.now ≡ targets_in numbers.now) }
{
    let (targets, []) = numbers.as_chunks() else {
        return Err(Refusal::Lent(LentPart::Targets));
    };
    if !all_near(targets) {
        return Err(Refusal::Lent(LentPart::Place));
    }
    Ok(targets)
}

// Whether no target is past 10^9 on an axis.
fn all_near(targets: &[[i64; 3]]) -> bool
    ensures { result ≡ near (map target_in targets.now) }
{
    targets
        .iter()
        .copied()
        .map(Target::from)
        .all(Target::is_near)
}

// The target at a place of the list, if there is one.
pub fn target_at(targets: &[[i64; 3]], i: usize) -> Option<Target>
    ensures { result ≡ slice_get (map target_in targets.now) i }
{
    targets.get(i).copied().map(Target::from)
}
