// What a target is written into: numbers, three for each; targets; or nothing at all.
ghost use Rattle.std.specs.Prelude.{◌≡◌, ℕ, ◌+◌, ◌*◌, ◌≤◌, List, [], ◌∷◌, length};
ghost use Rattle.program.specs.Rooms.{over, in_numbers};
ghost use Rattle.program.specs.declared.target.Target.{Target};
ghost use Rattle.std.proofs.Common.{rules};

use super::target::Target;

pub trait Slot: Sized + Drop {
    // How many hold a target, and which these are.
    ghost width: { ℕ };

    ghost slots: { Target → List Self };

    // Writes the target behind so many others.
    fn store(room: &mut [Self], behind: u64, target: Target)
        requires fits { width * (behind + 1) ≤ length room.old }
        requires slow { target.fast ≤ 1000000 }
        ensures { room.new ≡ over room.old (width * behind) (slots target) };

    ghost sized: { (t : Target) → length (slots t) ≡ width };
}

impl Slot for i64 {
    ghost width = { 3 };

    ghost slots = { in_numbers };

    ghost sized = { Prim.search rules };

    // No `From` for the three numbers: it would need an answer for a speed past an i64, and no target here has one.
    fn store(room: &mut [i64], behind: u64, target: Target) {
        let start = 3 * behind as usize;
        room[start..start + 3].copy_from_slice(&[target.to.x, target.to.y, target.fast as i64]);
    }
}

impl Slot for Target {
    ghost width = { 1 };

    ghost slots = { λ t. t ∷ [] };

    ghost sized = { Prim.search rules };

    fn store(room: &mut [Target], behind: u64, target: Target) {
        room[behind as usize] = target;
    }
}

// Where a target is only looked at.
#[derive(Drop)]
pub struct Unkept;

impl Slot for Unkept {
    ghost width = { 0 };

    ghost slots = { λ _. [] };

    ghost sized = { Prim.search rules };

    fn store(_room: &mut [Unkept], _behind: u64, _target: Target) {}
}
