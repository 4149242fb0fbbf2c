// A number that counts: a kind, a name, a speed, how many. It is lent as any number, and one below 0 counts as 0. One
// rule for programs, texts, lent memory and scripts.

#![tactic(auto)]

ghost use Rattle.std.specs.Prelude.{◌≡◌};
ghost use Rattle.count.specs.Counts.{size};

pub fn count(z: i64) -> u64
    ensures { result ≡ size z }
{
    u64::try_from(z).unwrap_or(0)
}
