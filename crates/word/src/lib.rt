// What the readers of texts and of scripts share: the number that a word writes, and the line feeds of a text. It knows
// nothing of what a text means, or of how words stand apart in it.

#![tactic(auto)]

ghost use Rattle.std.specs.Prelude.{◌≡◌};
ghost use Rattle.word.specs.Lines.{feeds};
ghost use Rattle.word.specs.Numbers.{number_of, magnitude, up, down};

// How many line feeds there are.
pub fn line_feeds(bytes: &[u8]) -> u64
    ensures { result ≡ feeds bytes.now }
{
    bytes.iter().map(|b| u64::from(*b == b'\n')).sum()
}

// A number is digits, with at most one `-` before them. However long, it is cut to the ends of i64.
pub fn number(word: &[u8]) -> Option<i64>
    ensures { result ≡ number_of word.now }
{
    match word {
        [b'-', digits @ ..] => unsigned(digits).map(negated),
        digits => unsigned(digits).map(cut),
    }
}

// The number that digits write, cut to the largest u64; nothing else is a number.
fn unsigned(digits: &[u8]) -> Option<u64>
    ensures { result ≡ magnitude digits.now }
{
    if digits.is_empty() {
        return None;
    }
    let mut n: u64 = 0;
    for d in digits {
        if !d.is_ascii_digit() {
            return None;
        }
        n = n.saturating_mul(10).saturating_add(u64::from(*d - b'0'));
    }
    Some(n)
}

fn cut(n: u64) -> i64
    ensures { result ≡ up n }
{
    i64::try_from(n).unwrap_or(i64::MAX)
}

fn negated(n: u64) -> i64
    ensures { result ≡ down n }
{
    i64::try_from(n).map_or(i64::MIN, |n| -n)
}
