// How the bytes of a text make words.
//
// Words are the longest runs of bytes that are neither a gap (space, tab, CR, LF) nor a mark; each mark (`;` `{` `}`)
// is a word by itself. Any other byte belongs to a word.
ghost use Rattle.std.specs.Prelude.{◌≡◌, ◌≤◌, length};
ghost use Rattle.std.specs.List.{prefix_len};
ghost use Rattle.text.specs.Words.{kind, is_kind, word_len};

#[derive(Clone, Copy, PartialEq, Eq)]
pub enum Kind {
    Gap,
    Mark,
    Letter,
}

pub fn kind_of(b: u8) -> Kind
    ensures { result ≡ kind b }
{
    match b {
        b' ' | b'\t' | b'\r' | b'\n' => Kind::Gap,
        b';' | b'{' | b'}' => Kind::Mark,
        _ => Kind::Letter,
    }
}

// How many bytes of a kind a text begins with.
pub fn run_of(kind: Kind, text: &[u8]) -> usize
    ensures value { result ≡ prefix_len (is_kind kind) text.now }
    ensures within { result ≤ length text.now }
{
    text.iter().take_while(|b| kind_of(**b) == kind).count()
}

// How long the word is that a text begins with: 0 where it begins with none.
pub fn word_len(text: &[u8]) -> usize
    ensures value { result ≡ word_len text.now }
    ensures within { result ≤ length text.now }
{
    match text {
        [] => 0,
        [b, rest @ ..] => match kind_of(*b) {
            Kind::Gap => 0,
            Kind::Mark => 1,
            Kind::Letter => 1 + run_of(Kind::Letter, rest),
        },
    }
}
