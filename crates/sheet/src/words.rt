// The kinds of lines. A line's word is what stands before its first comma, or the whole line where there is none.
ghost use Rattle.std.specs.Prelude.{◌≡◌};
ghost use Rattle.sheet.specs.Words.{kind_by_word, kind_shown, is_rest};

// A line by its kind, with the text after its word: empty, or from the first comma on.
#[derive(Clone, Copy)]
pub(crate) enum Line<'a> {
    Network(&'a [u8]),
    Leg(&'a [u8]),
    Plan(&'a [u8]),
}

// A word ends at the line's end or at a comma.
fn ends_word(rest: &[u8]) -> bool
    ensures { result ≡ is_rest rest.now }
{
    matches!(rest, [] | [b',', ..])
}

// The line's kind, with the text after its word, if its word is one of the three.
pub(crate) fn kind(line: &[u8]) -> Option<Line<'_>>
    ensures { kind_shown result ≡ kind_by_word line.now }
{
    match line {
        [b'n', b'e', b't', b'w', b'o', b'r', b'k', rest @ ..] if ends_word(rest) => Some(
            Line::Network(rest),
        ),
        [b'l', b'e', b'g', rest @ ..] if ends_word(rest) => Some(Line::Leg(rest)),
        [b'p', b'l', b'a', b'n', rest @ ..] if ends_word(rest) => Some(Line::Plan(rest)),
        _ => None,
    }
}
