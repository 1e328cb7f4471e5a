// Parts of texts: words, lines, and terms as they are printed.
ghost use Rattle.std.specs.Prelude.{◌≡◌, ◌+◌, length};

// A byte of a name or a variable.
pub(crate) fn in_word(b: u8) -> bool {
    b.is_ascii_alphanumeric() || b == b'_'
}

// What stands before a text's first byte of a kind, and the rest from it on.
fn split_before<F: FnMut(&u8) -> bool>(text: &[u8], is_kind: F) -> (&[u8], &[u8])
    requires { (f : F) (b : _) → F.pre f b }
    ensures { length result.0.now + length result.1.now ≡ length text.now }
{
    let end = text.iter().position(is_kind);
    text.split_at(end.unwrap_or(text.len()))
}

// A word at a text's beginning, and what is behind it.
pub(crate) fn split_word(text: &[u8]) -> (&[u8], &[u8])
    ensures { length result.0.now + length result.1.now ≡ length text.now }
{
    split_before(text, |b| !in_word(*b))
}

// A line at a text's beginning, and its end with what is behind it.
pub(crate) fn split_line(text: &[u8]) -> (&[u8], &[u8])
    ensures { length result.0.now + length result.1.now ≡ length text.now }
{
    split_before(text, |b| *b == b'\n')
}

// The line that a text ends in.
pub(crate) fn last_line(text: &[u8]) -> &[u8] {
    text.rsplit(|b| *b == b'\n').next().unwrap_or(text)
}

// Brackets that are open behind a byte, of those open before it.
fn depth_behind(depth: usize, b: u8) -> usize {
    match b {
        b'(' => depth.saturating_add(1),
        b')' => depth.saturating_sub(1),
        _ => depth,
    }
}

// Brackets that are open at a text's end.
pub(crate) fn open_brackets(text: &[u8]) -> usize {
    text.iter().fold(0, |depth, b| depth_behind(depth, *b))
}

// A term or a formula at a text's beginning, and what is behind it: a comma, the bracket round it, or nothing.
pub(crate) fn split_term(text: &[u8]) -> (&[u8], &[u8]) {
    let mut depth = 0;
    for (at, b) in text.iter().enumerate() {
        if depth == 0 && matches!(*b, b',' | b')') {
            return text.split_at(at);
        }
        depth = depth_behind(depth, *b);
    }
    text.split_at(text.len())
}

// How many arguments stand in the brackets of a formula, none where it has no brackets.
pub(crate) fn arguments(formula: &[u8]) -> usize {
    if !formula.contains(&b'(') {
        return 0;
    }
    let mut depth = 0;
    let mut count = 1usize;
    for b in formula {
        if depth == 1 && *b == b',' {
            count = count.saturating_add(1);
        }
        depth = depth_behind(depth, *b);
    }
    count
}
