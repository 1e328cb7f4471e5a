// The piece at a place of a text: a token, a blank or a comment, and where it ends (document 02, C-13).
#![tactic(auto)]

ghost use Rattle.std.specs.Prelude.{◌≡◌, ◌<◌, ◌≤◌, length, drop, take_while};
ghost use Rattle.grammar.specs.Byte.{small, capital, digit, goes_on, starts_variable, is_blank};
ghost use Rattle.grammar.specs.Token.{after_stop};
ghost use Rattle.grammar.specs.Front.{class, in_comment};
ghost use Rattle.pieces.specs.Found.{class_of, end_of, Ends, stop_found, arrow_found, Shows};
ghost use Rattle.pieces.specs.Refusal.{number, refusal};
ghost use Rattle.pieces.specs.declared.Code.TheVariants.{Unexpected};

// What a byte begins.
#[derive(Clone, Copy)]
pub enum Class {
    Bracket,
    Small,
    Capital,
    Blank,
    Percent,
    Closing,
    Comma,
    Stop,
    Colon,
    Other,
}

// A piece, with its end where it is longer than its sign; a token that breaks off behind its first byte; or nothing.
#[derive(Clone, Copy)]
pub enum Found {
    Name(usize),
    Variable(usize),
    Space,
    Comment(usize),
    Opening,
    Closing,
    Comma,
    Arrow,
    Stop,
    HalfArrow,
    HalfStop,
    Nothing,
}

// Why a text is refused.
#[derive(Clone, Copy)]
pub enum Code {
    Range, // "arity or body out of range"
    Size, // too many nodes, variables or rules
    QueryRange, // an argument or a formula of a query that is one too many
    QuerySize, // too many nodes of a query
    Unexpected, // "an unexpected byte"
    LongName, // "a name has over 32 bytes"
}

// The number of a code in the tables of docs/FORMAT.md.
impl From<Code> for u8 {
    ghost from_gives = { λ code n. n ≡ number code };

    fn from(code: Code) -> u8 {
        match code {
            Code::Range => 4,
            Code::Size => 5,
            Code::QueryRange => 14,
            Code::QuerySize => 15,
            Code::Unexpected => 41,
            Code::LongName => 42,
        }
    }
}

// A refusal of a text, with its place.
#[derive(Clone, Copy)]
pub struct Refusal {
    pub code: Code,
    pub place: usize,
}

// The byte at the place is one with which the text cannot go on.
pub fn unexpected(place: usize) -> Refusal
    ensures { result ≡ refusal Unexpected place }
{
    Refusal {
        code: Code::Unexpected,
        place,
    }
}

// "a small ASCII letter"
#[tactic(auto, unfolding(grammar::specs::Byte::small))]
pub fn small(b: u8) -> bool
    ensures { result ≡ small b }
{
    matches!(b, b'a'..=b'z')
}

#[tactic(auto, unfolding(grammar::specs::Byte::capital))]
fn capital(b: u8) -> bool
    ensures { result ≡ capital b }
{
    matches!(b, b'A'..=b'Z')
}

#[tactic(auto, unfolding(grammar::specs::Byte::digit))]
fn digit(b: u8) -> bool
    ensures { result ≡ digit b }
{
    matches!(b, b'0'..=b'9')
}

// "then letters, digits or underscores"
#[tactic(auto, unfolding(grammar::specs::Byte::goes_on))]
pub fn goes_on(b: u8) -> bool
    ensures { result ≡ goes_on b }
{
    small(b) || capital(b) || digit(b) || b == b'_'
}

// "a variable starts with a capital or an underscore"
#[tactic(auto, unfolding(grammar::specs::Byte::starts_variable))]
fn starts_variable(b: u8) -> bool
    ensures { result ≡ starts_variable b }
{
    capital(b) || b == b'_'
}

// "a blank (space, tab, LF or CR)"
#[tactic(auto, unfolding(grammar::specs::Byte::is_blank))]
fn is_blank(b: u8) -> bool
    ensures { result ≡ is_blank b }
{
    matches!(b, b' ' | b'\t' | b'\n' | b'\r')
}

// "after which stands a blank", where a comment counts as one
#[tactic(auto, unfolding(grammar::specs::Token::after_stop, grammar::specs::Byte::is_percent))]
fn after_stop(b: u8) -> bool
    ensures { result ≡ after_stop b }
{
    is_blank(b) || b == b'%'
}

// What a byte begins.
#[tactic(auto, unfolding(grammar::specs::Front::class, grammar::specs::Byte::is_bracket, grammar::specs::Byte::small, grammar::specs::Byte::starts_variable, grammar::specs::Byte::capital, grammar::specs::Byte::is_blank, grammar::specs::Byte::is_percent))]
fn class_of(b: u8) -> Class
    ensures { class_of result ≡ class b }
{
    match b {
        b'(' => Class::Bracket,
        _ if small(b) => Class::Small,
        _ if starts_variable(b) => Class::Capital,
        _ if is_blank(b) => Class::Blank,
        b'%' => Class::Percent,
        b')' => Class::Closing,
        b',' => Class::Comma,
        b'.' => Class::Stop,
        b':' => Class::Colon,
        _ => Class::Other,
    }
}

// How many bytes at the front are letters, digits or underscores.
fn word_length(rest: &[u8]) -> usize
    ensures { result ≡ length (take_while goes_on rest.now) }
{
    rest.iter().take_while(|b| goes_on(**b)).count()
}

// Where a name or a variable ends whose bytes from here on are letters, digits or underscores.
fn word_end(text: &[u8], at: usize) -> usize
    requires { at ≤ length text.now }
    ensures { Ends goes_on text.now at result }
{
    at + word_length(&text[at..])
}

// How many bytes there are before LF, or before the end.
#[tactic(auto, unfolding(grammar::specs::Byte::is_line_end))]
fn comment_length(rest: &[u8]) -> usize
    ensures { result ≡ length (take_while in_comment rest.now) }
{
    rest.iter().take_while(|b| **b != b'\n').count()
}

// Where a comment ends: before LF, or at the text's end.
fn comment_end(text: &[u8], at: usize) -> usize
    requires { at ≤ length text.now }
    ensures { Ends in_comment text.now at result }
{
    at + comment_length(&text[at..])
}

// Behind the full stop.
fn stop_at(text: &[u8], at: usize) -> Found
    requires { at ≤ length text.now }
    ensures { result ≡ stop_found (drop at text.now) }
{
    match text.get(at) {
        Some(b) if !after_stop(*b) => Found::HalfStop,
        _ => Found::Stop,
    }
}

// Behind the colon.
fn arrow_at(text: &[u8], at: usize) -> Found
    requires { at ≤ length text.now }
    ensures { result ≡ arrow_found (drop at text.now) }
{
    match text.get(at) {
        Some(b'-') => Found::Arrow,
        _ => Found::HalfArrow,
    }
}

pub fn piece_at(text: &[u8], at: usize) -> Found
    requires { at < length text.now }
    ensures { Shows text.now at result }
{
    let b = text[at];
    let next = at + 1;
    match class_of(b) {
        Class::Bracket => Found::Opening,
        Class::Small => Found::Name(word_end(text, next)),
        Class::Capital => Found::Variable(word_end(text, next)),
        Class::Blank => Found::Space,
        Class::Percent => Found::Comment(comment_end(text, next)),
        Class::Closing => Found::Closing,
        Class::Comma => Found::Comma,
        Class::Stop => stop_at(text, next),
        Class::Colon => arrow_at(text, next),
        Class::Other => Found::Nothing,
    }
}

// Where a piece ends.
pub fn end_of(found: Found, at: usize) -> usize
    requires { at < 65536 }
    ensures { result ≡ end_of at found }
{
    match found {
        Found::Name(end) | Found::Variable(end) | Found::Comment(end) => end,
        Found::Arrow => at + 2,
        _ => at + 1,
    }
}
