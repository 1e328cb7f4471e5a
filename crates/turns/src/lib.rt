// Whether a text is a query's (document 02, C-13): each piece taken, or refused.
#![tactic(auto)]

ghost use Rattle.std.specs.Prelude.{◌≡◌, ◌≤◌, ◌<◌, length, ltb};
ghost use Rattle.asking.specs.Asking.{asking};
ghost use Rattle.halfway.specs.Stage.{Held, is_half, numbered, turned, Left, ends_at, start_stage};
ghost use Rattle.turns.specs.Passing.{Ends, text_check};

use halfway::advancing::advance;
use halfway::modes::{after, may_end, wrong};
use halfway::sizes::size;
use halfway::{Mode, Stage};
use pieces::{Found, Refusal, end_of, piece_at, unexpected};

// A text that is a query's.
const ACCEPTED: u8 = 0;
// "the text has over 65,536 bytes"
const TOO_LONG: u8 = 40;

#[derive(Clone, Copy)]
pub struct TextCheck {
    pub code: u8,
    pub place: u32,
}

// A bracket is open.
fn deep(depth: usize) -> bool
    ensures { result ≡ ltb 0 depth }
{
    0 < depth
}

// A token that breaks off behind its first byte.
fn is_half(found: Found) -> bool
    ensures { result ≡ is_half found }
{
    matches!(found, Found::HalfArrow | Found::HalfStop)
}

// One piece of the text: the stage behind it, or its refusal.
pub fn turn(counts: &mut [u16], c: Stage, at: usize, found: Found) -> Result<Stage, Refusal>
    requires { Held counts.old c at × (at < 65536) }
    ensures { (numbered result ≡ turned counts.old c at found) × Left counts.old counts.new c found result }
{
    let mode = after(c.mode, deep(c.depth), found);
    if wrong(mode) {
        return Err(unexpected(at));
    }
    if is_half(found) {
        return Err(unexpected(at + 1));
    }
    size(counts, c, at, found)?;
    Ok(advance(counts, c, mode, found))
}

fn start() -> Stage
    ensures { result ≡ start_stage }
{
    Stage {
        mode: Mode::Begin,
        outside: 0,
        depth: 0,
        words: 0,
    }
}

// The end of the text.
fn end(c: Stage, at: usize) -> Result<(), Refusal>
    ensures { result ≡ ends_at c at }
{
    if may_end(c.mode, deep(c.depth)) {
        return Ok(());
    }
    Err(unexpected(at))
}

// A text of at most 65,536 bytes.
fn pass(text: &[u8], counts: &mut [u16]) -> Result<(), Refusal>
    requires { (length text.now ≤ 65536) × (length counts.old ≡ 4097) }
    ensures { Ends text.now result }
{
    let mut c = start();
    let mut at = 0;
    while at < text.len() {
        let found = piece_at(text, at);
        c = turn(counts, c, at, found)?;
        at = end_of(found, at);
    }
    end(c, at)
}

// Whether a text is a query's: its refusal, or 0. The numbers stay: docs/CONTRACTS.md and docs/FORMAT.md give what `check_text` answers by them.
pub fn check_text(text: &[u8]) -> TextCheck
    ensures { result ≡ text_check (asking text.now) }
{
    if 65536 < text.len() {
        return TextCheck {
            code: TOO_LONG,
            place: 0,
        };
    }
    let mut counts = [0u16; 4097];
    match pass(text, &mut counts) {
        Ok(()) => TextCheck {
            code: ACCEPTED,
            place: 0,
        },
        Err(refused) => TextCheck {
            code: u8::from(refused.code),
            place: refused.place as u32,
        },
    }
}
