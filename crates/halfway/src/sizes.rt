// What would be one too many, and names that are too long.
ghost use Rattle.std.specs.Prelude.{◌≡◌, ◌≤◌, ◌<◌, length};
ghost use Rattle.halfway.specs.Stage.{full_at, code_at, name_size, size_at, Passes};

use crate::Stage;
use pieces::{Code, Found, Refusal};
use words::get;

// The formula here would be the 513th, or the argument the 9th. The same of a rule (stages, counting) has another most and another contract, on the reader's states: one function for both would be no plainer.
fn full(counts: &[u16], depth: usize, outside: usize) -> bool
    requires { depth ≤ length counts.now }
    ensures { result ≡ full_at counts.now depth outside }
{
    if depth == 0 {
        return 512 <= outside;
    }
    8 <= get(counts, depth - 1)
}

// Whether there is room for one more name or variable.
fn word_size(counts: &[u16], c: Stage, at: usize) -> Result<(), Refusal>
    requires { c.depth ≤ length counts.now }
    ensures { Passes (code_at counts.now c) at result }
{
    if full(counts, c.depth, c.outside) {
        return Err(Refusal {
            code: Code::QueryRange,
            place: at,
        });
    }
    if 4096 <= c.words {
        return Err(Refusal {
            code: Code::QuerySize,
            place: at,
        });
    }
    Ok(())
}

// The same for a name that ends there: one that is too long is refused at its 33rd byte.
fn name_size(counts: &[u16], c: Stage, at: usize, end: usize) -> Result<(), Refusal>
    requires { (c.depth ≤ length counts.now) × (at < 65536) }
    ensures { Passes (name_size (code_at counts.now c) at end) at result }
{
    word_size(counts, c, at)?;
    if at + 32 < end {
        return Err(Refusal {
            code: Code::LongName,
            place: at + 32,
        });
    }
    Ok(())
}

// Whether the piece passes no size.
pub fn size(counts: &[u16], c: Stage, at: usize, found: Found) -> Result<(), Refusal>
    requires { (c.depth ≤ length counts.now) × (at < 65536) }
    ensures { Passes (size_at counts.now c at found) at result }
{
    match found {
        Found::Name(end) => name_size(counts, c, at, end),
        Found::Variable(_) => word_size(counts, c, at),
        _ => Ok(()),
    }
}
