// Formulas of a rule, and arguments of the innermost open symbol.
ghost use Rattle.std.specs.Prelude.{◌≡◌, List, ℕ, ◌-◌, ◌<◌, ◌≤◌, length, get_or};
ghost use Rattle.reading.specs.Part.{Part, State};
ghost use Rattle.reading.specs.Reader.{full};
ghost use Rattle.stages.specs.Stage.{Deep, root_count, raised, grown, is_complete, awaits, Held, Somewhere, code, limit_number};

use crate::{Mode, Stage};
use pieces::Code;
use words::get;

pub fn complete(m: Mode) -> bool
    ensures { result ≡ is_complete m }
{
    matches!(m, Mode::Complete)
}

// Whether a name may come.
pub fn awaits(m: Mode) -> bool
    ensures { result ≡ awaits m }
{
    matches!(m, Mode::Between | Mode::Expects)
}

// "arity or body out of range": no argument, and no formula, may be added.
fn full(counts: &[u16], depth: usize, formulas: usize) -> bool
    requires { depth ≤ length counts.now }
    ensures { (p : Part) → Deep counts.now p depth → formulas ≡ root_count p → result ≡ full p }
{
    if depth == 0 {
        return 17 <= formulas;
    }
    8 <= get(counts, depth - 1)
}

// The code of a name that would be one too many.
pub fn limit(counts: &[u16], c: Stage) -> Option<Code>
    requires { Somewhere counts.now c }
    ensures { (text vars : List ℕ) (s : State) → Held text counts.now vars c s → limit_number result ≡ code s }
{
    if full(counts, c.depth, c.formulas) {
        return Some(Code::Range);
    }
    if 256 <= c.nodes || 512 <= c.rules {
        return Some(Code::Size);
    }
    None
}

// One more formula, or one more argument of the innermost open symbol.
pub fn raise(counts: &mut [u16], depth: usize, formulas: usize) -> usize
    requires { (depth ≤ length counts.old) × (formulas < 65535) × ((depth ≡ 0 → ⊥) → get_or counts.old (depth - 1) 0 < 65535) }
    ensures { (counts.new ≡ raised depth counts.old) × (result ≡ grown depth formulas) }
{
    if depth == 0 {
        return formulas + 1;
    }
    counts[depth - 1] += 1;
    formulas
}
