// The records of nodes, one behind the other.
ghost use Rattle.std.specs.Prelude.{◌≡◌, ◌+◌, ◌<◌, ◌≤◌, length, set};
ghost use Rattle.drafts.specs.Writing.{Wrote};
ghost use Rattle.laying.specs.Page.{raised, bumped};
ghost use Rattle.laying.specs.Held.{node_bytes, stack_of, Below, pushed_draft, longer_draft, Somewhere, LaysWord};

use crate::owned::note;
use crate::{Draft, Kind, Word};
use drafts::writing::{put3, put4};
use known::Known;
use words::get;

fn raised(x: u8) -> u8
    ensures { result ≡ raised x }
{
    x.saturating_add(1)
}

// One more argument of the innermost symbol whose bracket is open.
fn bump(out: &mut [u8], opens: &[u16], depth: usize)
    requires { (depth ≤ length opens.now) × Below (stack_of opens.now depth) (length out.old) }
    ensures { out.new ≡ bumped out.old (stack_of opens.now depth) }
{
    if depth == 0 {
        return;
    }
    let p = get(opens, depth - 1);
    out[p] = raised(out[p]);
}

// The record of a node that has no argument yet; how many bytes it has.
fn put_node(out: &mut [u8], at: usize, kind: Kind, number: usize) -> usize
    requires { (at + 4 ≤ length out.old) × (number < 65536) }
    ensures { Wrote out.old out.new at (node_bytes kind number) × (result ≡ length (node_bytes kind number)) }
{
    match kind {
        Kind::Variable => {
            put3(out, at, 1, number);
            3
        }
        Kind::Constant => {
            put3(out, at, 2, number);
            3
        }
        Kind::Compound => {
            put4(out, at, 3, number);
            4
        }
        Kind::Predicate => {
            put4(out, at, 4, number);
            4
        }
    }
}

fn longer(d: Draft, n: usize) -> Draft
    requires { d.len + n ≤ 16384 }
    ensures { result ≡ longer_draft d n }
{
    Draft {
        len: d.len + n,
        ..d
    }
}

// A word, whatever brackets it has.
pub fn lay(
    table: &mut [u16],
    out: &mut [u8],
    opens: &[u16],
    g: Known,
    d: Draft,
    w: Word,
    n: usize,
) -> Draft
    requires { Somewhere table.old out.old opens.now g d w n }
    ensures { LaysWord table.old table.new out.old out.new opens.now g d w n result }
{
    bump(out, opens, d.depth);
    let kind = w.kind;
    let more = put_node(out, d.len, kind, n);
    longer(note(table, g, d, w, n), more)
}

// A bracket behind a name: where the arity of its symbol stands.
pub fn push(opens: &mut [u16], d: Draft, p: usize) -> Draft
    requires { (d.depth < length opens.old) × (length opens.old ≤ 65536) × (p < 65536) }
    ensures { (opens.new ≡ set opens.old d.depth p) × (result ≡ pushed_draft d) }
{
    let depth = d.depth;
    opens[depth] = p as u16;
    Draft {
        depth: depth + 1,
        ..d
    }
}
