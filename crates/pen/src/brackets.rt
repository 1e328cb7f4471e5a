// What is owed stands on a stack, the innermost symbol that is open at its top: the arguments still to come.
ghost use Rattle.std.specs.Prelude.{◌≡◌, List, drop};
ghost use Rattle.printouts.specs.Walk.{begun, deeper};
ghost use Rattle.printouts.specs.Laying.{Lays};
ghost use Rattle.pen.specs.Parts.{comma, full, Room, Closed, Ended};

use crate::Pen;
use crate::laying::put;

// One of the arguments that are owed begins.
pub fn begin(stack: &mut [u8], top: usize)
    requires { Room stack.old top }
    ensures { (drop top stack.new ≡ begun (drop top stack.old)) × Room stack.new top }
{
    if top < stack.len() {
        if 0 < stack[top] {
            stack[top] -= 1;
        }
    }
}

// A symbol with arguments.
pub fn deepen(stack: &mut [u8], top: usize, n: u8) -> usize
    requires { Room stack.old top }
    ensures { (drop result stack.new ≡ deeper n (drop top stack.old)) × Room stack.new result }
{
    if top == 0 {
        return 0;
    }
    stack[top - 1] = n;
    top - 1
}

// Whether a symbol that is open has all its arguments.
fn is_full(stack: &[u8], top: usize) -> bool
    ensures { result ≡ full (drop top stack.now) }
{
    top < stack.len() && stack[top] == 0
}

// The symbols close that have all their arguments, the innermost first.
fn close(area: &mut [u8], stack: &[u8], pen: Pen) -> Pen
    requires { Room stack.now pen.top }
    ensures { Closed area.old area.new stack.now pen result }
{
    let mut end = pen.at;
    for i in pen.top..stack.len() {
        if !is_full(stack, i) {
            return Pen {
                at: end,
                top: i,
                ..pen
            };
        }
        end = put(area, end, b')');
    }
    Pen {
        at: end,
        top: stack.len(),
        ..pen
    }
}

fn put_comma(area: &mut [u8], at: usize, stack: &[u8], top: usize) -> usize
    requires { Room stack.now top }
    ensures { Lays area.old area.new at result (comma (drop top stack.now)) }
{
    if top < stack.len() {
        return put(area, at, b',');
    }
    at
}

// A term ends: brackets close round it, and a comma stands before the next one.
pub fn end_term(area: &mut [u8], stack: &mut [u8], pen: Pen) -> Pen
    requires { Room stack.old pen.top }
    ensures { Ended area.old area.new stack.old stack.new pen result }
{
    begin(stack, pen.top);
    let closed = close(area, stack, pen);
    let end = put_comma(area, closed.at, stack, closed.top);
    Pen { at: end, ..closed }
}
