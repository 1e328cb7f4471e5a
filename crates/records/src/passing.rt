// Nodes that are plainly right are passed over in one loop, with no record made of them and no state; most records of a book or a query are such.
// What is not plainly right is left where it is, for the tests of judging to decide: a fault, a node in the last bytes, a predicate number past the table.
ghost use Rattle.std.specs.Prelude.{◌≡◌, ◌<◌, get_or, IfSome, IfNone};
ghost use Rattle.format.specs.Reading.{node_limit};
ghost use Rattle.format.specs.declared.Form.{Form};
ghost use Rattle.format.specs.Arities.{Memory, recalled};
ghost use Rattle.records.specs.Passing.{standing, Passes, PassesBelow, Ready, Counted};

use crate::arities::same;
use crate::record::number_at;
use crate::state::{next_unused, node_limit, variable_limit};
use format::{Form, State};

// A place, and what of the state there a node changes.
#[derive(Clone, Copy)]
pub struct Open {
    pub at: usize,
    pub terms: usize,
    pub formulas: usize,
    pub nodes: usize,
    pub variables: usize,
}

pub fn opened(state: State, at: usize) -> Open
    ensures { (result.at ≡ at) × (standing result state.clauses state.closed ≡ state) }
{
    Open {
        at,
        terms: state.terms,
        formulas: state.formulas,
        nodes: state.nodes,
        variables: state.variables,
    }
}

// The state with what the nodes passed over made of it.
pub fn resumed(x: Open, state: State) -> State
    ensures { result ≡ standing x state.clauses state.closed }
{
    State {
        terms: x.terms,
        formulas: x.formulas,
        nodes: x.nodes,
        variables: x.variables,
        ..state
    }
}

fn pass_variable(bytes: &[u8], x: Open, most: usize) -> Option<Open>
    requires ready { Ready bytes.now x }
    requires terms_nonzero { 0 < x.terms }
    requires at_value { get_or bytes.now x.at 0 ≡ 1 }
    ensures passes { IfSome result (λ y. (m : Memory) → PassesBelow most bytes.now x m y m) }
    ensures later { IfSome result (λ y. x.at < y.at) }
{
    let v = usize::from(number_at(bytes, x.at + 1));
    if most <= v || x.variables < v {
        return None;
    }
    Some(Open {
        at: x.at + 3,
        terms: x.terms - 1,
        nodes: x.nodes + 1,
        variables: next_unused(x.variables, v),
        ..x
    })
}

fn pass_compound(bytes: &[u8], x: Open) -> Option<Open>
    requires ready { Ready bytes.now x }
    requires terms_nonzero { 0 < x.terms }
    requires at_value { get_or bytes.now x.at 0 ≡ 3 }
    ensures passes { IfSome result (λ y. (m : Memory) (form : Form) → x.nodes < node_limit form → Passes form bytes.now x m y m) }
    ensures later { IfSome result (λ y. x.at < y.at) }
{
    let arity = usize::from(bytes[x.at + 3]);
    if arity == 0 || 8 < arity {
        return None;
    }
    Some(Open {
        at: x.at + 4,
        terms: x.terms - 1 + arity,
        nodes: x.nodes + 1,
        ..x
    })
}

fn pass_term(bytes: &[u8], x: Open, most: usize) -> Option<Open>
    requires ready { Ready bytes.now x }
    requires terms_nonzero { 0 < x.terms }
    ensures passes { IfSome result (λ y. (m : Memory) → PassesBelow most bytes.now x m y m) }
    ensures later { IfSome result (λ y. x.at < y.at) }
{
    match bytes[x.at] {
        1 => pass_variable(bytes, x, most),
        2 => {
            Some(Open {
                at: x.at + 3,
                terms: x.terms - 1,
                nodes: x.nodes + 1,
                ..x
            })
        }
        3 => pass_compound(bytes, x),
        _ => None,
    }
}

fn pass_formula(bytes: &[u8], table: &mut [u8], x: Open) -> Option<Open>
    requires ready { Ready bytes.now x }
    requires terms_value { x.terms ≡ 0 }
    requires formulas_nonzero { 0 < x.formulas }
    ensures passes { IfSome result (λ y. (form : Form) → x.nodes < node_limit form → Passes form bytes.now x (recalled table.old) y (recalled table.new)) }
    ensures later { IfSome result (λ y. x.at < y.at) }
    ensures kept { IfNone result (table.new ≡ table.old) }
{
    let at = x.at;
    let arity = bytes[at + 3];
    if bytes[at] != 4 || 8 < arity {
        return None;
    }
    let p = usize::from(number_at(bytes, at + 1));
    if table.len() <= p || !same(table[p], arity) {
        return None;
    }
    table[p] = arity + 1;
    Some(Open {
        at: at + 4,
        terms: usize::from(arity),
        formulas: x.formulas - 1,
        nodes: x.nodes + 1,
        ..x
    })
}

// One node, or None where it is not plainly right.
fn pass_node(bytes: &[u8], table: &mut [u8], x: Open, most: usize) -> Option<Open>
    requires { Ready bytes.now x }
    ensures passes { IfSome result (λ y. PassesBelow most bytes.now x (recalled table.old) y (recalled table.new)) }
    ensures later { IfSome result (λ y. x.at < y.at) }
    ensures kept { IfNone result (table.new ≡ table.old) }
{
    if 0 < x.terms {
        return pass_term(bytes, x, most);
    }
    if 0 < x.formulas {
        return pass_formula(bytes, table, x);
    }
    None
}

pub fn pass_nodes(form: Form, bytes: &[u8], table: &mut [u8], from: Open) -> Open
    requires { Counted bytes.now from }
    ensures { Passes form bytes.now from (recalled table.old) result (recalled table.new) }
{
    let most = variable_limit(form);
    let limit = node_limit(form);
    // the last place that a node of four bytes may have, found once
    let Some(last) = bytes.len().checked_sub(4) else {
        return from;
    };
    let mut x = from;
    while x.nodes < limit && x.at <= last {
        let Some(y) = pass_node(bytes, table, x, most) else {
            return x;
        };
        x = y;
    }
    x
}
