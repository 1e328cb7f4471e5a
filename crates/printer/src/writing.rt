// What each record adds to the text.
ghost use Rattle.std.specs.Prelude.{◌≡◌, List, ◌<◌};
ghost use Rattle.format.specs.declared.Record.TheVariants.{Variable, Constant, Compound, Formula};
ghost use Rattle.printing.specs.Named.{Naming};
ghost use Rattle.namelist.specs.List.{Entry, naming};
ghost use Rattle.namelist.specs.ListLaws.{Stands};
ghost use Rattle.printouts.specs.Walk.{ending};
ghost use Rattle.printouts.specs.Laying.{Lays};
ghost use Rattle.pen.specs.Parts.{Room};
ghost use Rattle.printer.specs.Parts.{Wrote};

use format::Record;
use namelist::Sort;
use pen::Pen;
use pen::brackets::{begin, deepen, end_term};
use pen::laying::{put, put_symbol, put_variable};
use pen::signs::{next_turn, put_ending, put_sign};
use printouts::Turn;

fn write_variable(area: &mut [u8], stack: &mut [u8], pen: Pen, v: usize) -> Pen
    requires { Room stack.old pen.top × (v < 65536) }
    ensures { (name : Naming) → Wrote name area.old area.new stack.old stack.new pen result (Variable v) }
{
    let end = put_variable(area, pen.at, v);
    end_term(area, stack, Pen { at: end, ..pen })
}

fn write_constant(area: &mut [u8], names: &[u8], stack: &mut [u8], pen: Pen, c: usize) -> Pen
    requires stands { (l : List Entry) × Stands names.now 0 l }
    requires room { Room stack.old pen.top }
    ensures { (l : List Entry) → Stands names.now 0 l → Wrote (naming l) area.old area.new stack.old stack.new pen result (Constant c) }
{
    let end = put_symbol(area, pen.at, names, Sort::Constant, c);
    end_term(area, stack, Pen { at: end, ..pen })
}

fn write_compound(area: &mut [u8], names: &[u8], stack: &mut [u8], pen: Pen, f: usize, n: u8) -> Pen
    requires stands { (l : List Entry) × Stands names.now 0 l }
    requires room { Room stack.old pen.top }
    ensures { (l : List Entry) → Stands names.now 0 l → Wrote (naming l) area.old area.new stack.old stack.new pen result (Compound f n) }
{
    let name = put_symbol(area, pen.at, names, Sort::Compound, f);
    let end = put(area, name, b'(');
    begin(stack, pen.top);
    let top = deepen(stack, pen.top, n);
    Pen {
        at: end,
        top,
        ..pen
    }
}

fn write_formula(area: &mut [u8], names: &[u8], stack: &mut [u8], pen: Pen, p: usize, n: u8) -> Pen
    requires stands { (l : List Entry) × Stands names.now 0 l }
    requires room { Room stack.old pen.top }
    ensures { (l : List Entry) → Stands names.now 0 l → Wrote (naming l) area.old area.new stack.old stack.new pen result (Formula p n) }
{
    let sign = put_sign(area, pen.at, pen.turn);
    let name = put_symbol(area, sign, names, Sort::Predicate, p);
    let turn = next_turn(pen.turn);
    if n == 0 {
        return Pen {
            at: name,
            top: 4096,
            turn,
        };
    }
    let end = put(area, name, b'(');
    let top = deepen(stack, 4096, n);
    Pen { at: end, top, turn }
}

// A clause, or the end of the book: the clause before it ends.
fn write_ending(area: &mut [u8], pen: Pen, turn: Turn) -> Pen
    ensures { Lays area.old area.new pen.at result.at (ending pen.turn) × (result.top ≡ 4096) × (result.turn ≡ turn) }
{
    let end = put_ending(area, pen.at, pen.turn);
    Pen {
        at: end,
        top: 4096,
        turn,
    }
}

pub fn put_record(area: &mut [u8], names: &[u8], stack: &mut [u8], pen: Pen, item: Record) -> Pen
    requires stands { (l : List Entry) × Stands names.now 0 l }
    requires room { Room stack.old pen.top }
    ensures { (l : List Entry) → Stands names.now 0 l → Wrote (naming l) area.old area.new stack.old stack.new pen result item }
{
    match item {
        Record::Variable(v) => write_variable(area, stack, pen, usize::from(v)),
        Record::Constant(c) => write_constant(area, names, stack, pen, usize::from(c)),
        Record::Compound(f, n) => write_compound(area, names, stack, pen, usize::from(f), n),
        Record::Formula(p, n) => write_formula(area, names, stack, pen, usize::from(p), n),
        Record::Clause(_) => write_ending(area, pen, Turn::Head),
        Record::Goal(_) => Pen {
            top: 4096,
            turn: Turn::Goal,
            ..pen
        },
        Record::End => write_ending(area, pen, Turn::Start),
    }
}
