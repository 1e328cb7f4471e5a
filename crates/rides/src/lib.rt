// Several steps of a run on the heap: from a row that is written to a row that is written. Each state in between is open, and its next goal and answer have room; where that is not sure, the ride
// ends, and goal and answer are written out.
#![tactic(auto)]

ghost use Rattle.std.specs.Prelude.{ℕ, ◌+◌, ◌≤◌, ◌≡◌, List, take};
ghost use Rattle.search.specs.Next.{Book, Goal};
ghost use Rattle.words.specs.Held.{BookOn};
ghost use Rattle.matching.specs.TrialLaws.{Free};
ghost use Rattle.states.specs.Visiting.{Visits};
ghost use Rattle.heapgoals.specs.Holding.{Holds};
ghost use Rattle.rides.specs.Riding.{Lent, Starts, StandingAt, Went, Rode, Something};

use crate::looking::{Along, look_ahead, onward};
use detector::Detector;
use heapgoals::writing::write_out;
use heapgoals::{Sides, Standing, clear, stand};
use states::Place;
use states::leftmost::{copy_words, keep};
use treads::take_step;
use words::OUT;
use words::rows::CELLS;

pub mod looking; // what is looked at before a step

// The state that a ride starts from, how many formulas its answer has, and the budget.
#[derive(Clone, Copy)]
pub struct Start {
    pub place: Place,
    pub answers: usize,
    pub budget: u32,
}

// The state that is come to; the first words of `out` are its goal, and those behind them its answer.
#[derive(Clone, Copy)]
pub struct Come {
    pub detector: Detector,
    pub words: usize,
    pub answer: usize,
    pub formulas: usize,
    pub kept: usize,
}

fn stand_at(words: &[u32], start: Start) -> Standing
    requires { (P : Book) × (q : Goal) × (saved : List ℕ) × Starts P q words.now saved start }
    ensures held { StandingAt words.now start result }
    ensures top { result.top ≡ start.place.words + start.place.answer }
{
    let place = start.place;
    let n = place.words + place.answer;
    stand(
        &words[0..n],
        Sides {
            words: place.words,
            first: place.front,
            formulas: place.formulas,
            answers: start.answers,
        },
    )
}

// The ride ends: where it has come further than the step `since`, goal and answer are written out. None where no state is come to.
fn finish(
    words: &[u32],
    cells: &mut [u16],
    levels: &mut [u16],
    rows: &mut [u16; CELLS],
    out: &mut [u32; OUT],
    s: Standing,
    x: Along,
    since: u32,
) -> Option<Come>
    requires { (since ≤ x.detector.step) × Something words.now cells.old levels.old s }
    ensures went { (P : Book) (q : Goal) (saved : List ℕ) (g a : Goal) → Visits P q x.budget saved x.detector x.kept g a → Holds words.now cells.old levels.old s g a → Went P q x.budget since saved out.new result }
    ensures free { Free cells.new }
{
    let detector = x.detector;
    if detector.step == since {
        clear(cells, 0, s.base);
        return None;
    }
    let written = write_out(words, cells, levels, rows, out, s);
    clear(cells, 0, s.base);
    let row = written?;
    Some(Come {
        detector,
        words: row.words,
        answer: row.answer,
        formulas: s.formulas,
        kept: x.kept,
    })
}

// From a row at the front of `words`, which stays there. Where no state is come to, the saved formula may be another one.
fn go_on(
    book: &[u32],
    shelf: &[u16],
    words: &mut [u32],
    cells: &mut [u16],
    rows: &mut [u16; CELLS],
    saved: &mut [u32],
    out: &mut [u32; OUT],
    start: Start,
) -> Option<Come>
    requires lent { Lent words.old cells.old rows.old saved.old out.old × Free cells.old }
    requires book_on { (P : Book) × (q : Goal) × BookOn book.now shelf.now P × Starts P q words.old saved.old start }
    ensures went { (P : Book) (q : Goal) → BookOn book.now shelf.now P → Starts P q words.old saved.old start → Went P q start.budget start.place.detector.step saved.new out.new result }
    ensures free { Free cells.new }
    ensures row { take (start.place.words + start.place.answer) words.new ≡ take (start.place.words + start.place.answer) words.old }
{
    let mut levels = [0u16; 1028];
    let mut stack = [0u16; 1411];
    let place = start.place;
    let detector = place.detector;
    let since = detector.step;
    let mut s = stand_at(words, start);
    let mut x = Along {
        detector,
        kept: place.kept,
        budget: start.budget,
    };
    loop {
        let Some(ahead) = look_ahead(words, cells, &mut levels, rows, saved, out, s, x) else {
            return finish(words, cells, &mut levels, rows, out, s, x, since);
        };
        let Some(next) = take_step(book, shelf, words, cells, rows, &mut levels, &mut stack, s)
        else {
            return finish(words, cells, &mut levels, rows, out, s, x, since);
        };
        let kept = keep(out, ahead.kept, saved, x.kept, ahead.due);
        x = onward(x, start.budget, kept, s.formulas as u32, ahead.due);
        s = next;
    }
}

// The row stands at the front of `words`, and the heap grows behind it. Meanwhile the saved formula stands at their end too, so that it is not lost where no state is come to.
pub fn ride(
    book: &[u32],
    shelf: &[u16],
    words: &mut [u32],
    cells: &mut [u16],
    rows: &mut [u16; CELLS],
    saved: &mut [u32],
    out: &mut [u32; OUT],
    start: Start,
) -> Option<Come>
    requires lent { Lent words.old cells.old rows.old saved.old out.old × Free cells.old }
    requires book_on { (P : Book) × (q : Goal) × BookOn book.now shelf.now P × Starts P q words.old saved.old start }
    ensures rode { (P : Book) (q : Goal) → BookOn book.now shelf.now P → Starts P q words.old saved.old start → Rode P q saved.old start saved.new out.new result }
    ensures free { Free cells.new }
    ensures row { take (start.place.words + start.place.answer) words.new ≡ take (start.place.words + start.place.answer) words.old }
{
    let place = start.place;
    let kept = place.kept;
    if words.len() - (place.words + place.answer) < kept {
        return None;
    }
    let end = words.len();
    let limit = end - kept;
    copy_words(saved, &mut words[limit..end], kept);
    let come = go_on(
        book,
        shelf,
        &mut words[0..limit],
        cells,
        rows,
        saved,
        out,
        start,
    );
    if come.is_none() {
        copy_words(&words[limit..end], saved, kept);
    }
    come
}
