// The state after an open one.
ghost use Rattle.searching.specs.Searching.{Moving, Moved, Spent, Following, Followed, Arriving, Entered};

use resolve::Move;
use rides::Come;
use states::leftmost::{copy_words, keep};
use states::{Code, Ended, Place, look};

// The next row: how many words are its goal's and its answer's, and how many formulas its goal has.
#[derive(Clone, Copy)]
pub struct Onto {
    pub words: usize,
    pub answer: usize,
    pub formulas: usize,
}

// The row that a ride or a step has written, put in its place, and the state looked at.
pub fn arrive(goal: &mut [u32], saved: &[u32], out: &[u32], come: Come) -> Result<Place, Ended>
    requires { Arriving goal.old saved.now out.now come }
    ensures { Entered saved.now out.now come goal.new result }
{
    copy_words(out, goal, come.words + come.answer);
    look(
        goal,
        come.words,
        come.formulas,
        come.answer,
        saved,
        come.kept,
        come.detector,
    )
}

// The state after an open one whose next goal is there and fits, and its answer too: "if t is on the schedule or G is shorter than l, save
// G's length and leftmost formula; then t grows by one".
fn move_on(
    goal: &mut [u32],
    saved: &mut [u32],
    out: &[u32],
    place: Place,
    next: Onto,
) -> Result<Place, Ended>
    requires { Moving goal.old saved.old out.now place next }
    ensures { Moved goal.old saved.old out.now place next goal.new saved.new result }
{
    let now = place.detector;
    let length = place.formulas as u32;
    let due = now.due(length);
    let kept = keep(goal, place.front, saved, place.kept, due);
    let detector = now.next(length, due);
    let come = Come {
        detector,
        words: next.words,
        answer: next.answer,
        formulas: next.formulas,
        kept,
    };
    arrive(goal, saved, out, come)
}

// A step more, unless "t equals the budget, 23".
fn spend(place: Place, budget: u32) -> Result<(), Ended>
    ensures { Spent place budget result }
{
    if place.detector.step == budget {
        return Err(place.close(Code::Spent));
    }
    Ok(())
}

// The other tests of a state, from what the book says to its goal: "no head unifies, 22" or 26 in its place; "t equals the
// budget, 23; next goal too big, 24"; the next answer too big, 27 (document 02, C-11). "Otherwise" the next state.
pub fn follow(
    goal: &mut [u32],
    saved: &mut [u32],
    out: &[u32],
    place: Place,
    next: Move,
    budget: u32,
) -> Result<Place, Ended>
    requires { Following goal.old saved.old out.now place next budget }
    ensures { Followed goal.old saved.old out.now place next budget goal.new saved.new result }
{
    match next {
        Move::Stuck(clause, argument) => Err(place.close_stuck(clause, argument)),
        Move::Unknown => Err(place.close(Code::Unknown)),
        Move::Full => {
            spend(place, budget)?;
            Err(place.close(Code::TooBig))
        }
        Move::Over => {
            spend(place, budget)?;
            Err(place.close(Code::AnswerTooBig))
        }
        Move::To(_, words, answer, formulas) => {
            spend(place, budget)?;
            let row = Onto {
                words,
                answer,
                formulas,
            };
            move_on(goal, saved, out, place, row)
        }
    }
}
