// What is looked at before a step: whether the state may close the run, and the formula that is to be saved.
ghost use Rattle.std.specs.Prelude.{◌≤◌, ◌<◌, ◌≡◌, false, IfSome, ◌∷◌, length};
ghost use Rattle.terms.specs.Node.{Expr};
ghost use Rattle.search.specs.Next.{Goal};
ghost use Rattle.heapgoals.specs.Holding.{Holds};
ghost use Rattle.rides.specs.Riding.{ApartFrom, Drawn, ForeseenFrom, KeepsSome, Something, onward_of};

use detector::Detector;
use heapgoals::Standing;
use heapgoals::writing::{is_other, write_first};
use words::OUT;
use words::rows::CELLS;

// The detector, how many words are saved, and the budget.
#[derive(Clone, Copy)]
pub struct Along {
    pub detector: Detector,
    pub kept: usize,
    pub budget: u32,
}

// Whether a save is due before the step, and how many words the formula has then.
#[derive(Clone, Copy)]
pub struct Ahead {
    pub kept: usize,
    pub due: bool,
}

// Whether the state may close the run: "G empty, 20; .. leftmost formula equal to A .., 21", "t equals the budget, 23".
fn may_close(
    words: &[u32],
    cells: &[u16],
    levels: &mut [u16],
    saved: &[u32],
    s: Standing,
    x: Along,
) -> bool
    requires { KeepsSome saved.now x.kept × Something words.now cells.now levels.old s }
    ensures apart { result ≡ false → (g a : Goal) → Holds words.now cells.now levels.old s g a → ApartFrom saved.now x g }
    ensures held { (g a : Goal) → Holds words.now cells.now levels.old s g a → Holds words.now cells.now levels.new s g a }
{
    if s.formulas == 0 {
        return true;
    }
    let detector = x.detector;
    if detector.step == x.budget {
        return true;
    }
    if s.formulas < detector.length as usize {
        return false;
    }
    !is_other(words, cells, levels, s, &saved[..x.kept])
}

// How many words the formula has that is to be saved, where a save is due; none where it could not be written out.
fn draw(
    words: &[u32],
    cells: &[u16],
    levels: &mut [u16],
    rows: &mut [u16; CELLS],
    out: &mut [u32; OUT],
    s: Standing,
    due: bool,
) -> Option<usize>
    requires { ((f : Expr) × (g : Goal) × (a : Goal) × Holds words.now cells.now levels.old s (f ∷ g) a) }
    ensures drawn { IfSome result (λ n. (n ≤ 4096) × ((f : Expr) (g a : Goal) → Holds words.now cells.now levels.old s (f ∷ g) a → Drawn f out.new n due)) }
    ensures held { (g a : Goal) → Holds words.now cells.now levels.old s g a → Holds words.now cells.now levels.new s g a }
{
    if due {
        return write_first(words, cells, levels, rows, out, s);
    }
    Some(0)
}

// None where the ride ends.
pub fn look_ahead(
    words: &[u32],
    cells: &[u16],
    levels: &mut [u16],
    rows: &mut [u16; CELLS],
    saved: &[u32],
    out: &mut [u32; OUT],
    s: Standing,
    x: Along,
) -> Option<Ahead>
    requires { KeepsSome saved.now x.kept × Something words.now cells.now levels.old s }
    ensures foreseen { IfSome result (λ r. (r.kept ≤ 4096) × ((g a : Goal) → Holds words.now cells.now levels.old s g a → ForeseenFrom saved.now out.new x g r)) }
    ensures held { (g a : Goal) → Holds words.now cells.now levels.old s g a → Holds words.now cells.now levels.new s g a }
{
    if may_close(words, cells, levels, saved, s, x) {
        return None;
    }
    let detector = x.detector;
    let due = detector.due(s.formulas as u32);
    let kept = draw(words, cells, levels, rows, out, s, due)?;
    Some(Ahead { kept, due })
}

// After the step: "then t grows by one".
pub fn onward(x: Along, budget: u32, kept: usize, length: u32, due: bool) -> Along
    requires { x.detector.step < budget }
    ensures { result ≡ onward_of x budget kept length due }
{
    let now = x.detector;
    let detector = now.next(length, due);
    Along {
        detector,
        kept,
        budget,
    }
}
