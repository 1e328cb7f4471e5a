// What may stand next, by mode, and whether a bracket is open.
ghost use Rattle.std.specs.Prelude.{◌≡◌};
ghost use Rattle.halfway.specs.Machine.{settled, when, unless, on_name, on_variable, on_opening, behind, may_end};
ghost use Rattle.halfway.specs.Stage.{is_wrong, after_found};

use crate::Mode;
use pieces::Found;

// "a blank": no bracket may follow a name then.
fn settled(m: Mode) -> Mode
    ensures { result ≡ settled m }
{
    match m {
        Mode::Named => Mode::Complete,
        _ => m,
    }
}

fn when(test: bool, m: Mode) -> Mode
    ensures { result ≡ when test m }
{
    if test { m } else { Mode::Wrong }
}

fn unless(test: bool, m: Mode) -> Mode
    ensures { result ≡ unless test m }
{
    if test { Mode::Wrong } else { m }
}

fn on_name(m: Mode) -> Mode
    ensures { result ≡ on_name m }
{
    match m {
        Mode::Begin | Mode::Expects => Mode::Named,
        _ => Mode::Wrong,
    }
}

// A variable may stand for an argument, and not for a formula.
fn on_variable(m: Mode, deep: bool) -> Mode
    ensures { result ≡ on_variable m deep }
{
    match m {
        Mode::Expects => when(deep, Mode::Complete),
        _ => Mode::Wrong,
    }
}

// "a bracket follows its name at once"
fn on_opening(m: Mode) -> Mode
    ensures { result ≡ on_opening m }
{
    match m {
        Mode::Named => Mode::Expects,
        _ => Mode::Wrong,
    }
}

// Behind a formula or an argument.
fn behind(m: Mode, n: Mode) -> Mode
    ensures { result ≡ behind m n }
{
    match m {
        Mode::Named | Mode::Complete => n,
        _ => Mode::Wrong,
    }
}

pub fn after(m: Mode, deep: bool, found: Found) -> Mode
    ensures { result ≡ after_found m deep found }
{
    match found {
        Found::Name(_) => on_name(m),
        Found::Variable(_) => on_variable(m, deep),
        Found::Space | Found::Comment(_) => settled(m),
        Found::Opening => on_opening(m),
        Found::Closing => behind(m, when(deep, Mode::Complete)),
        Found::Comma => behind(m, Mode::Expects),
        Found::Stop | Found::HalfStop => behind(m, unless(deep, Mode::Over)),
        Found::Arrow | Found::HalfArrow | Found::Nothing => Mode::Wrong,
    }
}

pub fn wrong(m: Mode) -> bool
    ensures { result ≡ is_wrong m }
{
    matches!(m, Mode::Wrong)
}

// Whether the text may end.
pub fn may_end(m: Mode, deep: bool) -> bool
    ensures { result ≡ may_end m deep }
{
    match m {
        Mode::Begin | Mode::Over => true,
        Mode::Named | Mode::Complete => !deep,
        Mode::Expects | Mode::Wrong => false,
    }
}
