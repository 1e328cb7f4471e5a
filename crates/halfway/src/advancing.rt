// What a piece changes: the stage, and the commas of the open brackets.
ghost use Rattle.std.specs.Prelude.{◌≡◌, ◌≤◌, ◌<◌, length};
ghost use Rattle.halfway.specs.Stage.{Ready, Advances, kept_stage, word_stage, open_stage, close_stage, comma_stage, open_counts, comma_counts, stage_after, counts_after};

use crate::{Mode, Stage};
use pieces::Found;

fn keep(c: Stage, mode: Mode) -> Stage
    ensures { result ≡ kept_stage c mode }
{
    Stage { mode, ..c }
}

fn word(c: Stage, mode: Mode) -> Stage
    requires { c.words ≤ 65536 }
    ensures { result ≡ word_stage c mode }
{
    Stage {
        mode,
        words: c.words + 1,
        ..c
    }
}

fn open(counts: &mut [u16], c: Stage, mode: Mode) -> Stage
    requires { (c.depth < length counts.old) × (length counts.old ≤ 65536) }
    ensures { (result ≡ open_stage c mode) × (counts.new ≡ open_counts counts.old c) }
{
    counts[c.depth] = 0;
    Stage {
        mode,
        depth: c.depth + 1,
        ..c
    }
}

fn close(c: Stage, mode: Mode) -> Stage
    requires { 0 < c.depth }
    ensures { result ≡ close_stage c mode }
{
    Stage {
        mode,
        depth: c.depth - 1,
        ..c
    }
}

fn comma(counts: &mut [u16], c: Stage, mode: Mode) -> Stage
    requires { Ready counts.old c }
    ensures { (result ≡ comma_stage c mode) × (counts.new ≡ comma_counts counts.old c) }
{
    if c.depth == 0 {
        return Stage {
            mode,
            outside: c.outside + 1,
            ..c
        };
    }
    counts[c.depth - 1] += 1;
    Stage { mode, ..c }
}

// What a piece that may stand here changes.
pub fn advance(counts: &mut [u16], c: Stage, mode: Mode, found: Found) -> Stage
    requires { Advances counts.old c found }
    ensures { (result ≡ stage_after c mode found) × (counts.new ≡ counts_after counts.old c found) }
{
    match found {
        Found::Name(_) | Found::Variable(_) => word(c, mode),
        Found::Opening => open(counts, c, mode),
        Found::Closing => close(c, mode),
        Found::Comma => comma(counts, c, mode),
        _ => keep(c, mode),
    }
}
