// Names of several sorts, each sort in a section of its own of the same storage (document 02, C-13: "separately for the three sorts of symbol").
#![tactic(auto)]

ghost use Rattle.std.specs.Prelude.{◌≡◌, List, ℕ, ◌+◌, ◌<◌, ◌≤◌, length};
ghost use Rattle.nametable.specs.Table.{word};
ghost use Rattle.symbols.specs.Sections.{Holds, Numbers, next};

use nametable::number;

// Where a sort's names stand, how many there may be, where the heads of its chains stand, and how many names it has.
#[derive(Clone, Copy)]
pub struct Section {
    pub from: usize,
    pub room: usize,
    pub heads: usize,
    pub count: usize,
}

// How many names a section has behind a name with this number.
pub fn next(section: Section, number: usize) -> Section
    requires { section.count < 65536 }
    ensures { result ≡ next section number }
{
    if number < section.count {
        return section;
    }
    Section {
        count: section.count + 1,
        ..section
    }
}

// The number of the name at a place among those of its sort; a new one is put behind the others.
pub fn number_in(
    text: &[u8],
    starts: &mut [u16],
    lens: &mut [u8],
    heads: &mut [u16],
    nexts: &mut [u16],
    section: Section,
    at: usize,
    len: usize,
) -> usize
    requires by_index { (names : List (List ℕ)) × Holds text.now starts.old lens.old heads.old nexts.old section names }
    requires count_lt_room { (section.count < section.room) × (at + len ≤ length text.now) × (at < 65536) × (len < 256) }
    ensures { Numbers text.now starts.old lens.old heads.old nexts.old starts.new lens.new heads.new nexts.new section (word text.now at len) result }
{
    let from = section.from;
    let end = from + section.room;
    let first = section.heads;
    let last = first + 4096;
    number(
        text,
        &mut starts[from..end],
        &mut lens[from..end],
        &mut heads[first..last],
        &mut nexts[from..end],
        section.count,
        at,
        len,
    )
}
