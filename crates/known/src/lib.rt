// Names that are known already (document 02, C-13: "against a given name list"): whether bytes are a list that leaves no number out, how many names of each sort it gives, and the number
// of a name in it.
#![tactic(auto)]

ghost use Rattle.std.specs.Prelude.{◌≡◌, ◌&&◌, List, ℕ, ◌+◌, ◌<◌, ◌≤◌, length, get_or, eqb, IfSome};
ghost use Rattle.format.specs.Reading.{number_at};
ghost use Rattle.grammar.specs.Names as Names;
ghost use Rattle.grammar.specs.Names.{Sort, same_name};
ghost use Rattle.namelist.specs.List.{Entry};
ghost use Rattle.namelist.specs.Bytes.{sort_of, name_at, past};
ghost use Rattle.namelist.specs.ListLaws.{Stands};
ghost use Rattle.known.specs.InTurn.{Low, own_of, more_of};
ghost use Rattle.known.specs.Known.{Turned, Knows, sought};

use namelist::is_list;
use nametable::byte;
use records::record::number_at;

// A list gives fewer names of a sort than this and one: a query has up to 4,096 new names, and each is to have a number of two bytes.
const MOST_NAMES: usize = 61_439;

// How many names of each sort a list has.
#[derive(Clone, Copy, Default)]
pub struct Known {
    pub constants: usize,
    pub compounds: usize,
    pub predicates: usize,
}

impl Known {
    // How many names of a kind there are so far. A kind is a byte of the list.
    fn own(self, kind: usize) -> usize
        ensures { result ≡ own_of self (sort_of kind) }
    {
        match kind {
            2 => self.constants,
            3 => self.compounds,
            _ => self.predicates,
        }
    }

    // With one more of a kind.
    fn more(self, kind: usize) -> Self
        requires { Low self }
        ensures { result ≡ more_of self (sort_of kind) }
    {
        match kind {
            2 => Self {
                constants: self.constants + 1,
                ..self
            },
            3 => Self {
                compounds: self.compounds + 1,
                ..self
            },
            _ => Self {
                predicates: self.predicates + 1,
                ..self
            },
        }
    }
}

fn number(s: &[u8], at: usize) -> usize
    requires { at + 1 < length s.now }
    ensures { (result ≡ number_at s.now at) × (result < 65536) }
{
    usize::from(number_at(s, at))
}

// Where the entry after the one at a place stands.
pub fn past(s: &[u8], at: usize) -> usize
    requires { (at + 4 ≤ length s.now) × (past s.now at ≤ length s.now) }
    ensures { result ≡ past s.now at }
{
    at + 4 + byte(s, at + 3)
}

// Whether each number is that of the names of its sort before it; if so, how many there are.
fn in_turn(s: &[u8]) -> Option<Known>
    requires { (l : List Entry) × Stands s.now 0 l }
    ensures { (l : List Entry) → Stands s.now 0 l → Turned l result }
{
    let mut c = Known::default();
    let mut at = 0;
    while at < s.len() {
        let kind = byte(s, at);
        let n = number(s, at + 1);
        if n != c.own(kind) || MOST_NAMES <= n {
            return None;
        }
        c = c.more(kind);
        at = past(s, at);
    }
    Some(c)
}

// Whether bytes are a list as its reader writes it; if so, how many names of each sort it has.
pub fn known_names(s: &[u8]) -> Option<Known>
    ensures { Knows s.now result }
{
    if !is_list(s) {
        return None;
    }
    in_turn(s)
}

// Whether the entry at a place is of this kind and has this name.
fn is_called(s: &[u8], at: usize, kind: usize, name: &[u8]) -> bool
    requires { (at + 4 ≤ length s.now) × (past s.now at ≤ length s.now) }
    ensures { result ≡ (eqb kind (get_or s.now at 0) && same_name name.now (name_at s.now at)) }
{
    byte(s, at) == kind && name == &s[at + 4..past(s, at)]
}

// The number that the list has for a name, if it has one.
pub fn number_of(s: &[u8], kind: usize, name: &[u8]) -> Option<usize>
    requires { (l : List Entry) × Stands s.now 0 l }
    ensures is { (l : List Entry) (k : Sort) → Stands s.now 0 l → kind ≡ Names.kind k → result ≡ sought l k name.now }
    ensures low { IfSome result (λ n. n < 65536) }
{
    let mut at = 0;
    while at < s.len() {
        if is_called(s, at, kind, name) {
            return Some(number(s, at + 1));
        }
        at = past(s, at);
    }
    None
}
