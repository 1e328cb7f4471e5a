// Bytes, names and variables laid into an area from a place on. Those that have no room in it are only counted.
ghost use Rattle.std.specs.Prelude.{◌≡◌, List, [], ◌∷◌, ℕ, ◌+◌, ◌<◌, ◌≤◌, length, set, drop};
ghost use Rattle.printing.specs.Named.{digits, variable_name};
ghost use Rattle.namelist.specs.List.{Entry, naming};
ghost use Rattle.namelist.specs.ListLaws.{Stands};
ghost use Rattle.namelist.specs.Sorts.{sort_named};
ghost use Rattle.printouts.specs.Laying.{up, Lays};

use namelist::{Sort, find};

fn store(area: &mut [u8], at: usize, b: u8)
    ensures { area.new ≡ set area.old at b }
{
    if at < area.len() {
        area[at] = b;
    }
}

fn up(at: usize) -> usize
    ensures { result ≡ up at }
{
    if at < 65537 { at + 1 } else { at }
}

pub fn put(area: &mut [u8], at: usize, b: u8) -> usize
    ensures { Lays area.old area.new at result (b ∷ []) }
{
    store(area, at, b);
    up(at)
}

pub fn put_all(area: &mut [u8], at: usize, bytes: &[u8]) -> usize
    ensures { Lays area.old area.new at result bytes.now }
{
    let mut end = at;
    for b in bytes {
        end = put(area, end, *b);
    }
    end
}

// The name of a symbol; nothing, if it has none.
pub fn put_symbol(area: &mut [u8], at: usize, names: &[u8], sort: Sort, number: usize) -> usize
    requires { (l : List Entry) × Stands names.now 0 l }
    ensures { (l : List Entry) → Stands names.now 0 l → Lays area.old area.new at result (naming l (sort_named sort) number) }
{
    match find(names, sort, number) {
        Some(name) => put_all(area, at, name),
        None => at,
    }
}

fn digit(d: usize) -> u8
    requires { d < 10 }
    ensures { result ≡ 48 + d }
{
    b'0' + d as u8
}

// A number below 100,000 in decimal, at the end of five bytes; where it starts. By hand: the library writes digits into a `String` or a writer, and here is no heap.
fn set_digits(five: &mut [u8], v: usize) -> usize
    requires { (length five.old ≡ 5) × (v < 100000) }
    ensures { (drop result five.new ≡ digits 5 v) × (result < 5) × (length five.new ≡ 5) }
{
    let mut n = v;
    for i in (1..5).rev() {
        five[i] = digit(n % 10);
        if n < 10 {
            return i;
        }
        n /= 10;
    }
    five[0] = digit(n);
    0
}

// "variables as `V0`, `V1` and so on"
pub fn put_variable(area: &mut [u8], at: usize, v: usize) -> usize
    requires { v < 100000 }
    ensures { Lays area.old area.new at result (variable_name v) }
{
    let mut five = [0u8; 5];
    let start = set_digits(&mut five, v);
    let end = put(area, at, b'V');
    put_all(area, end, &five[start..])
}
