// Names as a list of bytes (document 02, C-13: "record kind, number, length in one byte, name; entries rise by kind, then number").
#![tactic(auto)]

ghost use Rattle.std.specs.Prelude.{◌≡◌, ◌∷◌, ◌+◌, ◌*◌, ◌/◌, ◌%◌, ◌<◌, ◌≤◌, length};
ghost use Rattle.nametable.specs.Table.{word};
ghost use Rattle.storage.specs.Storage.{Written};
ghost use Rattle.listing.specs.Lists.{heard, noted, sizes, Within};

// So many bytes of s, from a place on, at the area's front. By a loop: `copy_from_slice` makes a number of how far apart two slices lie, and an archive makes none (docs/PORTS.md).
pub fn put_bytes(area: &mut [u8], s: &[u8], start: usize, len: usize)
    requires { (start + len ≤ length s.now) × (len ≤ length area.old) }
    ensures { Written (word s.now start len) area.old area.new len }
{
    for i in 0..len {
        area[i] = s[start + i];
    }
}

// A name with its number, at the area's front.
pub fn put_entry(
    area: &mut [u8],
    text: &[u8],
    kind: u8,
    number: usize,
    start: usize,
    len: usize,
) -> usize
    requires { (start + len ≤ length text.now) × (len + 4 ≤ length area.old) × (number < 65536) × (len < 256) }
    ensures { Written (kind ∷ number / 256 ∷ number % 256 ∷ len ∷ word text.now start len) area.old area.new result }
{
    let [high, low] = (number as u16).to_be_bytes();
    let head = [kind, high, low, len as u8];
    put_bytes(area, &head, 0, 4);
    let rest = &mut area[4..];
    put_bytes(rest, text, start, len);
    len + 4
}

// The names of a section of a table, numbered from 0, at the area's front. The kind is the byte that entries have in the list (`noted`).
pub fn put_names(area: &mut [u8], text: &[u8], starts: &[u16], lens: &[u8], kind: u8) -> usize
    requires count { length starts.now ≤ 65536 }
    requires within { Within text.now starts.now lens.now }
    requires room { sizes lens.now ≤ length area.old }
    ensures { Written (noted kind 0 (heard text.now starts.now lens.now)) area.old area.new result }
{
    let mut at = 0;
    for (i, start) in starts.iter().enumerate() {
        let rest = &mut area[at..];
        at += put_entry(
            rest,
            text,
            kind,
            i,
            usize::from(*start),
            usize::from(lens[i]),
        );
    }
    at
}

// How many bytes the names of a section have in the list.
pub fn measure(lens: &[u8]) -> usize
    requires { length lens.now ≤ 65536 }
    ensures { (result ≡ sizes lens.now) × (result ≤ 259 * length lens.now) }
{
    lens.iter().map(|len| 4 + usize::from(*len)).sum()
}
