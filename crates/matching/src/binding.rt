// Bindings, and how they are undone.
ghost use Rattle.std.specs.Prelude.{◌≡◌, List, ℕ, suc, ◌<◌, ◌≤◌, length, get_or, set};
ghost use Rattle.heap.specs.Heap.{bound};
ghost use Rattle.matching.specs.Binding.{noted, counted, Trailed};

// The variable v, which is not bound, on the row at p. Those of the goal are put on the trail; those of the clause, from `base` on, are not, since
// each trial starts with new ones.
pub fn bind(
    cells: &mut [u16],
    trail: &mut [u16],
    base: usize,
    count: usize,
    v: usize,
    p: usize,
) -> usize
    requires { (v < length cells.old) × (v < 65536) × (p < 65535) × (count < length trail.old) }
    ensures count { result ≡ counted base v count }
    ensures cells { cells.new ≡ set cells.old v (suc p) }
    ensures trail { trail.new ≡ noted base v count trail.old }
{
    cells[v] = (p + 1) as u16;
    if v < base {
        trail[count] = v as u16;
        return count + 1;
    }
    count
}

// The goal variables that a trial bound are not bound any more.
pub fn undo(cells: &mut [u16], trail: &[u16], count: usize)
    requires { (count ≤ length trail.now) × ((i : ℕ) → i < count → get_or trail.now i 0 < length cells.old) }
    ensures free { (v : ℕ) → bound cells.old v ≡ 0 → bound cells.new v ≡ 0 }
    ensures undone { (before : List ℕ) (base : ℕ) → Trailed before cells.old trail.now base count → (v : ℕ) → v < base → bound cells.new v ≡ bound before v }
{
    for &v in &trail[..count] {
        cells[usize::from(v)] = 0;
    }
}
