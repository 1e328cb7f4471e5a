// The leftmost formula of a goal and the saved one, in words.
ghost use Rattle.std.specs.Prelude.{◌≤◌, ◌≡◌, ◌++◌, length, take, drop};
ghost use Rattle.states.specs.States.{Equal, Keeps};

// Whether the leftmost formula, of `front` words, is the saved one, of `kept` words.
pub fn same_front(goal: &[u32], front: usize, saved: &[u32], kept: usize) -> bool
    requires { (front ≤ length goal.now) × (kept ≤ length saved.now) }
    ensures { Equal (take front goal.now) (take kept saved.now) result }
{
    goal[..front] == saved[..kept]
}

// A row, or a formula, written over the front of another. By a loop: `copy_from_slice` makes a number of how far apart two slices lie, and an archive makes none (docs/PORTS.md).
pub fn copy_words(src: &[u32], dst: &mut [u32], n: usize)
    requires { (n ≤ length src.now) × (n ≤ length dst.old) }
    ensures { dst.new ≡ take n src.now ++ drop n dst.old }
{
    for i in 0..n {
        dst[i] = src[i];
    }
}

// Saves the leftmost formula, if that is due; answers how many words are saved.
pub fn keep(goal: &[u32], front: usize, saved: &mut [u32], kept: usize, due: bool) -> usize
    requires { (front ≤ length goal.now) × (front ≤ length saved.old) }
    ensures { Keeps goal.now front saved.old kept due saved.new result }
{
    if due {
        copy_words(goal, saved, front);
        return front;
    }
    kept
}
