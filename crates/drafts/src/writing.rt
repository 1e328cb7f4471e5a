// Records as bytes: "Numbers are most significant byte first."
ghost use Rattle.std.specs.Prelude.{◌≡◌, [], ◌∷◌, ◌+◌, ◌/◌, ◌%◌, ◌<◌, ◌≤◌, length, get_or, set};
ghost use Rattle.drafts.specs.Writing.{Wrote};

pub fn put3(out: &mut [u8], at: usize, kind: u8, number: usize)
    requires { (at + 3 ≤ length out.old) × (number < 65536) }
    ensures { Wrote out.old out.new at (kind ∷ number / 256 ∷ number % 256 ∷ []) }
{
    out[at] = kind;
    out[at + 1] = (number / 256) as u8;
    out[at + 2] = (number % 256) as u8;
}

// The same, with the arity 0 behind it.
pub fn put4(out: &mut [u8], at: usize, kind: u8, number: usize)
    requires { (at + 4 ≤ length out.old) × (number < 65536) }
    ensures { Wrote out.old out.new at (kind ∷ number / 256 ∷ number % 256 ∷ 0 ∷ []) }
{
    put3(out, at, kind, number);
    out[at + 3] = 0;
}

// One more argument of the symbol whose arity stands here.
pub fn raise(out: &mut [u8], at: usize)
    requires { (at < length out.old) × (get_or out.old at 0 < 255) }
    ensures { out.new ≡ set out.old at (get_or out.old at 0 + 1) }
{
    out[at] += 1;
}
