// One number in the place of an answer: "For C the answer is one 64-bit number: outcome in the lowest eight bits; the next 24 bits hold the place for codes
// 1 to 19 and the bytes written otherwise; the top 32 hold the steps."
#![tactic(auto)]

ghost use Rattle.std.specs.Prelude.{◌≡◌, ◌+◌, ◌*◌, ◌^◌, ◌<◌};
ghost use Rattle.outcomes.specs.Firmware.{Narrow, number};
ghost use Rattle.outcomes.specs.CallNumbers.{ApplyNarrow, apply_number};

use outcomes::{Answer, Stepped};

pub fn pack(code: u8, field: u32, steps: u32) -> u64
    requires { field < 2 ^ 24 }
    ensures { result ≡ code + 256 * field + 2 ^ 32 * steps }
{
    u64::from(code) | (u64::from(field) << 8) | (u64::from(steps) << 32)
}

pub fn number(a: Answer) -> u64
    requires { Narrow a }
    ensures { result ≡ number a }
{
    if a.code < 20 {
        return pack(a.code, a.place, a.steps);
    }
    pack(a.code, a.bytes, a.steps)
}

// Of an apply call, which has the clause number where a run has its steps: another struct with another definition, so that a trait for both would be longer than the two.
pub fn applied_number(a: Stepped) -> u64
    requires { ApplyNarrow a }
    ensures { result ≡ apply_number a }
{
    if a.code < 20 {
        return pack(a.code, a.place, a.clause);
    }
    pack(a.code, a.bytes, a.clause)
}
