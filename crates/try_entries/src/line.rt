// The parts of a line: numbers, and the sum that stands for an area.
ghost use Rattle.std.specs.Prelude.{◌≡◌, ◌<◌};
ghost use Rattle.try_entries.specs.Sum.{added, summed};

// Of what is written no contract can speak. Each number has a write of its own: where it fails, this number is left out, and the next one is tried.
pub(crate) fn say(rt: &impl Print, numbers: &[u64], last: u64) {
    for n in numbers {
        let _ = print!(rt; "{n} ");
    }
    let _ = println!(rt; "{last}");
}

fn added(sum: u64, byte: u8) -> u64
    requires { sum < 0x8000_0000 }
    ensures { (result ≡ added sum byte) × (result < 0x8000_0000) }
{
    (sum * 0x100_0193 + u64::from(byte)) % 0x8000_0000
}

// `for` and not `fold`: what is summed so far stays below what `added` asks for, and a closure would have to promise that for each number.
pub fn sum(bytes: &[u8]) -> u64
    ensures { result ≡ summed bytes.now }
{
    let mut sum = 1;
    for byte in bytes {
        sum = added(sum, *byte);
    }
    sum
}
