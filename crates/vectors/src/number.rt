// Numbers in bytes, the first byte highest.
ghost use Rattle.std.specs.Prelude.{◌≡◌, ◌+◌, ◌≤◌, ◌<◌, length};
ghost use Rattle.vectors.specs.Number.{two_at};

// A number that has 32 bits; of a longer one the low ones.
pub(crate) fn low(n: usize) -> u32 {
    (n % 4294967296) as u32
}

pub(crate) fn two(bytes: &[u8], at: usize) -> usize
    requires { at + 2 ≤ length bytes.now }
    ensures { (result ≡ two_at bytes.now at) × (result < 65536) }
{
    usize::from(u16::from_be_bytes([bytes[at], bytes[at + 1]]))
}

// The numbers of a call or of an answer, eight bytes each; one that is not there is 0.
pub(crate) fn all(bytes: &[u8]) -> [usize; 24] {
    let mut numbers = [0; 24];
    for (number, part) in numbers.iter_mut().zip(bytes.as_chunks().0) {
        *number = usize::from_be_bytes(*part);
    }
    numbers
}
