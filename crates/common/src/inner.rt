// What the crates of this repository use without the checks: each call states what it requires.
ghost use Rattle.std.specs.Prelude.{◌≡◌, ◌^◌, ◌≤◌, ◌<◌};
ghost use Rattle.std.proofs.lemmas.List.Edits.{sets};
ghost use Rattle.common.specs.Configuration as Configuration;
ghost use Rattle.common.specs.Configuration.{length_passes};
ghost use Rattle.common.specs.Last.{floor_log2};

// The number of encoded lines of a configuration that passes.
pub fn ne(duration: usize, fs_ind: usize) -> usize
    requires { (duration ≤ 1) × (fs_ind ≤ 4) }
    ensures { result ≡ Configuration.ne duration fs_ind }
{
    if duration == 0 {
        (fs_ind + 1) * 80
    } else {
        (fs_ind + 1) * 60
    }
}

// Whether a frame may have so many bytes.
pub fn length_passes(bytes: usize) -> bool
    ensures { result ≡ length_passes bytes }
{
    20 <= bytes && bytes <= 400
}

// The floor of the logarithm comes from the leading zero bits, not a float.
pub fn floor_log2(n: u32) -> usize
    requires { 0 < n }
    ensures { result ≡ floor_log2 n }
{
    (31 - u32::leading_zeros(n)) as usize
}

// A power of two, by a shift.
pub fn power(k: usize) -> u32
    requires { k < 24 }
    ensures { (result ≡ 2 ^ k) × (0 < result) × (result < 0x1000000) }
{
    1 << k
}

// A list laid over a lent slice from its front, as far as both are long.
pub fn lay<T: Copy>(to: &mut [T], from: &[T])
    ensures { to.new ≡ sets to.old 0 from.now }
{
    let n = to.len().min(from.len());
    to[..n].copy_from_slice(&from[..n]);
}
