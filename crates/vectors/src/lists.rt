// Lists that stand in bytes: each is put at the front of `to`, as far as that has room, and the answer is how many there are.
ghost use Rattle.std.specs.Prelude.{◌≤◌, length};

use std::num::f32_from_bits_with_nan;

// What the parts are, each as a number.
fn put<P: Copy, T: Copy, F: Fn(P) -> T>(parts: &[P], to: &mut [T], number: F) -> usize
    requires { F.IsAlwaysCallable number }
    ensures { result ≤ length to.new }
{
    for (place, part) in to.iter_mut().zip(parts) {
        *place = number(*part);
    }
    to.len().min(parts.len())
}

pub(crate) fn words(from: &[u8], to: &mut [u16]) -> usize
    ensures { result ≤ length to.new }
{
    put(from.as_chunks().0, to, u16::from_be_bytes)
}

pub(crate) fn lines(from: &[u8], to: &mut [i16]) -> usize
    ensures { result ≤ length to.new }
{
    put(from.as_chunks().0, to, i16::from_be_bytes)
}

pub(crate) fn singles(from: &[u8], to: &mut [f32]) -> usize
    ensures { result ≤ length to.new }
{
    put(
        from.as_chunks().0,
        to,
        |bytes| f32_from_bits_with_nan(u32::from_be_bytes(bytes)),
    )
}
