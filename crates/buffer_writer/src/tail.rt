// A byte with some of its bits replaced.
ghost use Rattle.std.specs.Prelude.{◌≡◌, ◌≤◌, ◌<◌};
ghost use Rattle.buffer_writer.specs.Writes.{with_bit, with_top};

pub(crate) fn with_bit(byte: u8, k: usize, bit: u32) -> u8
    requires { (k < 8) × (bit < 2) }
    ensures { result ≡ with_bit byte k bit }
{
    let wide = u32::from(byte);
    let unit = common::inner::power(k);
    ((wide / unit / 2 * 2 + bit) * unit + wide % unit) as u8
}

pub(crate) fn with_top(byte: u8, val: u8, num_bits: usize) -> u8
    requires { (0 < num_bits) × (num_bits ≤ 8) }
    ensures { result ≡ with_top byte val num_bits }
{
    let unit = common::inner::power(8 - num_bits);
    (u32::from(val) / unit * unit + u32::from(byte) % unit) as u8
}
