// The tail's bits: which bytes a field takes, whether they are there, and the field cut out of them.
ghost use Rattle.std.specs.Prelude.{◌≡◌, ◌||◌, ◌+◌, ◌*◌, ◌/◌, ◌%◌, ◌^◌, ◌≤◌, ◌<◌, ltb, leb, length};
ghost use Rattle.buffer_reader.specs.Private.{tail_number};
ghost use Rattle.buffer_reader.specs.Tail.{field as Tail·field};
ghost use Rattle.buffer_reader.specs.Reads.{bytes_wanted};

pub(crate) fn bytes_wanted(num_bits: usize, bit_index: usize) -> usize
    requires { (num_bits ≤ 25) × (bit_index < 8) }
    ensures { result ≡ bytes_wanted num_bits bit_index }
{
    if 8 <= num_bits {
        return num_bits / 8 + 1;
    }
    if 8 - bit_index < num_bits { 2 } else { 1 }
}

// Whether the sum of the three numbers passes len, by differences, since the cursors may be any numbers.
pub(crate) fn field_beyond(len: usize, num_bytes: usize, head: usize, byte_index: usize) -> bool
    ensures { result ≡ ltb len (num_bytes + head + byte_index) }
{
    len < num_bytes || len - num_bytes < head || len - num_bytes - head < byte_index
}

// The same for a bit, which the head may have passed by two bytes.
pub(crate) fn bit_beyond(len: usize, head: usize, byte_index: usize) -> bool
    requires { len ≤ 65535 }
    ensures { result ≡ (ltb (len + 2) (head + byte_index) || leb len byte_index) }
{
    len <= byte_index || len + 2 - byte_index < head
}

// The bytes from byte_index on, counted from the end, as one number, the last byte lowest.
fn number(buf: &[u8], byte_index: usize, num_bytes: usize) -> u32
    requires { (num_bytes ≤ 4) × (0 < num_bytes) × (byte_index + num_bytes ≤ length buf.now) }
    ensures { result ≡ tail_number buf.now byte_index num_bytes }
{
    let end = buf.len() - byte_index;
    let one = u32::from(buf[end - 1]);
    if num_bytes == 1 {
        return one;
    }
    let two = one + u32::from(buf[end - 2]) * 256;
    if num_bytes == 2 {
        return two;
    }
    let three = two + u32::from(buf[end - 3]) * 65536;
    if num_bytes == 3 {
        return three;
    }
    three + u32::from(buf[end - 4]) * 16777216
}

// The bits that are not wanted are shifted out above, then below.
fn cut(value: u32, bit_index: usize, num_bits: usize) -> u32
    requires { (0 < num_bits) × (bit_index + num_bits ≤ 32) × (bit_index < 8) }
    ensures { result ≡ value / 2 ^ bit_index % 2 ^ num_bits }
{
    let shift_by = 32 - num_bits - bit_index;
    (value << shift_by) >> (shift_by + bit_index)
}

pub(crate) fn field(
    buf: &[u8],
    byte_index: usize,
    bit_index: usize,
    num_bits: usize,
    num_bytes: usize,
) -> u32
    requires { (bit_index < 8) × (0 < num_bits) × (bit_index + num_bits ≤ 8 * num_bytes) × (num_bytes ≤ 4) × (byte_index + num_bytes ≤ length buf.now) }
    ensures { result ≡ Tail·field buf.now (8 * byte_index + bit_index) num_bits }
{
    cut(number(buf, byte_index, num_bytes), bit_index, num_bits)
}
