// The room at the tail, and writes whose room the caller has shown.
ghost use Rattle.std.specs.Prelude.{◌≡◌, ◌+◌, ◌*◌, ◌≤◌, ◌<◌, ltb, length, get_or, set, replicate};
ghost use Rattle.std.proofs.lemmas.List.Edits.{sets};
ghost use Rattle.buffer_writer.specs.Writes.{put_bit, put_field, with_top};

// Whether so many bits from a place on pass the start of a buffer that has `bits`, by a difference, since the place may be any
// number.
pub fn beyond(bits: usize, place: usize, num_bits: usize) -> bool
    ensures { result ≡ ltb bits (place + num_bits) }
{
    bits < num_bits || bits - num_bits < place
}

pub fn put_bit(buf: &mut [u8], place: usize, bit: u32)
    requires { (place < 8 * length buf.old) × (bit < 2) }
    ensures { buf.new ≡ put_bit buf.old place bit }
{
    let at = buf.len() - 1 - place / 8;
    buf[at] = crate::tail::with_bit(buf[at], place % 8, bit);
}

pub fn put_field(buf: &mut [u8], place: usize, val: u32, num_bits: usize)
    requires { (length buf.old ≤ 65535) × (place + num_bits ≤ 8 * length buf.old) }
    ensures { buf.new ≡ put_field buf.old place val num_bits }
{
    let mut rest = val;
    for at in place..place + num_bits {
        put_bit(buf, at, rest % 2);
        rest /= 2;
    }
}

// So many copies of a byte from a head place on.
pub fn put_copies(buf: &mut [u8], place: usize, byte: u8, count: usize)
    requires { place + count ≤ length buf.old }
    ensures { buf.new ≡ sets buf.old place (replicate count byte) }
{
    buf[place..place + count].fill(byte);
}

// The top bits of the byte at a head place.
pub fn put_top(buf: &mut [u8], place: usize, val: u8, num_bits: usize)
    requires { (place < length buf.old) × (0 < num_bits) × (num_bits ≤ 8) }
    ensures { buf.new ≡ set buf.old place (with_top (get_or buf.old place 0) val num_bits) }
{
    buf[place] = crate::tail::with_top(buf[place], val, num_bits);
}
