// The stage's parts, which the frame's reader and its writer call behind their checks. No bit is refused here: the room says that its
// byte is there.
ghost use Rattle.std.specs.Prelude.{◌≡◌, ◌+◌, ◌*◌, ◌<◌, ◌≤◌, min, [], ◌∷◌, ◌++◌, length, take, drop, if◌then◌else◌, nat_eq, unsigned_abs};
ghost use Rattle.buffer_reader.specs.Tail.{tail_bit};
ghost use Rattle.residual_data.specs.Residual.{used_bits, bits_from, residual_list, late_line, escaped_by, late_from};
ghost use Rattle.residual_data.specs.Residual.{available as Residual·available, nonzero as Residual·nonzero, larger as Residual·larger};
ghost use Rattle.residual_data.specs.Sums.{zero_flag};
ghost use Rattle.residual_data.specs.Sums.{seed as Sums·seed};
ghost use Rattle.sending.specs.Sending.{Owner, owned, put_bits};
ghost use Rattle.residual_data.specs.Sent.{residual_bits, late_at, late_pair, late_pairs};
ghost use Rattle.residual_data.specs.Private.{available_of, late_of, held, AtMost, Cut};

use crate::LateLine;
use buffer_reader::Cursor;

// The bits that are used up to a cursor, by the coder's range there.
pub fn used_bits(at: Cursor, range: u32) -> usize
    requires { (3 ≤ at.head) × (at.head ≤ 65537) × (at.tail ≤ 8 * 65535) × (0x10000 ≤ range) × (range ≤ 0xFFFFFF) }
    ensures { result ≡ used_bits at range }
{
    at.tail + 8 * (at.head - 3) + 25 - common::inner::floor_log2(range)
}

// The bits that are left of N, or refusal 12.
pub fn available(bits: usize, at: Cursor, range: u32) -> Option<usize>
    requires { (3 ≤ at.head) × (at.head ≤ 65537) × (at.tail ≤ 8 * 65535) × (0x10000 ≤ range) × (range ≤ 0xFFFFFF) }
    ensures { available_of result ≡ Residual·available bits at range }
{
    bits.checked_sub(used_bits(at, range))
}

// The bit at a tail place whose byte is there.
fn bit_at(buf: &[u8], tail: usize) -> u8
    requires { tail < 8 * length buf.now }
    ensures { result ≡ tail_bit buf.now tail }
{
    let at = buf.len() - 1 - tail / 8;
    (buf[at] >> (tail % 8)) % 2
}

// How many of the first lines are not 0.
pub fn nonzero(lines: &[i32], ne: usize) -> usize
    requires { ne ≤ length lines.now }
    ensures { (result ≡ Residual·nonzero (take ne lines.now)) × (result ≤ ne) }
{
    // counted without a branch, which the lines of a real frame would make a processor miss
    let mut n = 0;
    for k in 0..ne {
        n += usize::from(magnitude(lines[k]) != 0);
    }
    n
}

// As many tail bits from a place on as there are places, each apart.
fn lay_bits(buf: &[u8], tail: usize, bits: &mut [u8])
    requires { (length buf.now ≤ 65535) × (tail + length bits.old ≤ 8 * length buf.now) }
    ensures { bits.new ≡ bits_from buf.now tail (length bits.old) }
{
    for (i, bit) in bits.iter_mut().enumerate() {
        *bit = bit_at(buf, tail + i);
    }
}

// One bit for each nonzero line while there is room; returns how many.
pub fn residual_bits(
    buf: &[u8],
    tail: usize,
    room: usize,
    lines: &[i32],
    ne: usize,
    bits: &mut [u8],
) -> usize
    requires { (length buf.now ≤ 65535) × (tail + room ≤ 8 * length buf.now) × (ne ≤ length lines.now) × (ne ≤ length bits.old) }
    ensures count { result ≡ min room (Residual·nonzero (take ne lines.now)) }
    ensures lent { bits.new ≡ residual_list buf.now tail room (take ne lines.now) ++ drop result bits.old }
{
    let n = room.min(nonzero(lines, ne));
    lay_bits(buf, tail, &mut bits[..n]);
    n
}

// A line that is not 0, its magnitude one larger.
fn larger(line: i32) -> i32
    requires { unsigned_abs line ≤ 81919 }
    ensures { result ≡ Residual·larger line }
{
    if line < 0 { line - 1 } else { line + 1 }
}

fn late(line: i32, tail: usize, room: usize) -> LateLine
    ensures { late_of result ≡ held line tail room }
{
    LateLine { line, tail, room }
}

// A lowest bit, and behind a 1 of a line that is 0 its sign.
fn late_line(buf: &[u8], line: i32, tail: usize, room: usize) -> LateLine
    requires { (length buf.now ≤ 65535) × (tail + room ≤ 8 * length buf.now) × (unsigned_abs line ≤ 81919) }
    ensures { late_of result ≡ late_line buf.now line tail room }
{
    if room == 0 {
        return late(line, tail, 0);
    }
    if bit_at(buf, tail) == 0 {
        return late(line, tail + 1, room - 1);
    }
    if line != 0 {
        return late(larger(line), tail + 1, room - 1);
    }
    if room == 1 {
        return late(line, tail + 1, 0);
    }
    let sign = if bit_at(buf, tail + 1) == 1 { -1 } else { 1 };
    late(sign, tail + 2, room - 2)
}

// Where the level of pair p is looked up: by line number in the crate reading, by pair number in the standard.
fn level_place(reading: usize, p: usize) -> usize
    requires { p < 200 }
    ensures { result ≡ (if nat_eq reading 0 then 2 * p else p) }
{
    if reading == 0 { 2 * p } else { p }
}

// Whether pair p counts as escaped.
fn escaped(reading: usize, levels: &[u8], pairs: usize, p: usize) -> bool
    requires { (p < pairs) × (pairs ≤ length levels.now) × (pairs ≤ 200) }
    ensures { result ≡ escaped_by reading (take pairs levels.now) p }
{
    let place = level_place(reading, p);
    place < pairs && 0 < levels[place]
}

// Both lines of each escaped pair behind what comes late, while there is room. Returns the tail behind it.
pub fn late_lines(
    buf: &[u8],
    tail: usize,
    room: usize,
    reading: usize,
    levels: &[u8],
    pairs: usize,
    lines: &mut [i32],
) -> usize
    requires { (length buf.now ≤ 65535) × (tail + room ≤ 8 * length buf.now) × (pairs ≤ 200) × (pairs ≤ length levels.now) × (2 * pairs ≤ length lines.old) × AtMost 81919 lines.old }
    ensures tail { result ≡ (late_from buf.now (escaped_by reading (take pairs levels.now)) 0 (take (2 * pairs) lines.old) tail room).tail }
    ensures lent { lines.new ≡ (late_from buf.now (escaped_by reading (take pairs levels.now)) 0 (take (2 * pairs) lines.old) tail room).lines ++ drop (2 * pairs) lines.old }
{
    let mut at = tail;
    let mut left = room;
    for p in 0..pairs {
        if escaped(reading, levels, pairs, p) {
            let first = late_line(buf, lines[2 * p], at, left);
            let second = late_line(buf, lines[2 * p + 1], first.tail, first.room);
            lines[2 * p] = first.line;
            lines[2 * p + 1] = second.line;
            at = second.tail;
            left = second.room;
        }
    }
    at
}

pub fn magnitude(line: i32) -> u32
    ensures { result ≡ unsigned_abs line }
{
    line.unsigned_abs()
}

// The noise seed: magnitude times index, as the lines are returned.
pub fn seed(lines: &[i32], ne: usize) -> u32
    requires { (ne ≤ 400) × (ne ≤ length lines.now) × AtMost 81920 lines.now }
    ensures { result ≡ Sums·seed (take ne lines.now) }
{
    let mut sum: u32 = 0;
    for (k, line) in lines[..ne].iter().enumerate() {
        sum = sum.wrapping_add(line.unsigned_abs() * (k as u32));
    }
    sum % 65536
}

// Whether the frame is all zero, by the reading.
pub fn zero_flag(
    reading: usize,
    lastnz: usize,
    gain: u32,
    noise: u32,
    first: i32,
    second: i32,
) -> bool
    ensures { result ≡ zero_flag reading lastnz gain noise first second }
{
    lastnz == 2 && first == 0 && second == 0 && gain == 0 && (reading == 0 || noise == 7)
}

// How many lines are not 0, of those that are written.
pub fn nonzero_written(lines: &[i16]) -> usize
    ensures { result ≡ Residual·nonzero lines.now }
{
    // counted without a branch, as in `nonzero`
    let mut n = 0;
    for line in lines {
        n += usize::from(contexts::inner::magnitude(*line) != 0);
    }
    n
}

// The residual list as far as there is room, a bit to each nonzero line in order: the lines say whose the bits are.
pub fn put_residual(buf: &mut [u8], place: usize, room: usize, lines: &[i16], residual: &[u8])
    requires { (length buf.old ≤ 65535) × (place + room ≤ 8 * length buf.old) × (length residual.now ≤ Residual·nonzero lines.now) }
    ensures { buf.new ≡ put_bits buf.old place (take room (residual_bits 0 lines.now residual.now)) }
{
    let n = room.min(residual.len());
    for (i, bit) in residual[..n].iter().enumerate() {
        buffer_writer::inner::put_bit(buf, place + i, u32::from(*bit % 2));
    }
}

// A late bit, if there is room before the end. Returns the place behind it.
fn put_before(buf: &mut [u8], at: usize, end: usize, value: u32) -> usize
    requires { (at ≤ end) × (end ≤ 8 * length buf.old) × (value < 2) }
    ensures { (o : Owner) → Cut buf.old at end (owned o value ∷ []) result buf.new }
{
    if at == end {
        return at;
    }
    buffer_writer::inner::put_bit(buf, at, value);
    at + 1
}

// A line's lowest bit, and behind it the sign of a magnitude 1.
fn put_late_line(buf: &mut [u8], at: usize, end: usize, lines: &[i16], k: usize) -> usize
    requires { (at ≤ end) × (end ≤ 8 * length buf.old) × (k < length lines.now) }
    ensures { Cut buf.old at end (late_at lines.now k) result buf.new }
{
    let magnitude = contexts::inner::magnitude_at(lines, k);
    let next = put_before(buf, at, end, (magnitude % 2) as u32);
    if magnitude != 1 {
        return next;
    }
    put_before(buf, next, end, contexts::inner::minus_at(lines, k))
}

// Both lines of a pair, if it is escaped.
fn put_late_pair(buf: &mut [u8], at: usize, end: usize, lines: &[i16], p: usize) -> usize
    requires { (at ≤ end) × (end ≤ 8 * length buf.old) × (2 * p + 1 < length lines.now) }
    ensures { Cut buf.old at end (late_pair lines.now p) result buf.new }
{
    if contexts::inner::escapes_at(lines, p) == 0 {
        return at;
    }
    let next = put_late_line(buf, at, end, lines, 2 * p);
    put_late_line(buf, next, end, lines, 2 * p + 1)
}

// What comes late in least-bit mode, as far as there is room.
pub fn put_late(buf: &mut [u8], place: usize, room: usize, lines: &[i16], pairs: usize)
    requires { (length buf.old ≤ 65535) × (place + room ≤ 8 * length buf.old) × (2 * pairs ≤ length lines.now) }
    ensures { buf.new ≡ put_bits buf.old place (take room (late_pairs lines.now 0 pairs)) }
{
    let end = place + room;
    let mut at = place;
    for p in 0..pairs {
        at = put_late_pair(buf, at, end, lines, p);
    }
}
