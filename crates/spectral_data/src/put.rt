// The tail bits of a pair of lines, written or counted alone: its low bits, level by level, then its signs.
ghost use Rattle.std.specs.Prelude.{◌≡◌, ℕ, ◌+◌, ◌*◌, ◌/◌, ◌%◌, ◌^◌, ◌≤◌, ◌<◌, length};
ghost use Rattle.sending.specs.Private.{Puts, put_all};
ghost use Rattle.spectral_data.specs.Sent.{low_at, lows_from, sign_at, pair_bits, pairs_bits};
ghost use Rattle.spectral_data.specs.Sent.{early as Sent·early};
ghost use Rattle.spectral_data.specs.Private.{Put};

fn bit_of(magnitude: usize, level: usize) -> u32
    requires { level < 64 }
    ensures { result ≡ magnitude / 2 ^ level % 2 }
{
    ((magnitude >> level) % 2) as u32
}

// The two low bits at a level, of a pair of magnitudes; in least-bit mode those of level 0 come late.
fn put_low(
    buf: &mut [u8],
    writing: bool,
    place: usize,
    lsb: bool,
    a: usize,
    b: usize,
    level: usize,
) -> usize
    requires { (level < 64) × (Puts writing buf.old place (length (low_at lsb 0 a b level))) }
    ensures { (k : ℕ) → Put writing buf.old place (low_at lsb k a b level) result buf.new }
{
    if crate::inner::without_bits(lsb, level) {
        return place;
    }
    let next = sending::inner::bit(buf, writing, place, bit_of(a, level));
    sending::inner::bit(buf, writing, next, bit_of(b, level))
}

// Those of the n levels of a pair.
fn put_lows(
    buf: &mut [u8],
    writing: bool,
    place: usize,
    lsb: bool,
    a: usize,
    b: usize,
    n: usize,
) -> usize
    requires { (n < 64) × (Puts writing buf.old place (length (lows_from lsb 0 a b 0 n))) }
    ensures { (k : ℕ) → Put writing buf.old place (lows_from lsb k a b 0 n) result buf.new }
{
    let mut at = place;
    for level in 0..n {
        at = put_low(buf, writing, at, lsb, a, b, level);
    }
    at
}

// What is left of a magnitude where the lowest bit comes late.
fn early(lsb: bool, n: usize, magnitude: usize) -> usize
    ensures { result ≡ Sent·early lsb n magnitude }
{
    if lsb && 0 < n {
        magnitude / 2
    } else {
        magnitude
    }
}

// The sign of line k, in a pair with n escapes.
fn put_sign(
    buf: &mut [u8],
    writing: bool,
    place: usize,
    lsb: bool,
    n: usize,
    lines: &[i16],
    k: usize,
) -> usize
    requires { (k < length lines.now) × (Puts writing buf.old place (length (sign_at lsb n lines.now k))) }
    ensures { Put writing buf.old place (sign_at lsb n lines.now k) result buf.new }
{
    if early(lsb, n, contexts::inner::magnitude_at(lines, k)) == 0 {
        return place;
    }
    sending::inner::bit(buf, writing, place, contexts::inner::minus_at(lines, k))
}

// Pair p of the lines.
fn put_pair(
    buf: &mut [u8],
    writing: bool,
    place: usize,
    lsb: bool,
    lines: &[i16],
    p: usize,
) -> usize
    requires { (2 * p + 1 < length lines.now) × (Puts writing buf.old place (length (pair_bits lsb lines.now p))) }
    ensures { Put writing buf.old place (pair_bits lsb lines.now p) result buf.new }
{
    let n = contexts::inner::escapes_at(lines, p);
    let a = contexts::inner::magnitude_at(lines, 2 * p);
    let b = contexts::inner::magnitude_at(lines, 2 * p + 1);
    let signs = put_lows(buf, writing, place, lsb, a, b, n);
    let second = put_sign(buf, writing, signs, lsb, n, lines, 2 * p);
    put_sign(buf, writing, second, lsb, n, lines, 2 * p + 1)
}

// The tail bits of so many pairs.
pub(crate) fn put_pairs(
    buf: &mut [u8],
    writing: bool,
    place: usize,
    lsb: bool,
    lines: &[i16],
    pairs: usize,
) -> usize
    requires { (2 * pairs ≤ length lines.now) × (Puts writing buf.old place (length (pairs_bits lsb lines.now 0 pairs))) }
    ensures next { result ≡ place + length (pairs_bits lsb lines.now 0 pairs) }
    ensures lent { buf.new ≡ put_all writing buf.old place (pairs_bits lsb lines.now 0 pairs) }
{
    let mut at = place;
    for p in 0..pairs {
        at = put_pair(buf, writing, at, lsb, lines, p);
    }
    at
}
