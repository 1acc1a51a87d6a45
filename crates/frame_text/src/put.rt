// Characters, words and numbers, each laid from a place on: answers the place behind. What is past the buffer's end is laid nowhere.
ghost use Rattle.std.specs.Prelude.{◌≡◌, ℕ, [], ◌∷◌, ◌++◌, ◌+◌, ◌*◌, ◌≤◌, length, map, nat_abs};
ghost use Rattle.frame_text.specs.Text.{last_digit, decimal, spaced as Text·spaced, signed as Text·signed};
ghost use Rattle.frame_text.specs.Private.{Laid};

// A number that is printed, whatever its width.
pub(crate) trait Figure: Copy {
    ghost value: { Self → ℕ };

    fn value(self) -> usize
        ensures { result ≡ value self };
}

impl Figure for usize {
    ghost value = { λ n. n };

    fn value(self) -> usize {
        self
    }
}

impl Figure for u32 {
    ghost value = { λ n. n };

    fn value(self) -> usize {
        self as usize
    }
}

impl Figure for u8 {
    ghost value = { λ n. n };

    fn value(self) -> usize {
        usize::from(self)
    }
}

fn byte(out: &mut [u8], at: usize, b: u8) -> usize
    requires { at ≤ 100000 }
    ensures text { Laid out.old at (b ∷ []) out.new result }
    ensures most { result ≤ at + 1 }
{
    if at < out.len() {
        out[at] = b;
    }
    at + 1
}

pub(crate) fn word(out: &mut [u8], at: usize, letters: &[u8]) -> usize
    requires { (at ≤ 95000) × (length letters.now ≤ 12) }
    ensures text { Laid out.old at letters.now out.new result }
    ensures most { result ≤ at + 12 }
{
    let mut next = at;
    for &letter in letters {
        next = byte(out, next, letter);
    }
    next
}

fn last_digit(out: &mut [u8], at: usize, n: usize) -> usize
    requires { at ≤ 100000 }
    ensures text { Laid out.old at (last_digit n) out.new result }
    ensures most { result ≤ at + 1 }
{
    byte(out, at, (48 + n % 10) as u8)
}

// The last digit, behind the others.
pub(crate) fn number(out: &mut [u8], at: usize, n: usize) -> usize
    requires { at ≤ 95000 }
    ensures text { Laid out.old at (decimal n) out.new result }
    ensures most { result ≤ at + 20 }
{
    if n < 10 {
        return last_digit(out, at, n);
    }
    let next = number(out, at, n / 10);
    last_digit(out, next, n)
}

pub(crate) fn named<N: Figure>(out: &mut [u8], at: usize, name: &[u8], n: N) -> usize
    requires { (at ≤ 90000) × (length name.now ≤ 12) }
    ensures text { Laid out.old at (name.now ++ decimal (N.value n)) out.new result }
    ensures most { result ≤ at + 32 }
{
    let next = word(out, at, name);
    number(out, next, n.value())
}

pub(crate) fn signed(out: &mut [u8], at: usize, v: i32) -> usize
    requires { (at ≤ 90000) × (nat_abs v ≤ 81920) }
    ensures text { Laid out.old at (Text·signed v) out.new result }
    ensures most { result ≤ at + 32 }
{
    let size = residual_data::inner::magnitude(v);
    if v < 0 {
        return named(out, at, b"-", size);
    }
    named(out, at, b"", size)
}

// Numbers, each behind a space.
pub(crate) fn spaced<N: Figure>(out: &mut [u8], at: usize, numbers: &[N]) -> usize
    requires { (at ≤ 40000) × (length numbers.now ≤ 400) }
    ensures text { Laid out.old at (Text·spaced (map N.value numbers.now)) out.new result }
    ensures most { result ≤ at + 32 * length numbers.now }
{
    let mut next = at;
    for &n in numbers {
        next = named(out, next, b" ", n);
    }
    next
}
