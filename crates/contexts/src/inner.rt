// Each notion of specs/Contexts as a call that states what it requires.
ghost use Rattle.std.specs.Prelude.{◌≡◌, true, ◌+◌, ◌*◌, ◌≤◌, ◌<◌, nat_abs, length, get_or};
ghost use Rattle.common.specs.Tables.{lookup_passes};
ghost use Rattle.contexts.specs.Contexts.{rate_flag, lookup_start, row_of, fits_symbol, symbol_from, next_context, pair_symbol, context_behind};
ghost use Rattle.contexts.specs.Contexts as Contexts;
ghost use Rattle.contexts.specs.Lines.{line_at, escapes_at};
ghost use Rattle.contexts.specs.Lines as Lines;

// 512 for a frame of more bits than the sampling rate's limit, and 0 otherwise.
pub fn rate_flag(bits: usize, fs_ind: usize) -> usize
    requires { fs_ind ≤ 4 }
    ensures { result ≡ rate_flag bits fs_ind }
{
    if 160 + 160 * fs_ind < bits { 512 } else { 0 }
}

// Where the lookup of the pair at a line begins.
pub fn lookup_start(context: usize, rate: usize, ne: usize, line: usize) -> usize
    requires { (context ≤ 255) × (rate ≤ 512) }
    ensures { result ≡ lookup_start context rate ne line }
{
    if line > ne / 2 {
        context + rate + 256
    } else {
        context + rate
    }
}

// The row that codes a symbol at a level.
pub fn row(lookup: &[u8], start: usize, level: usize) -> usize
    requires { (lookup_passes lookup.now ≡ true) × (start < 1024) }
    ensures { result ≡ row_of lookup.now start level }
{
    usize::from(lookup[start + 1024 * level.min(3)])
}

// The magnitude of a line, -32768 included.
pub fn magnitude(line: i16) -> usize
    ensures { result ≡ nat_abs line }
{
    usize::from(line.unsigned_abs())
}

// The magnitude of the line at a place: all that follows goes by these.
pub fn magnitude_at(lines: &[i16], k: usize) -> usize
    requires { k < length lines.now }
    ensures value { result ≡ get_or (Contexts.magnitudes lines.now) k 0 }
    ensures most { result ≤ 32768 }
{
    magnitude(lines[k])
}

// How many escapes stand before the symbol of a pair.
pub fn escapes(a: usize, b: usize) -> usize
    requires { (a < 65536) × (b < 65536) }
    ensures { result ≡ Contexts.escapes a b }
{
    for n in 0..14 {
        if fits_symbol(a, b, n) {
            return n;
        }
    }
    14
}

fn fits_symbol(a: usize, b: usize, n: usize) -> bool
    requires { n < 64 }
    ensures { result ≡ fits_symbol a b n }
{
    a >> n < 4 && b >> n < 4
}

// The symbol of what is left of a pair behind its escapes.
pub fn symbol(a: usize, b: usize) -> usize
    requires { (a < 4) × (b < 4) }
    ensures { result ≡ symbol_from a b }
{
    a + 4 * b
}

// The context behind a pair, by the two parts of its symbol and its level.
pub fn next_context(context: usize, a: usize, b: usize, level: usize) -> usize
    requires { a + b ≤ 7 }
    ensures { result ≡ next_context context a b level }
{
    context % 16 * 16 + trace(a, b, level.min(3))
}

fn trace(a: usize, b: usize, level: usize) -> usize
    requires { (a + b ≤ 7) × (level ≤ 3) }
    ensures { result ≡ Contexts.trace a b level }
{
    if level <= 1 {
        1 + (a + b) * (level + 1)
    } else {
        12 + level
    }
}

// The symbol behind the n escapes of a pair of magnitudes.
pub fn pair_symbol(a: usize, b: usize, n: usize) -> usize
    requires { (a < 65536) × (b < 65536) × (n ≡ Contexts.escapes a b) }
    ensures { result ≡ pair_symbol a b }
{
    symbol(a >> n, b >> n)
}

// The context behind a pair of magnitudes with n escapes.
pub fn context_behind(context: usize, a: usize, b: usize, n: usize) -> usize
    requires { (a < 65536) × (b < 65536) × (n ≡ Contexts.escapes a b) }
    ensures { result ≡ context_behind context a b }
{
    next_context(context, a >> n, b >> n, n)
}

// The sign of the line at a place, 1 for minus.
pub fn minus_at(lines: &[i16], k: usize) -> u32
    requires { k < length lines.now }
    ensures { (result ≡ Lines.minus (line_at lines.now k)) × (result < 2) }
{
    u32::from(lines[k] < 0)
}

// The escapes of a pair of the lines.
pub fn escapes_at(lines: &[i16], p: usize) -> usize
    requires { 2 * p + 1 < length lines.now }
    ensures { (result ≡ escapes_at lines.now p) × (result ≤ 14) }
{
    escapes(magnitude_at(lines, 2 * p), magnitude_at(lines, 2 * p + 1))
}
