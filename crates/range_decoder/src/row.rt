// The search for the symbol that owns `low`: the row is halved, one product for each half, until one symbol is left.
ghost use Rattle.std.specs.Prelude.{◌≡◌, true, ℕ, ◌+◌, ◌-◌, ◌*◌, ◌^◌, ◌≤◌, ◌<◌, length, get_or};
ghost use Rattle.common.proofs.Halves.{Among};
ghost use Rattle.common.specs.Tables.{row_passes, cumulative};
ghost use Rattle.range_decoder.specs.Decoder.{owner};

#[derive(Clone, Copy)]
pub(crate) struct Owned {
    pub symbol: usize,
    pub base: u32,
    pub width: u32,
    pub products: usize,
}

// What a search has come to: the owner is among so many symbols from one on. The frequencies before it are summed, its part begins at
// base, and the parts that are left end at end.
#[derive(Clone, Copy)]
pub(crate) struct Rest {
    pub symbol: usize,
    pub left: usize,
    pub sum: u32,
    pub base: u32,
    pub end: u32,
    pub products: usize,
}

// A product, and how many were made with it.
#[derive(Clone, Copy)]
pub(crate) struct Product {
    pub value: u32,
    pub made: usize,
}

// The one place where the search multiplies, so that none goes uncounted.
fn times(unit: u32, sum: u32, made: usize) -> Product
    requires { (unit ≤ 16383) × (sum ≤ 1024) × (made < 10) }
    ensures { (result.value ≡ unit * sum) × (result.made ≡ made + 1) }
{
    Product {
        value: unit * sum,
        made: made + 1,
    }
}

// Frequencies added: what brings the cumulative at a place to the one so many places on.
fn two(row: &[u16], at: usize) -> u32
    requires { (row_passes row.now ≡ true) × (at + 2 ≤ length row.now) }
    ensures { cumulative row.now at + result ≡ cumulative row.now (at + 2) }
{
    u32::from(row[at]) + u32::from(row[at + 1])
}

fn four(row: &[u16], at: usize) -> u32
    requires { (row_passes row.now ≡ true) × (at + 4 ≤ length row.now) }
    ensures { cumulative row.now at + result ≡ cumulative row.now (at + 4) }
{
    two(row, at) + two(row, at + 2)
}

fn any(row: &[u16], at: usize, count: usize) -> u32
    requires { (row_passes row.now ≡ true) × (at + count ≤ length row.now) }
    ensures { cumulative row.now at + result ≡ cumulative row.now (at + count) }
{
    let mut sum: u32 = 0;
    for &frequency in &row[at..at + count] {
        sum += u32::from(frequency);
    }
    sum
}

// The halves of 16 symbols are summed without a loop: they are nearly all that a frame asks for.
fn sum_of(row: &[u16], at: usize, count: usize) -> u32
    requires { (row_passes row.now ≡ true) × (at + count ≤ length row.now) }
    ensures { cumulative row.now at + result ≡ cumulative row.now (at + count) }
{
    match count {
        1 => u32::from(row[at]),
        2 => two(row, at),
        4 => four(row, at),
        8 => four(row, at) + four(row, at + 4),
        _ => any(row, at, count),
    }
}

// One product: the owner is in the upper half, or in the lower. As many symbols are left either way, so that the turns do not hang on low.
fn turn(unit: u32, low: u32, row: &[u16], half: usize, rest: Rest) -> Rest
    requires { (unit ≤ 16383) × (row_passes row.now ≡ true) × (1 ≤ half) × (2 * half ≤ rest.left) × (rest.left ≤ 2 * half + 1) × Among row.now unit low rest.symbol rest.left rest.sum rest.base rest.end rest.products }
    ensures left { result.left ≡ rest.left - half }
    ensures among { Among row.now unit low result.symbol result.left result.sum result.base result.end result.products }
{
    let sum = rest.sum + sum_of(row, rest.symbol, half);
    let product = times(unit, sum, rest.products);
    if product.value <= low {
        return Rest {
            symbol: rest.symbol + half,
            left: rest.left - half,
            sum,
            base: product.value,
            products: product.made,
            ..rest
        };
    }
    Rest {
        left: rest.left - half,
        end: product.value,
        products: product.made,
        ..rest
    }
}

// Any number of symbols.
fn of_any(unit: u32, low: u32, row: &[u16], rest: Rest) -> Rest
    requires { (unit ≤ 16383) × (row_passes row.now ≡ true) × Among row.now unit low rest.symbol rest.left rest.sum rest.base rest.end rest.products }
    ensures left { result.left ≡ 1 }
    ensures among { Among row.now unit low result.symbol result.left result.sum result.base result.end result.products }
{
    let mut last = rest;
    while 1 < last.left {
        last = turn(unit, low, row, last.left / 2, last);
    }
    last
}

// Sixteen symbols in four turns, without a loop.
fn of_sixteen(unit: u32, low: u32, row: &[u16], rest: Rest) -> Rest
    requires { (unit ≤ 16383) × (row_passes row.now ≡ true) × (rest.left ≡ 16) × Among row.now unit low rest.symbol rest.left rest.sum rest.base rest.end rest.products }
    ensures left { result.left ≡ 1 }
    ensures among { Among row.now unit low result.symbol result.left result.sum result.base result.end result.products }
{
    let eight = turn(unit, low, row, 8, rest);
    let four = turn(unit, low, row, 4, eight);
    let two = turn(unit, low, row, 2, four);
    turn(unit, low, row, 1, two)
}

// Seventeen, as nearly every symbol of a frame has: one product tells the escape, which many of them are, from the sixteen before it.
fn of_seventeen(unit: u32, limit: u32, low: u32, row: &[u16]) -> Rest
    requires { (unit ≤ 16383) × (limit ≡ 1024 * unit) × (low < limit) × (row_passes row.now ≡ true) × (length row.now ≡ 17) }
    ensures left { result.left ≡ 1 }
    ensures among { Among row.now unit low result.symbol result.left result.sum result.base result.end result.products }
{
    let sum = 1024 - u32::from(row[16]);
    let first = times(unit, sum, 0);
    if first.value <= low {
        return Rest {
            symbol: 16,
            left: 1,
            sum,
            base: first.value,
            end: limit,
            products: first.made,
        };
    }
    let rest = Rest {
        symbol: 0,
        left: 16,
        sum: 0,
        base: 0,
        end: first.value,
        products: first.made,
    };
    of_sixteen(unit, low, row, rest)
}

// One symbol is left: the owner.
fn last_left(unit: u32, limit: u32, low: u32, row: &[u16]) -> Rest
    requires { (unit ≤ 16383) × (limit ≡ 1024 * unit) × (low < limit) × (row_passes row.now ≡ true) }
    ensures left { result.left ≡ 1 }
    ensures among { Among row.now unit low result.symbol result.left result.sum result.base result.end result.products }
{
    if row.len() == 17 {
        return of_seventeen(unit, limit, low, row);
    }
    let rest = Rest {
        symbol: 0,
        left: row.len(),
        sum: 0,
        base: 0,
        end: limit,
        products: 0,
    };
    of_any(unit, low, row, rest)
}

// The owner, where its part of the range begins, how wide that is, and how many products it took: of n symbols at most ceil(log2 n),
// the least k with n at most 2^k; just so many for every symbol but the last.
pub(crate) fn search(unit: u32, limit: u32, low: u32, row: &[u16]) -> Owned
    requires { (unit ≤ 16383) × (limit ≡ 1024 * unit) × (low < limit) × (row_passes row.now ≡ true) }
    ensures symbol { result.symbol ≡ owner unit low row.now }
    ensures base { result.base ≡ unit * cumulative row.now result.symbol }
    ensures width { result.width ≡ unit * get_or row.now result.symbol 0 }
    ensures products { (k : ℕ) → length row.now ≤ 2 ^ k → result.products ≤ k }
    ensures counted { (1 < length row.now → 1 ≤ result.products) × (result.symbol + 1 < length row.now → length row.now ≤ 2 ^ result.products) }
{
    let rest = last_left(unit, limit, low, row);
    Owned {
        symbol: rest.symbol,
        base: rest.base,
        width: rest.end - rest.base,
        products: rest.products,
    }
}
