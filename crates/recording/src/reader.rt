// The field at an offset of a recording, by what came before it. No content is copied.
ghost use Rattle.std.specs.Prelude.{◌≡◌, ◌+◌, ◌≤◌, leb, length};
ghost use Rattle.recording.specs.Tagged.{suits as Tagged·suits, nothing, after as Tagged·after, table_seen, ready as Tagged·ready, in_order, header_at, formed as Tagged·formed, field_at, answer_of};

use crate::tags;

// The longest content.
pub const FIELD_MOST: usize = 4096;

// Which fields came before.
#[derive(Clone, Copy)]
pub struct Before {
    pub configuration: bool,
    pub lookup: bool,
    pub frequencies: bool,
    pub bits: bool,
    pub orders: bool,
    pub coefficients: bool,
}

// A field: where its tag byte stands, where its content begins, and how long that is.
#[derive(Clone, Copy)]
pub struct Field {
    pub tag: u8,
    pub at: usize,
    pub content: usize,
    pub size: usize,
}

// Refusal 18: the offset where the field begins that is malformed.
#[derive(Clone, Copy)]
pub struct Malformed(pub usize);

impl Before {
    pub fn nothing() -> Before
        ensures { result ≡ nothing }
    {
        Before {
            configuration: false,
            lookup: false,
            frequencies: false,
            bits: false,
            orders: false,
            coefficients: false,
        }
    }

    // The same with a field of that tag behind it.
    pub fn after(self, tag: u8) -> Before
        ensures { result ≡ Tagged·after self tag }
    {
        Before {
            configuration: self.configuration || tag == tags::CONFIGURATION,
            lookup: self.lookup || tag == tags::LOOKUP,
            frequencies: self.frequencies || tag == tags::FREQUENCIES,
            bits: self.bits || tag == tags::BITS,
            orders: self.orders || tag == tags::ORDERS,
            coefficients: self.coefficients || tag == tags::COEFFICIENTS,
        }
    }

    fn table_seen(self, tag: u8) -> bool
        ensures { result ≡ table_seen self tag }
    {
        match tag {
            tags::LOOKUP => self.lookup,
            tags::FREQUENCIES => self.frequencies,
            tags::BITS => self.bits,
            tags::ORDERS => self.orders,
            tags::COEFFICIENTS => self.coefficients,
            _ => false,
        }
    }

    fn ready(self) -> bool
        ensures { result ≡ Tagged·ready self }
    {
        self.configuration
            && self.lookup
            && self.frequencies
            && self.bits
            && self.orders
            && self.coefficients
    }

    fn in_order(self, tag: u8) -> bool
        ensures { result ≡ in_order self tag }
    {
        if tag == tags::FRAME {
            return self.ready();
        }
        !self.table_seen(tag)
    }
}

// Every tag that is known, with its length.
fn suits(tag: u8, size: usize) -> bool
    ensures { result ≡ Tagged·suits tag size }
{
    match tag {
        tags::CONFIGURATION => size == 3,
        tags::FRAME => true,
        tags::LOOKUP => size == 4096,
        tags::FREQUENCIES | tags::BITS => size == 2176,
        tags::ORDERS => size == 32,
        tags::COEFFICIENTS => size == 272,
        _ => false,
    }
}

fn formed(before: Before, x: Field) -> bool
    ensures { result ≡ Tagged·formed before x }
{
    suits(x.tag, x.size) && x.size <= FIELD_MOST && before.in_order(x.tag)
}

// The two bytes of a length are a number below 65,536.
fn header(input: &[u8], at: usize) -> Field
    requires { at + 3 ≤ length input.now }
    ensures { result ≡ header_at input.now at }
{
    let size = usize::from(u16::from_be_bytes([input[at + 1], input[at + 2]]));
    Field {
        tag: input[at],
        at,
        content: at + 3,
        size,
    }
}

// Whether so many bytes behind an offset end within a length, by differences: the sum need not fit.
pub(crate) fn within(at: usize, bytes: usize, len: usize) -> bool
    ensures { result ≡ leb (at + bytes) len }
{
    bytes <= len && at <= len - bytes
}

pub fn field_at(
    input: &[u8],
    offset: usize,
    most: usize,
    before: Before,
) -> Result<Option<Field>, Malformed>
    ensures { answer_of result ≡ field_at most before input.now offset }
{
    let len = input.len();
    if offset == len {
        return Ok(None);
    }
    if !within(offset, 3, len) {
        return Err(Malformed(offset));
    }
    let x = header(input, offset);
    let whole = within(x.content, x.size, len) && within(x.content, x.size, most);
    if !(whole && formed(before, x)) {
        return Err(Malformed(offset));
    }
    Ok(Some(x))
}
