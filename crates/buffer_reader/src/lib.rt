// Reads a frame from both ends: whole bytes from its head, bits from its tail. The cursor goes in by value and comes back
// in the answer.
#![tactic(auto)]

ghost use Rattle.std.specs.Prelude.{◌≡◌};
ghost use Rattle.common.specs.Reply.{answer_by};
ghost use Rattle.buffer_reader.specs.Reads.{take_byte, take_three, take_bits, take_bit, reply_of};

pub mod inner;
pub mod reader;
mod tail;

#[derive(Clone, Copy)]
pub struct Cursor {
    pub head: usize,
    pub tail: usize,
}

// Why a read or a write is refused, with the numbers of document 01; of 9, the tail cursor and not its bit index.
#[derive(Clone, Copy)]
pub enum BufferError {
    WrongLength(usize),
    WidthNotListed(usize),
    NoTailRoom(usize, usize),
    PastEnd(usize),
}

impl Cursor {
    pub fn new() -> Self
        ensures { (result.head ≡ 0) × (result.tail ≡ 0) }
    {
        Self { head: 0, tail: 0 }
    }

    // The next byte from the head.
    pub fn take_byte(self, buf: &[u8]) -> Result<(u8, Cursor), BufferError>
        ensures { answer_by reply_of result ≡ take_byte buf.now self }
    {
        let head = self.head;
        let len = buf.len();
        if 65535 < len {
            return Err(BufferError::WrongLength(len));
        }
        if len <= head {
            return Err(BufferError::PastEnd(head));
        }
        Ok((
            buf[head],
            Cursor {
                head: head + 1,
                ..self
            },
        ))
    }

    // The decoder's start: the next three bytes from the head, the first of them highest.
    pub fn take_three(self, buf: &[u8]) -> Result<(u32, Cursor), BufferError>
        ensures { answer_by reply_of result ≡ take_three buf.now self }
    {
        let head = self.head;
        let len = buf.len();
        if 65535 < len {
            return Err(BufferError::WrongLength(len));
        }
        // by a difference, since the cursor may be any number
        if len < 3 || len - 3 < head {
            return Err(BufferError::PastEnd(head));
        }
        let three = u32::from(buf[head]) * 65536
            + u32::from(buf[head + 1]) * 256
            + u32::from(buf[head + 2]);
        Ok((
            three,
            Cursor {
                head: head + 3,
                ..self
            },
        ))
    }

    // A field of so many bits from the tail, its first bit lowest.
    pub fn take_bits(self, buf: &[u8], num_bits: usize) -> Result<(u32, Cursor), BufferError>
        ensures { answer_by reply_of result ≡ take_bits buf.now self num_bits }
    {
        let len = buf.len();
        if 65535 < len {
            return Err(BufferError::WrongLength(len));
        }
        if !inner::listed(num_bits) {
            return Err(BufferError::WidthNotListed(num_bits));
        }
        let byte_index = self.tail / 8;
        let bit_index = self.tail % 8;
        let num_bytes = tail::bytes_wanted(num_bits, bit_index);
        if tail::field_beyond(len, num_bytes, self.head, byte_index) {
            return Err(inner::no_tail_room(num_bits, self.tail));
        }
        Ok((
            tail::field(buf, byte_index, bit_index, num_bits, num_bytes),
            Cursor {
                tail: self.tail + num_bits,
                ..self
            },
        ))
    }

    // One bit from the tail.
    pub fn take_bit(self, buf: &[u8]) -> Result<(bool, Cursor), BufferError>
        ensures { answer_by reply_of result ≡ take_bit buf.now self }
    {
        let len = buf.len();
        if 65535 < len {
            return Err(BufferError::WrongLength(len));
        }
        let byte_index = self.tail / 8;
        let bit_index = self.tail % 8;
        if tail::bit_beyond(len, self.head, byte_index) {
            return Err(inner::no_tail_room(1, self.tail));
        }
        let at = len - 1 - byte_index;
        Ok((
            (buf[at] >> bit_index) % 2 == 1,
            Cursor {
                tail: self.tail + 1,
                ..self
            },
        ))
    }
}
