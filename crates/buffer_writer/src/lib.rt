// Writes into a lent buffer from both ends: whole bytes, or a byte's top bits, at its head, bits at its tail. The cursor goes
// in by value and comes back in the answer; where the head and the tail meet nothing is refused.
#![tactic(auto)]

ghost use Rattle.std.specs.Prelude.{◌≡◌};
ghost use Rattle.common.specs.Reply.{answer_by};
ghost use Rattle.buffer_reader.specs.Reads.{reply_of};
ghost use Rattle.buffer_writer.specs.Writes.{write_field, write_bit, write_byte, write_top, field_written, bit_written, byte_written, top_written};

use buffer_reader::{BufferError, Cursor};

pub mod inner;
mod tail;

// The low bits of a value at the tail, the first of them lowest.
pub fn write_uint_backward(
    buf: &mut [u8],
    at: Cursor,
    val: u32,
    num_bits: usize,
) -> Result<Cursor, BufferError>
    ensures answer { answer_by reply_of result ≡ write_field buf.old at num_bits }
    ensures lent { buf.new ≡ field_written buf.old at val num_bits }
{
    let len = buf.len();
    if 65535 < len {
        return Err(BufferError::WrongLength(len));
    }
    if !buffer_reader::inner::listed(num_bits) {
        return Err(BufferError::WidthNotListed(num_bits));
    }
    let place = at.tail;
    if inner::beyond(8 * len, place, num_bits) {
        return Err(buffer_reader::inner::no_tail_room(num_bits, place));
    }
    inner::put_field(buf, place, val, num_bits);
    Ok(Cursor {
        tail: place + num_bits,
        ..at
    })
}

// One bit at the tail.
pub fn write_bool_backward(buf: &mut [u8], at: Cursor, bit: bool) -> Result<Cursor, BufferError>
    ensures answer { answer_by reply_of result ≡ write_bit buf.old at }
    ensures lent { buf.new ≡ bit_written buf.old at bit }
{
    let len = buf.len();
    if 65535 < len {
        return Err(BufferError::WrongLength(len));
    }
    let place = at.tail;
    if inner::beyond(8 * len, place, 1) {
        return Err(buffer_reader::inner::no_tail_room(1, place));
    }
    inner::put_bit(buf, place, u32::from(bit));
    Ok(Cursor {
        tail: place + 1,
        ..at
    })
}

// A byte at the head.
pub fn write_byte_forward(buf: &mut [u8], at: Cursor, val: u8) -> Result<Cursor, BufferError>
    ensures answer { answer_by reply_of result ≡ write_byte buf.old at }
    ensures lent { buf.new ≡ byte_written buf.old at val }
{
    let len = buf.len();
    let head = at.head;
    if 65535 < len {
        return Err(BufferError::WrongLength(len));
    }
    if len <= head {
        return Err(BufferError::PastEnd(head));
    }
    buf[head] = val;
    Ok(Cursor {
        head: head + 1,
        ..at
    })
}

// The top 1 to 8 bits of a byte at the head, which stays the next to be written.
pub fn write_uint_forward(
    buf: &mut [u8],
    at: Cursor,
    val: u8,
    num_bits: usize,
) -> Result<Cursor, BufferError>
    ensures answer { answer_by reply_of result ≡ write_top buf.old at num_bits }
    ensures lent { buf.new ≡ top_written buf.old at val num_bits }
{
    let len = buf.len();
    let head = at.head;
    if 65535 < len {
        return Err(BufferError::WrongLength(len));
    }
    if !(1..=8).contains(&num_bits) {
        return Err(BufferError::WidthNotListed(num_bits));
    }
    if len <= head {
        return Err(BufferError::PastEnd(head));
    }
    buf[head] = tail::with_top(buf[head], val, num_bits);
    Ok(at)
}
