// Calls of buffer_reader and buffer_writer: head, tail, width and value; the bytes are the buffer.
use crate::answers::{none, of_buffer, told};
use crate::number::low;
use buffer_reader::reader::Read;
use buffer_reader::{BufferError, Cursor};
use forms::inner::Reached;

pub(crate) fn cursor(n: [usize; 24]) -> Cursor {
    Cursor {
        head: n[0],
        tail: n[1],
    }
}

// Each read goes through the reader that holds the frame, and so through the cursor's own read.
pub(crate) fn read(kind: u8, n: [usize; 24], buf: &[u8]) -> [usize; 24] {
    let at = cursor(n);
    let which = match kind {
        1 => Read::Byte,
        2 => Read::Three,
        3 => Read::Bits(n[2]),
        _ => Read::Bit,
    };
    reached(at, forms::inner::read_by(buf, at, which))
}

// A refused read has to leave the reader where it was: if not, the answer is none that is expected.
fn reached(at: Cursor, r: Reached) -> [usize; 24] {
    let next = r.at;
    match r.taken {
        Ok(value) => accepted(value as usize, next),
        Err(why) => {
            if next.head != at.head || next.tail != at.tail {
                return none();
            }
            of_buffer(why)
        }
    }
}

// Where the next call begins, and what was read.
pub(crate) fn accepted(value: usize, next: Cursor) -> [usize; 24] {
    told(&[0, next.head, next.tail, value])
}

pub(crate) fn write(kind: u8, n: [usize; 24], buf: &mut [u8]) -> [usize; 24] {
    match written(kind, n, buf) {
        Ok(next) => accepted(0, next),
        Err(why) => of_buffer(why),
    }
}

fn written(kind: u8, n: [usize; 24], buf: &mut [u8]) -> Result<Cursor, BufferError> {
    let at = cursor(n);
    let width = n[2];
    let value = n[3];
    let byte = (value % 256) as u8;
    match kind {
        17 => buffer_writer::write_uint_backward(buf, at, low(value), width),
        18 => buffer_writer::write_bool_backward(buf, at, value == 1),
        19 => buffer_writer::write_byte_forward(buf, at, byte),
        _ => buffer_writer::write_uint_forward(buf, at, byte, width),
    }
}
