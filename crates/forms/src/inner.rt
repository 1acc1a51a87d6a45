// The read of a reader, and the step on a lent state, with the struct in a local that is lent: what the call leaves is handed back by value.
ghost use Rattle.std.specs.Prelude.{◌≡◌};
ghost use Rattle.common.specs.Reply.{answer_by};
ghost use Rattle.buffer_reader.specs.Reads.{reply_of as buffer_reply};
ghost use Rattle.buffer_reader.specs.Reader.{taking, value_of, moved_to};
ghost use Rattle.range_decoder.specs.Decoder.{decode_symbol, reply_of as codec_reply};
ghost use Rattle.range_decoder.specs.Lent.{symbol_alone, state_behind};

use buffer_reader::reader::{Read, Reader};
use buffer_reader::{BufferError, Cursor};
use range_decoder::{CodecError, DecoderState};

// Where the reader stands behind a read, and what the read gave.
#[derive(Clone, Copy)]
pub struct Reached {
    pub at: Cursor,
    pub taken: Result<u32, BufferError>,
}

pub fn read_by(frame: &[u8], at: Cursor, read: Read) -> Reached
    ensures { (answer_by buffer_reply result.taken ≡ value_of (taking read frame.now at)) × (result.at ≡ moved_to at (taking read frame.now at)) }
{
    let mut r = Reader::new(frame);
    r.head = at.head;
    r.tail = at.tail;
    let taken = r.take(read);
    Reached { at: r.at(), taken }
}

// The state behind the step, and what the step gave.
#[derive(Clone, Copy)]
pub struct Gone {
    pub state: DecoderState,
    pub given: Result<(usize, Cursor), CodecError>,
}

pub fn step_by(before: DecoderState, buf: &[u8], at: Cursor, row: &[u16]) -> Gone
    ensures { (answer_by codec_reply result.given ≡ symbol_alone (decode_symbol before row.now buf.now at)) × (result.state ≡ state_behind before (decode_symbol before row.now buf.now at)) }
{
    let mut state = before;
    let given = range_decoder::lent::ac_decode(&mut state, buf, at, row);
    Gone { state, given }
}
