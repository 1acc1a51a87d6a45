// A symbol and a tail bit of a frame whose length has been judged: nothing but 9, 10 and 11 is left to refuse.
ghost use Rattle.std.specs.Prelude.{◌≡◌, true, ◌+◌, ◌≤◌, length, take, drop};
ghost use Rattle.common.specs.Reply.{answer_by};
ghost use Rattle.common.specs.Tables.{row_passes};
ghost use Rattle.buffer_reader.specs.Steps.{take_flag};
ghost use Rattle.buffer_reader.specs.Reads.{reply_of as buffer_reply};
ghost use Rattle.range_decoder.specs.Decoder.{range_passes, start_decoder, reply_of as codec_reply};
ghost use Rattle.coding.specs.Coding.{refusal_of, symbol_by};
ghost use Rattle.coding.specs.Private.{InStep, symbol_met_of};

use crate::Refusal;
use buffer_reader::{BufferError, Cursor};
use range_decoder::{CodecError, DecoderState};

// The buffer's refusals that a step can meet: the other two cannot come here.
pub fn of_buffer(e: BufferError) -> Refusal
    requires { InStep (buffer_reply e) }
    ensures { refusal_of result ≡ buffer_reply e }
{
    match e {
        BufferError::NoTailRoom(width, place) => Refusal::NoTailRoom(width, place),
        BufferError::PastEnd(head) => Refusal::PastEnd(head),
        BufferError::WrongLength(_) | BufferError::WidthNotListed(_) => unreachable!(),
    }
}

fn of_codec(e: CodecError) -> Refusal
    requires { InStep (codec_reply e) }
    ensures { refusal_of result ≡ codec_reply e }
{
    match e {
        CodecError::LowBeyondLimit(low, limit) => Refusal::LowBeyondLimit(low, limit),
        CodecError::Buffer(b) => of_buffer(b),
        CodecError::OutsideLimits | CodecError::RowFails => unreachable!(),
    }
}

// The decoder's start.
pub fn start(buf: &[u8], at: Cursor) -> Result<(DecoderState, Cursor), Refusal>
    requires { length buf.now ≤ 65535 }
    ensures { answer_by refusal_of result ≡ start_decoder buf.now at }
{
    range_decoder::ac_dec_init(buf, at).map_err(of_codec)
}

// A symbol by a row of a part of the table set. Where the row begins is the caller's to reckon, who knows the width as a number.
// Inlined, so that what it gives need not go through memory, where a result's parts overlap those of a refusal.
#[inline(always)]
pub fn symbol(
    state: DecoderState,
    buf: &[u8],
    at: Cursor,
    part: &[u16],
    first: usize,
    width: usize,
) -> Result<(usize, DecoderState, Cursor), Refusal>
    requires { (length buf.now ≤ 65535) × (range_passes state.range ≡ true) × (first + width ≤ length part.now) × (row_passes (take width (drop first part.now)) ≡ true) }
    ensures { symbol_met_of result ≡ symbol_by (take width (drop first part.now)) state buf.now at }
{
    range_decoder::inner::ac_decode(state, buf, at, &part[first..first + width]).map_err(of_codec)
}

// A tail bit as 0 or 1.
pub fn bit(buf: &[u8], at: Cursor) -> Result<(u32, Cursor), Refusal>
    requires { length buf.now ≤ 65535 }
    ensures { answer_by refusal_of result ≡ take_flag buf.now at }
{
    let (bit, next) = at.take_bit(buf).map_err(of_buffer)?;
    Ok((u32::from(bit), next))
}
