// The range decoder: its start and its symbol step. The state and the cursor go in by value and come back in the answer.
#![tactic(auto)]

ghost use Rattle.std.specs.Prelude.{◌≡◌};
ghost use Rattle.common.specs.Reply.{answer_by};
ghost use Rattle.range_decoder.specs.Decoder.{start_decoder, decode_symbol, symbol_of, reply_of};
ghost use Rattle.range_decoder.specs.declared.CodecError.TheVariants.{Buffer};

use buffer_reader::{BufferError, Cursor};

pub mod inner;
pub mod lent;
mod row;

#[derive(Clone, Copy)]
pub struct DecoderState {
    pub low: u32,
    pub range: u32,
}

// Why the coder refuses, with the numbers of document 01.
#[derive(Clone, Copy)]
pub enum CodecError {
    OutsideLimits,
    RowFails,
    LowBeyondLimit(u32, u32),
    Buffer(BufferError),
}

impl From<BufferError> for CodecError {
    ghost from_gives = { λ e r. r ≡ Buffer e };

    fn from(e: BufferError) -> CodecError {
        CodecError::Buffer(e)
    }
}

// The first three head bytes.
pub fn ac_dec_init(buf: &[u8], at: Cursor) -> Result<(DecoderState, Cursor), CodecError>
    ensures { answer_by reply_of result ≡ start_decoder buf.now at }
{
    let (low, next) = at.take_three(buf)?;
    let state = DecoderState {
        low,
        range: 0xffffff,
    };
    Ok((state, next))
}

// One symbol, by a row that is lent alone.
pub fn ac_decode(
    state: DecoderState,
    buf: &[u8],
    at: Cursor,
    row: &[u16],
) -> Result<(usize, DecoderState, Cursor), CodecError>
    ensures { symbol_of result ≡ decode_symbol state row.now buf.now at }
{
    if !inner::range_passes(state.range) {
        return Err(CodecError::OutsideLimits);
    }
    let len = buf.len();
    if 65535 < len {
        return Err(CodecError::Buffer(BufferError::WrongLength(len)));
    }
    if !common::tables::row_passes(row) {
        return Err(CodecError::RowFails);
    }
    inner::ac_decode(state, buf, at, row)
}
