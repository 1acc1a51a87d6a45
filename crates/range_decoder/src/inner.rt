// The symbol step without the checks of what was lent, for the frame reader.
ghost use Rattle.std.specs.Prelude.{◌≡◌, true, ◌*◌, ◌<◌};
ghost use Rattle.common.specs.Reply.{answer_by};
ghost use Rattle.common.specs.Tables.{row_passes};
ghost use Rattle.range_decoder.specs.Decoder.{range_passes, symbol_step, symbol_of, append_byte, renormalised, reply_of};
ghost use Rattle.range_decoder.specs.Private.{Below};

use crate::{CodecError, DecoderState};
use buffer_reader::Cursor;

pub fn range_passes(range: u32) -> bool
    ensures { result ≡ range_passes range }
{
    (0x10000..=0xffffff).contains(&range)
}

// One turn of the renormalising: a byte where the range has fallen below 0x10000.
fn append(state: DecoderState, buf: &[u8], at: Cursor) -> Result<(DecoderState, Cursor), CodecError>
    requires { Below state }
    ensures { answer_by reply_of result ≡ append_byte state buf.now at }
{
    if 0x10000 <= state.range {
        return Ok((state, at));
    }
    let (byte, next) = at.take_byte(buf)?;
    let wider = DecoderState {
        low: state.low * 256 + u32::from(byte),
        range: state.range * 256,
    };
    Ok((wider, next))
}

fn append_twice(
    state: DecoderState,
    buf: &[u8],
    at: Cursor,
) -> Result<(DecoderState, Cursor), CodecError>
    requires { Below state }
    ensures { answer_by reply_of result ≡ renormalised state buf.now at }
{
    let (once, next) = append(state, buf, at)?;
    append(once, buf, next)
}

// The symbol step on a state, a buffer and a row that the caller has judged. Inlined with the symbol that it is of.
#[inline(always)]
pub fn ac_decode(
    state: DecoderState,
    buf: &[u8],
    at: Cursor,
    row: &[u16],
) -> Result<(usize, DecoderState, Cursor), CodecError>
    requires { (range_passes state.range ≡ true) × (row_passes row.now ≡ true) }
    ensures { symbol_of result ≡ symbol_step state row.now buf.now at }
{
    let unit = state.range >> 10;
    let limit = 1024 * unit;
    if limit <= state.low {
        return Err(CodecError::LowBeyondLimit(state.low, limit));
    }
    let owned = crate::row::search(unit, limit, state.low, row);
    let part = DecoderState {
        low: state.low - owned.base,
        range: owned.width,
    };
    let (behind, next) = append_twice(part, buf, at)?;
    Ok((owned.symbol, behind, next))
}
