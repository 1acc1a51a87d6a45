// The symbol step on a decoder state that is lent: a thin wrapper over the step by value.
ghost use Rattle.std.specs.Prelude.{◌≡◌};
ghost use Rattle.common.specs.Reply.{answer_by};
ghost use Rattle.range_decoder.specs.Decoder.{decode_symbol, reply_of};
ghost use Rattle.range_decoder.specs.Lent.{symbol_alone, state_behind};

use crate::{CodecError, DecoderState};
use buffer_reader::Cursor;

// One symbol, by a row that is lent alone. Refused, the state is as it was.
pub fn ac_decode(
    state: &mut DecoderState,
    buf: &[u8],
    at: Cursor,
    row: &[u16],
) -> Result<(usize, Cursor), CodecError>
    ensures { (answer_by reply_of result ≡ symbol_alone (decode_symbol state.old row.now buf.now at)) × (state.new ≡ state_behind state.old (decode_symbol state.old row.now buf.now at)) }
{
    let (symbol, behind, next) = crate::ac_decode(*state, buf, at, row)?;
    *state = behind;
    Ok((symbol, next))
}
