// The writing behind the checks 1 to 4, for runs over many frames: 13 to 16 are judged before a bit of the lent frame is touched.
ghost use Rattle.std.specs.Prelude.{◌≡◌, true, ◌&&◌, ◌||◌, ◌+◌, ◌*◌, ◌≤◌, ltb, leb, length, take};
ghost use Rattle.common.specs.TableSets.{coded_of};
ghost use Rattle.contexts.specs.First.{first_from};
ghost use Rattle.range_encoder.specs.Encoder.{start_encoder};
ghost use Rattle.range_encoder.specs.Private.{Fits};
ghost use Rattle.sending.specs.Sending.{put_bits, laid};
ghost use Rattle.sending.specs.Private.{Ready, put_all, sent_all, laid_all};
ghost use Rattle.residual_data.specs.Residual.{nonzero};
ghost use Rattle.frame_writer.specs.Frame.{fields_pass, symbols_of, early_bits, late_bits, tail_bits, reserved};
ghost use Rattle.frame_writer.specs.Returned.{content_of, written_of, told, frame_behind};
ghost use Rattle.frame_writer.specs.Private.{Judged, Passed, held_by, fails_at, write_fitting, write_on};

use crate::{Content, WriteError};
use common::configuration::Configuration;
use common::table_set::CodedTables;
use range_encoder::EncoderState;

// 13: the side fields and the TNS fields.
fn fields_pass(fs_ind: usize, ne: usize, content: &Content) -> bool
    requires { length content.now.indices ≡ 16 }
    ensures { result ≡ fields_pass fs_ind ne (content_of content.now) }
{
    let side = content.side;
    side_info::inner::passes(side, fs_ind, ne)
        && tns_data::inner::tns_passes(
            side.tns_first,
            side.tns_second,
            content.first_order,
            content.second_order,
            content.indices,
        )
}

// 14: a magnitude that a line may not have at its place.
fn line_fails(magnitude: usize, k: usize, lastnz: usize) -> bool
    ensures { result ≡ (ltb 32767 magnitude || leb lastnz k && ltb 0 magnitude) }
{
    32767 < magnitude || lastnz <= k && 0 < magnitude
}

// The first line that fails, or the place behind all.
fn first_failing(lines: &[i16], lastnz: usize) -> usize
    ensures { result ≡ first_from (fails_at lines.now lastnz) 0 (length lines.now) }
{
    for (k, &line) in lines.iter().enumerate() {
        if line_fails(contexts::inner::magnitude(line), k, lastnz) {
            return k;
        }
    }
    lines.len()
}

// The symbols for the head, sent or counted.
fn send_symbols(
    buf: &mut [u8],
    writing: bool,
    configuration: Configuration,
    ne: usize,
    tables: &CodedTables,
    content: &Content,
) -> EncoderState
    requires { Judged configuration ne (length buf.old) × Passed configuration.fs_ind ne (content_of content.now) × Ready writing start_encoder (length buf.old) (symbols_of configuration (coded_of tables.now) (8 * length buf.old) ne (content_of content.now)) }
    ensures state { result ≡ sent_all writing start_encoder (symbols_of configuration (coded_of tables.now) (8 * length buf.old) ne (content_of content.now)) }
    ensures lent { buf.new ≡ laid_all writing start_encoder buf.old (symbols_of configuration (coded_of tables.now) (8 * length buf.old) ne (content_of content.now)) }
{
    let bits = 8 * buf.len();
    let weighting = tns_data::inner::weighting_row(configuration.duration, bits);
    let rate = contexts::inner::rate_flag(bits, configuration.fs_ind);
    let behind = tns_data::inner::send_tns(
        buf,
        range_encoder::inner::ac_enc_init(),
        writing,
        &tables.tns,
        weighting,
        content.first_order,
        content.second_order,
        content.indices,
    );
    spectral_data::inner::send_pairs(
        buf,
        behind,
        writing,
        &tables.pairs,
        rate,
        ne,
        content.lines,
        content.side.lastnz as usize / 2,
    )
}

// The bits for the tail before what comes late, put or counted alone. Returns how many.
fn put_early(
    buf: &mut [u8],
    writing: bool,
    configuration: Configuration,
    ne: usize,
    content: &Content,
) -> usize
    requires { Judged configuration ne (length buf.old) × Passed configuration.fs_ind ne (content_of content.now) × (writing ≡ true → length (early_bits configuration.fs_ind ne (content_of content.now)) ≤ 8 * length buf.old) }
    ensures count { result ≡ length (early_bits configuration.fs_ind ne (content_of content.now)) }
    ensures lent { buf.new ≡ put_all writing buf.old 0 (early_bits configuration.fs_ind ne (content_of content.now)) }
{
    let side = content.side;
    let place = side_info::inner::side_length(side, configuration.fs_ind, ne);
    if writing {
        side_info::inner::put(buf, 0, side, configuration.fs_ind, ne);
    }
    let pairs = side.lastnz as usize / 2;
    spectral_data::inner::put_pairs(buf, writing, place, side.lsb == 1, content.lines, pairs)
}

// What the late bits are cut by.
fn held_back(reading: usize, st: EncoderState) -> usize
    requires { (Fits st) × (0x10000 ≤ st.range) × (st.out + st.held + st.pending ≤ 65535) }
    ensures { result ≡ held_by reading st }
{
    if reading == 0 {
        return range_encoder::inner::nbits_forecast(st);
    }
    range_encoder::inner::reserved_bits(st)
}

// What comes late, as far as there is room behind the bits before it.
fn put_late(buf: &mut [u8], place: usize, room: usize, content: &Content)
    requires { (length buf.old ≤ 65535) × (place + room ≤ 8 * length buf.old) × (content.now.side.lastnz ≤ length content.now.lines.now) × (length content.now.residual.now ≤ nonzero content.now.lines.now) }
    ensures { buf.new ≡ put_bits buf.old place (take room (late_bits (content_of content.now))) }
{
    let side = content.side;
    let lines = content.lines;
    let residual = content.residual;
    if side.lsb == 1 {
        residual_data::inner::put_late(buf, place, room, lines, side.lastnz as usize / 2);
        return;
    }
    residual_data::inner::put_residual(buf, place, room, lines, residual);
}

// A frame that has room for all: zeros, then both streams, then the finish.
fn fill(
    configuration: Configuration,
    ne: usize,
    tables: &CodedTables,
    content: &Content,
    frame: &mut [u8],
)
    requires { Judged configuration ne (length frame.old) × Passed configuration.fs_ind ne (content_of content.now) × (length (early_bits configuration.fs_ind ne (content_of content.now)) + reserved (symbols_of configuration (coded_of tables.now) (8 * length frame.old) ne (content_of content.now)) ≤ 8 * length frame.old) }
    ensures { frame.new ≡ laid configuration.reading (length frame.old) (symbols_of configuration (coded_of tables.now) (8 * length frame.old) ne (content_of content.now)) (tail_bits configuration (coded_of tables.now) (8 * length frame.old) ne (content_of content.now)) }
{
    let bits = 8 * frame.len();
    frame.fill(0);
    let st = send_symbols(frame, true, configuration, ne, tables, content);
    let early = put_early(frame, true, configuration, ne, content);
    let room = (bits - early).saturating_sub(held_back(configuration.reading, st));
    put_late(frame, early, room, content);
    range_encoder::inner::ac_enc_finish(frame, st, configuration.reading);
}

// 16, and the frame.
fn write_fitting(
    configuration: Configuration,
    ne: usize,
    tables: &CodedTables,
    content: &Content,
    frame: &mut [u8],
) -> Result<(), WriteError>
    requires { Judged configuration ne (length frame.old) × Passed configuration.fs_ind ne (content_of content.now) }
    ensures answer { written_of result ≡ told (write_fitting configuration (coded_of tables.now) ne (content_of content.now) (length frame.old)) }
    ensures lent { frame.new ≡ frame_behind (write_fitting configuration (coded_of tables.now) ne (content_of content.now) (length frame.old)) frame.old }
{
    let early = put_early(frame, false, configuration, ne, content);
    let st = send_symbols(frame, false, configuration, ne, tables, content);
    if 8 * frame.len() < early + range_encoder::inner::reserved_bits(st) {
        return Err(WriteError::NoRoom);
    }
    fill(configuration, ne, tables, content, frame);
    Ok(())
}

// A frame whose configuration, length, tables and number of lines have been judged.
pub fn write(
    configuration: Configuration,
    ne: usize,
    tables: &CodedTables,
    content: &Content,
    frame: &mut [u8],
) -> Result<(), WriteError>
    requires { Judged configuration ne (length frame.old) × (length content.now.lines.now ≡ ne) × (length content.now.indices ≡ 16) }
    ensures answer { written_of result ≡ told (write_on configuration (coded_of tables.now) ne (content_of content.now) (length frame.old)) }
    ensures lent { frame.new ≡ frame_behind (write_on configuration (coded_of tables.now) ne (content_of content.now) (length frame.old)) frame.old }
{
    if !fields_pass(configuration.fs_ind, ne, content) {
        return Err(WriteError::FieldOutside);
    }
    let place = first_failing(content.lines, content.side.lastnz as usize);
    if place < content.lines.len() {
        return Err(WriteError::LineOutside(place));
    }
    if residual_data::inner::nonzero_written(content.lines) < content.residual.len() {
        return Err(WriteError::ResidualTooLong);
    }
    write_fitting(configuration, ne, tables, content, frame)
}
