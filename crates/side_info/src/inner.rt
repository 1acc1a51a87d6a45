// What the crates of this repository use without the checks: each call states what it requires.
ghost use Rattle.std.specs.Prelude.{◌≡◌, true, ◌+◌, ◌*◌, ◌≤◌, length};
ghost use Rattle.common.specs.Reply.{answer_by};
ghost use Rattle.side_info.specs.Reader.{reply_of, read_all};
ghost use Rattle.side_info.specs.Record.{side_passes};
ghost use Rattle.side_info.specs.Layout.{side_fields, side_length, put_fields};

use crate::fields::SideInfoError;
use crate::{SideInfo, limits, reader, writer};
use buffer_reader::Cursor;

// The side information of a frame whose configuration has been judged.
pub fn read(
    buf: &[u8],
    at: Cursor,
    fs_ind: usize,
    ne: usize,
) -> Result<(SideInfo, Cursor), SideInfoError>
    requires { (fs_ind ≤ 4) × (60 ≤ ne) × (ne ≤ 400) }
    ensures { answer_by reply_of result ≡ read_all fs_ind ne buf.now at }
{
    reader::read_all(buf, at, fs_ind, ne)
}

// Refusal 13, of the side fields.
pub fn passes(side: SideInfo, fs_ind: usize, ne: usize) -> bool
    ensures { result ≡ side_passes fs_ind ne side }
{
    limits::side_passes(side, fs_ind, ne)
}

// The bits of a record that passes.
pub fn side_length(side: SideInfo, fs_ind: usize, ne: usize) -> usize
    requires { (fs_ind ≤ 4) × (60 ≤ ne) × (ne ≤ 400) × (side_passes fs_ind ne side ≡ true) }
    ensures { result ≡ side_length fs_ind ne side }
{
    writer::length_of(&writer::fields_of(side, fs_ind, ne))
}

// A record that passes, at a tail place where it has room.
pub fn put(buf: &mut [u8], place: usize, side: SideInfo, fs_ind: usize, ne: usize)
    requires { (fs_ind ≤ 4) × (60 ≤ ne) × (ne ≤ 400) × (side_passes fs_ind ne side ≡ true) × (length buf.old ≤ 400) × (place + side_length fs_ind ne side ≤ 8 * length buf.old) }
    ensures { buf.new ≡ put_fields buf.old place (side_fields fs_ind ne side) }
{
    writer::put_fields(buf, place, &writer::fields_of(side, fs_ind, ne));
}
