// The side information's writer: the record's fields laid behind one another at the tail of a lent frame.
ghost use Rattle.std.specs.Prelude.{◌≡◌, true, ◌&&◌, leb, ltb, ◌+◌, ◌*◌, ◌≤◌, length};
ghost use Rattle.common.specs.Reply.{answer_by};
ghost use Rattle.common.specs.Configuration.{reply_of as Configuration·reply_of};
ghost use Rattle.buffer_reader.specs.Reads;
ghost use Rattle.side_info.specs.Joint.{part_of, joint_of};
ghost use Rattle.side_info.specs.Record.{sns_passes, side_passes};
ghost use Rattle.side_info.specs.Layout.{side_fields, length_of, room_for, put_fields};
ghost use Rattle.side_info.specs.Writer.{reply_of, write_side, side_written};
ghost use Rattle.side_info.specs.Private.{write_fields, fields_written};
ghost use Rattle.side_info.specs.declared.writer.SideWriteError.TheVariants.{Buffer};

use crate::{SideInfo, Sns, fields, limits};
use buffer_reader::{BufferError, Cursor};
use common::configuration::{Configuration, ConfigurationError};

#[derive(Clone, Copy)]
pub enum SideWriteError {
    OutsideLimits,
    FieldOutside,
    Buffer(BufferError),
}

impl From<BufferError> for SideWriteError {
    ghost from_gives = { λ e r. r ≡ Buffer e };

    fn from(e: BufferError) -> SideWriteError {
        SideWriteError::Buffer(e)
    }
}

// Refusals 1 and 2 say here what they said there.
impl From<ConfigurationError> for SideWriteError {
    ghost from_gives = { λ e r. reply_of r ≡ Configuration·reply_of e };

    fn from(e: ConfigurationError) -> SideWriteError {
        match e {
            ConfigurationError::OutsideLimits => SideWriteError::OutsideLimits,
            ConfigurationError::WrongLength(len) => SideWriteError::Buffer(BufferError::WrongLength(
                len,
            )),
        }
    }
}

// A field's width, 0 where it is absent, and the number in it.
#[derive(Clone, Copy)]
pub struct Field(pub usize, pub u32);

// Writes a record at a cursor of a frame of 20 to 400 bytes.
pub fn write(
    buf: &mut [u8],
    at: Cursor,
    configuration: Configuration,
    side: SideInfo,
) -> Result<Cursor, SideWriteError>
    ensures answer { answer_by reply_of result ≡ write_side configuration side buf.old at }
    ensures lent { buf.new ≡ side_written configuration side buf.old at }
{
    let ne = configuration.frame_lines(buf.len())?;
    if !limits::side_passes(side, configuration.fs_ind, ne) {
        return Err(SideWriteError::FieldOutside);
    }
    let fields = fields_of(side, configuration.fs_ind, ne);
    write_fields(buf, at, &fields)
}

fn write_fields(buf: &mut [u8], at: Cursor, fields: &[Field]) -> Result<Cursor, SideWriteError>
    requires { (length buf.old ≤ 400) × (1 ≤ length_of fields.now) }
    ensures answer { answer_by reply_of result ≡ write_fields fields.now buf.old at }
    ensures lent { buf.new ≡ fields_written fields.now buf.old at }
{
    let tail = room_for(8 * buf.len(), at.tail, fields)?;
    put_fields(buf, at.tail, fields);
    Ok(Cursor { tail, ..at })
}

// The tail behind the fields, or refusal 9 for the first that has no room.
fn room_for(bits: usize, place: usize, fields: &[Field]) -> Result<usize, BufferError>
    ensures { answer_by Reads.reply_of result ≡ room_for bits place fields.now }
{
    let mut tail = place;
    for &Field(width, _) in fields {
        if passes_start(bits, tail, width) {
            return Err(buffer_reader::inner::no_tail_room(width, tail));
        }
        tail += width;
    }
    Ok(tail)
}

// The bits of fields that lie in a frame.
pub(crate) fn length_of(fields: &[Field]) -> usize
    requires { length_of fields.now ≤ 3200 }
    ensures { result ≡ length_of fields.now }
{
    let mut bits = 0;
    for &Field(width, _) in fields {
        bits += width;
    }
    bits
}

// Whether a field that is there passes the start.
fn passes_start(bits: usize, tail: usize, width: usize) -> bool
    ensures { result ≡ (leb 1 width && ltb bits (tail + width)) }
{
    1 <= width && buffer_writer::inner::beyond(bits, tail, width)
}

pub(crate) fn put_fields(buf: &mut [u8], place: usize, fields: &[Field])
    requires { (length buf.old ≤ 400) × (place + length_of fields.now ≤ 8 * length buf.old) }
    ensures { buf.new ≡ put_fields buf.old place fields.now }
{
    let mut at = place;
    for &Field(width, number) in fields {
        buffer_writer::inner::put_field(buf, at, number, width);
        at += width;
    }
}

fn part_of(s: Sns) -> u32
    ensures { result ≡ part_of s }
{
    if s.submode_lsb == 1 {
        s.gain / 2
    } else {
        s.gain
    }
}

fn joint_of(s: Sns) -> u32
    requires { sns_passes s ≡ true }
    ensures { result ≡ joint_of s }
{
    if s.msb == 0 {
        if s.submode_lsb == 1 {
            return s.gain % 2 * 2390004 + s.idx_a;
        }
        return (2 + 2 * s.idx_b + s.ls_indb) * 2390004 + s.idx_a;
    }
    if s.submode_lsb == 1 {
        15158272 + (2 * s.idx_a + s.gain % 2)
    } else {
        s.idx_a
    }
}

pub(crate) fn fields_of(s: SideInfo, fs_ind: usize, ne: usize) -> [Field; 16]
    requires { (fs_ind ≤ 4) × (60 ≤ ne) × (ne ≤ 400) × (side_passes fs_ind ne s ≡ true) }
    ensures { result ≡ side_fields fs_ind ne s }
{
    let sns = s.sns;
    let second = limits::if_there(3 <= s.bandwidth, 1) as usize;
    let active = limits::if_there(s.pitch == 1, 1) as usize;
    let index = limits::if_there(s.pitch == 1, 9) as usize;
    let part = part_of(sns);
    let joint = joint_of(sns);
    let part_bits = fields::by_msb(sns.msb, 1, 2);
    let joint_bits = fields::by_msb(sns.msb, 25, 24);
    let bandwidth_bits = fields::bandwidth_bits(fs_ind);
    let lastnz_bits = fields::lastnz_bits(ne);
    [
        Field(bandwidth_bits, s.bandwidth),
        Field(lastnz_bits, s.lastnz / 2 - 1),
        Field(1, s.lsb),
        Field(8, s.gain),
        Field(1, s.tns_first),
        Field(second, s.tns_second),
        Field(1, s.pitch),
        Field(5, sns.lf),
        Field(5, sns.hf),
        Field(1, sns.msb),
        Field(part_bits, part),
        Field(1, sns.ls_inda),
        Field(joint_bits, joint),
        Field(active, s.active),
        Field(index, s.index),
        Field(3, s.noise),
    ]
}
