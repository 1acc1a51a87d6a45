// One field of the side information each: a number and the next cursor, or the refusal.
ghost use Rattle.std.specs.Prelude.{◌≡◌, cond, eqb, ◌^◌, ◌≤◌, ◌<◌};
ghost use Rattle.common.specs.Reply.{answer_by};
ghost use Rattle.common.specs.Configuration.{reply_of as Configuration·reply_of};
ghost use Rattle.buffer_reader.specs.Steps.{if_present};
ghost use Rattle.side_info.specs.Joint.{sns_of, sns_of25};
ghost use Rattle.side_info.specs.Reader.{reply_of, side_field, side_flag, read_bandwidth, read_lastnz, read_joint, bandwidth_bits};
ghost use Rattle.side_info.specs.Reader.{lastnz_bits as Reader·lastnz_bits};
ghost use Rattle.side_info.specs.declared.fields.SideInfoError.TheVariants.{Buffer};

use crate::Sns;
use buffer_reader::{BufferError, Cursor};
use common::configuration::ConfigurationError;

// Why the side information is refused, with the numbers of document 01; a buffer's 9 stands in the step `side`.
#[derive(Clone, Copy)]
pub enum SideInfoError {
    OutsideLimits,
    BandwidthIdxOutOfRange(u32),
    LastNonZeroTupleGreaterThanYLen(u32, usize),
    PlcTriggerSns1OutOfRange(u32),
    PlcTriggerSns2OutOfRange(u32),
    Buffer(BufferError),
}

impl From<BufferError> for SideInfoError {
    ghost from_gives = { λ e r. r ≡ Buffer e };

    fn from(e: BufferError) -> SideInfoError {
        SideInfoError::Buffer(e)
    }
}

// Refusals 1 and 2 say here what they said there.
impl From<ConfigurationError> for SideInfoError {
    ghost from_gives = { λ e r. reply_of r ≡ Configuration·reply_of e };

    fn from(e: ConfigurationError) -> SideInfoError {
        match e {
            ConfigurationError::OutsideLimits => SideInfoError::OutsideLimits,
            ConfigurationError::WrongLength(len) => SideInfoError::Buffer(BufferError::WrongLength(
                len,
            )),
        }
    }
}

pub(crate) fn field(buf: &[u8], at: Cursor, num_bits: usize) -> Result<(u32, Cursor), SideInfoError>
    ensures { answer_by reply_of result ≡ side_field num_bits buf.now at }
{
    Ok(at.take_bits(buf, num_bits)?)
}

pub(crate) fn flag(buf: &[u8], at: Cursor) -> Result<(u32, Cursor), SideInfoError>
    ensures { answer_by reply_of result ≡ side_flag buf.now at }
{
    let (bit, next) = at.take_bit(buf)?;
    Ok((u32::from(bit), next))
}

pub(crate) fn flag_if(buf: &[u8], at: Cursor, present: bool) -> Result<(u32, Cursor), SideInfoError>
    ensures { answer_by reply_of result ≡ if_present present side_flag buf.now at }
{
    if present { flag(buf, at) } else { Ok((0, at)) }
}

pub(crate) fn field_if(
    buf: &[u8],
    at: Cursor,
    present: bool,
    num_bits: usize,
) -> Result<(u32, Cursor), SideInfoError>
    ensures { answer_by reply_of result ≡ if_present present (side_field num_bits) buf.now at }
{
    if present {
        field(buf, at, num_bits)
    } else {
        Ok((0, at))
    }
}

// The bits of the bandwidth field.
pub(crate) fn bandwidth_bits(fs_ind: usize) -> usize
    requires { fs_ind ≤ 4 }
    ensures { result ≡ bandwidth_bits fs_ind }
{
    [0, 1, 2, 2, 3][fs_ind]
}

pub(crate) fn bandwidth(
    buf: &[u8],
    at: Cursor,
    fs_ind: usize,
) -> Result<(u32, Cursor), SideInfoError>
    requires { fs_ind ≤ 4 }
    ensures { answer_by reply_of result ≡ read_bandwidth fs_ind buf.now at }
{
    let num_bits = bandwidth_bits(fs_ind);
    let (v, next) = field_if(buf, at, 0 < num_bits, num_bits)?;
    if fs_ind < v as usize {
        return Err(SideInfoError::BandwidthIdxOutOfRange(v));
    }
    Ok((v, next))
}

// The bits of the field of the last nonzero pair.
pub(crate) fn lastnz_bits(ne: usize) -> usize
    requires { (60 ≤ ne) × (ne ≤ 400) }
    ensures { result ≡ Reader·lastnz_bits ne }
{
    match ne / 2 {
        0..=32 => 5,
        33..=64 => 6,
        65..=128 => 7,
        _ => 8,
    }
}

pub(crate) fn lastnz(buf: &[u8], at: Cursor, ne: usize) -> Result<(u32, Cursor), SideInfoError>
    requires { (60 ≤ ne) × (ne ≤ 400) }
    ensures { answer_by reply_of result ≡ read_lastnz ne buf.now at }
{
    let (v, next) = field(buf, at, lastnz_bits(ne))?;
    let lastnz = 2 * (v + 1);
    if ne < lastnz as usize {
        return Err(SideInfoError::LastNonZeroTupleGreaterThanYLen(lastnz, ne));
    }
    Ok((lastnz, next))
}

// One number by msb 0, another by msb 1.
pub(crate) fn by_msb(msb: u32, zero: usize, one: usize) -> usize
    ensures { result ≡ cond (eqb msb 0) zero one }
{
    if msb == 0 { zero } else { one }
}

// The joint index, below its limit.
pub(crate) fn joint(buf: &[u8], at: Cursor, msb: u32) -> Result<(u32, Cursor), SideInfoError>
    ensures { answer_by reply_of result ≡ read_joint msb buf.now at }
{
    let (v, next) = field(buf, at, by_msb(msb, 25, 24))?;
    if msb == 0 && 33460056 <= v {
        return Err(SideInfoError::PlcTriggerSns1OutOfRange(v));
    }
    if msb != 0 && 16708096 <= v {
        return Err(SideInfoError::PlcTriggerSns2OutOfRange(v));
    }
    Ok((v, next))
}

// The second stage out of the joint index.
pub(crate) fn sns_of(lf: u32, hf: u32, msb: u32, part: u32, ls_inda: u32, joint: u32) -> Sns
    requires { (part ≤ 3) × (joint < 2 ^ 25) }
    ensures { result ≡ sns_of lf hf msb part ls_inda joint }
{
    if msb == 0 {
        return sns_of_25(lf, hf, part, ls_inda, joint / 2390004, joint % 2390004);
    }
    let whole = Sns {
        lf,
        hf,
        msb: 1,
        submode_lsb: 0,
        gain: part,
        ls_inda,
        idx_a: joint,
        ls_indb: 0,
        idx_b: 0,
    };
    if joint < 15158272 {
        return whole;
    }
    let j = joint - 15158272;
    Sns {
        submode_lsb: 1,
        gain: 2 * part + j % 2,
        idx_a: j / 2,
        ..whole
    }
}

// The same of 25 bits, by the quotient and the remainder.
fn sns_of_25(lf: u32, hf: u32, part: u32, ls_inda: u32, q: u32, rest: u32) -> Sns
    requires { (part ≤ 3) × (q < 15) }
    ensures { result ≡ sns_of25 lf hf part ls_inda q rest }
{
    let split = Sns {
        lf,
        hf,
        msb: 0,
        submode_lsb: 1,
        gain: 2 * part + q,
        ls_inda,
        idx_a: rest,
        ls_indb: 0,
        idx_b: 0,
    };
    if q < 2 {
        return split;
    }
    Sns {
        submode_lsb: 0,
        gain: part,
        ls_indb: (q - 2) % 2,
        idx_b: (q - 2) / 2,
        ..split
    }
}
