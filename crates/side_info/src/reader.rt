// The side information's reader, in document 01's order from the tail.
ghost use Rattle.std.specs.Prelude.{◌≡◌, ◌≤◌};
ghost use Rattle.common.specs.Reply.{answer_by};
ghost use Rattle.side_info.specs.Reader.{reply_of, read_side};
ghost use Rattle.side_info.specs.Private.{read_parts, read_sns};

use crate::fields::SideInfoError;
use crate::{SideInfo, Sns, fields};
use buffer_reader::Cursor;
use common::configuration::Configuration;

// Reads the side information of a frame of 20 to 400 bytes from any cursor.
pub fn read(
    buf: &[u8],
    at: Cursor,
    configuration: Configuration,
) -> Result<(SideInfo, Cursor), SideInfoError>
    ensures { answer_by reply_of result ≡ read_side configuration buf.now at }
{
    let ne = configuration.frame_lines(buf.len())?;
    read_all(buf, at, configuration.fs_ind, ne)
}

pub(crate) fn read_all(
    buf: &[u8],
    at: Cursor,
    fs_ind: usize,
    ne: usize,
) -> Result<(SideInfo, Cursor), SideInfoError>
    requires { (fs_ind ≤ 4) × (60 ≤ ne) × (ne ≤ 400) }
    ensures { answer_by reply_of result ≡ read_parts fs_ind ne buf.now at }
{
    let (bandwidth, at) = fields::bandwidth(buf, at, fs_ind)?;
    let (lastnz, at) = fields::lastnz(buf, at, ne)?;
    let (lsb, at) = fields::flag(buf, at)?;
    let (gain, at) = fields::field(buf, at, 8)?;
    let (tns_first, at) = fields::flag(buf, at)?;
    let (tns_second, at) = fields::flag_if(buf, at, 3 <= bandwidth)?;
    let (pitch, at) = fields::flag(buf, at)?;
    let (sns, at) = read_sns(buf, at)?;
    let (active, at) = fields::flag_if(buf, at, pitch == 1)?;
    let (index, at) = fields::field_if(buf, at, pitch == 1, 9)?;
    let (noise, at) = fields::field(buf, at, 3)?;
    let side = SideInfo {
        bandwidth,
        lastnz,
        lsb,
        gain,
        tns_first,
        tns_second,
        pitch,
        sns,
        active,
        index,
        noise,
    };
    Ok((side, at))
}

// The two indices, and the second stage by the joint index.
fn read_sns(buf: &[u8], at: Cursor) -> Result<(Sns, Cursor), SideInfoError>
    ensures { answer_by reply_of result ≡ read_sns buf.now at }
{
    let (lf, at) = fields::field(buf, at, 5)?;
    let (hf, at) = fields::field(buf, at, 5)?;
    let (msb, at) = fields::flag(buf, at)?;
    let (part, at) = fields::field(buf, at, fields::by_msb(msb, 1, 2))?;
    let (ls_inda, at) = fields::flag(buf, at)?;
    let (joint, at) = fields::joint(buf, at, msb)?;
    Ok((fields::sns_of(lf, hf, msb, part, ls_inda, joint), at))
}
