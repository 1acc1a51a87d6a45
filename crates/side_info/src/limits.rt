// Refusal 13: whether a record is one that the reader can return.
ghost use Rattle.std.specs.Prelude.{◌≡◌, ◌≤◌};
ghost use Rattle.side_info.specs.Record.{if_there, gain_most, idx_most, sns_passes, side_passes};

use crate::{SideInfo, Sns};

// A field's largest value, or its width: 0 where the field is absent.
pub(crate) fn if_there(there: bool, n: u32) -> u32
    ensures { result ≡ if_there there n }
{
    if there { n } else { 0 }
}

fn gain_most(shape: u32) -> u32
    requires { shape ≤ 3 }
    ensures { result ≡ gain_most shape }
{
    [1, 3, 3, 7][shape as usize]
}

fn idx_most(shape: u32) -> u32
    requires { shape ≤ 3 }
    ensures { result ≡ idx_most shape }
{
    [2390003, 2390003, 15158271, 774911][shape as usize]
}

pub(crate) fn sns_passes(s: Sns) -> bool
    ensures { result ≡ sns_passes s }
{
    if 1 < s.msb || 1 < s.submode_lsb {
        return false;
    }
    let shape = 2 * s.msb + s.submode_lsb;
    s.lf <= 31
        && s.hf <= 31
        && s.gain <= gain_most(shape)
        && s.ls_inda <= 1
        && s.idx_a <= idx_most(shape)
        && s.ls_indb <= if_there(shape == 0, 1)
        && s.idx_b <= if_there(shape == 0, 5)
}

pub(crate) fn side_passes(s: SideInfo, fs_ind: usize, ne: usize) -> bool
    ensures { result ≡ side_passes fs_ind ne s }
{
    s.bandwidth as usize <= fs_ind
        && s.lastnz % 2 == 0
        && 2 <= s.lastnz
        && s.lastnz as usize <= ne
        && s.lsb <= 1
        && s.gain <= 255
        && s.tns_first <= 1
        && s.tns_second <= if_there(3 <= s.bandwidth, 1)
        && s.pitch <= 1
        && sns_passes(s.sns)
        && s.active <= if_there(s.pitch == 1, 1)
        && s.index <= if_there(s.pitch == 1, 511)
        && s.noise <= 7
}
