// The nine lines of an accepted frame, each laid from a place on.
ghost use Rattle.std.specs.Prelude.{◌≡◌, cond, ◌++◌, ◌+◌, ◌-◌, ◌*◌, ◌≤◌, length, take, drop, nat_abs};
ghost use Rattle.residual_data.specs.Residual.{used_bits};
ghost use Rattle.residual_data.specs.Private.{AtMost};
ghost use Rattle.frame_text.specs.Text.{named, first_line, side_line, pitch_line, sns_line, tns_line, line_text, each_line, lines_line, residual_line, seed_line, used_line};
ghost use Rattle.frame_text.specs.Private.{Laid};

use crate::put;
use buffer_reader::Cursor;
use side_info::{SideInfo, Sns};

pub(crate) fn first(out: &mut [u8], at: usize, number: usize, bytes: usize, reading: usize) -> usize
    requires { at ≤ 60000 }
    ensures text { Laid out.old at (first_line number bytes reading) out.new result }
    ensures most { result ≤ at + 300 }
{
    let a = put::named(out, at, b"frame ", number);
    let b = put::named(out, a, b" bytes ", bytes);
    let c = put::named(out, b, b" reading ", reading);
    put::word(out, c, b"\n")
}

pub(crate) fn side(out: &mut [u8], at: usize, side: SideInfo) -> usize
    requires { at ≤ 60000 }
    ensures text { Laid out.old at (side_line side) out.new result }
    ensures most { result ≤ at + 300 }
{
    let a = put::named(out, at, b"bandwidth ", side.bandwidth);
    let b = put::named(out, a, b" lastnz ", side.lastnz);
    let c = put::named(out, b, b" lsb ", side.lsb);
    let d = put::named(out, c, b" gain ", side.gain);
    let e = put::named(out, d, b" noise ", side.noise);
    put::word(out, e, b"\n")
}

pub(crate) fn pitch(out: &mut [u8], at: usize, side: SideInfo) -> usize
    requires { at ≤ 60000 }
    ensures text { Laid out.old at (pitch_line side) out.new result }
    ensures most { result ≤ at + 300 }
{
    let a = put::named(out, at, b"pitch ", side.pitch);
    let b = put::named(out, a, b" active ", side.active);
    let c = put::named(out, b, b" index ", side.index);
    put::word(out, c, b"\n")
}

fn sns_indices(out: &mut [u8], at: usize, sns: Sns) -> usize
    requires { at ≤ 60000 }
    ensures text { Laid out.old at (named "sns " sns.lf ++ named " " sns.hf ++ named " a " sns.ls_inda ++ named " " sns.idx_a ++ named " b " sns.ls_indb ++ named " " sns.idx_b) out.new result }
    ensures most { result ≤ at + 192 }
{
    let a = put::named(out, at, b"sns ", sns.lf);
    let b = put::named(out, a, b" ", sns.hf);
    let c = put::named(out, b, b" a ", sns.ls_inda);
    let d = put::named(out, c, b" ", sns.idx_a);
    let e = put::named(out, d, b" b ", sns.ls_indb);
    put::named(out, e, b" ", sns.idx_b)
}

pub(crate) fn sns(out: &mut [u8], at: usize, sns: Sns) -> usize
    requires { at ≤ 60000 }
    ensures text { Laid out.old at (sns_line sns) out.new result }
    ensures most { result ≤ at + 300 }
{
    let shape = 2 * (sns.msb as usize) + sns.submode_lsb as usize;
    let a = sns_indices(out, at, sns);
    let b = put::named(out, a, b" gain ", sns.gain);
    let c = put::named(out, b, b" shape ", shape);
    put::word(out, c, b"\n")
}

// Both orders, each before as many of its eight indices.
pub(crate) fn tns(
    out: &mut [u8],
    at: usize,
    first: usize,
    second: usize,
    indices: &[usize],
) -> usize
    requires { (at ≤ 30000) × (first ≤ 8) × (second ≤ 8) × (length indices.now ≡ 16) }
    ensures text { Laid out.old at (tns_line (record { order = first; indices = take first indices.now }) (record { order = second; indices = take second (drop 8 indices.now) })) out.new result }
    ensures most { result ≤ at + 600 }
{
    let a = put::named(out, at, b"tns ", first);
    let b = put::spaced(out, a, &indices[..first]);
    let c = put::named(out, b, b" ", second);
    let d = put::spaced(out, c, &indices[8..8 + second]);
    put::word(out, d, b"\n")
}

fn line(out: &mut [u8], at: usize, k: usize, v: i32) -> usize
    requires { (at ≤ 80000) × (nat_abs v ≤ 81920) }
    ensures text { Laid out.old at (line_text k v) out.new result }
    ensures most { result ≤ at + 76 }
{
    if v == 0 {
        return at;
    }
    let a = put::named(out, at, b" ", k);
    let b = put::word(out, a, b":");
    put::signed(out, b, v)
}

fn each(out: &mut [u8], at: usize, lines: &[i32]) -> usize
    requires { (at ≤ 40000) × (length lines.now ≤ 400) × AtMost 81920 lines.now }
    ensures text { Laid out.old at (each_line 0 lines.now) out.new result }
    ensures most { result ≤ at + 76 * length lines.now }
{
    let mut next = at;
    for (k, &v) in lines.iter().enumerate() {
        next = line(out, next, k, v);
    }
    next
}

pub(crate) fn lines(out: &mut [u8], at: usize, lines: &[i32]) -> usize
    requires { (at ≤ 30000) × (length lines.now ≤ 400) × AtMost 81920 lines.now }
    ensures text { Laid out.old at (lines_line lines.now) out.new result }
    ensures most { result ≤ at + 30500 }
{
    let count = residual_data::inner::nonzero(lines, lines.len());
    let a = put::named(out, at, b"lines ", count);
    let b = each(out, a, lines);
    put::word(out, b, b"\n")
}

pub(crate) fn residual(out: &mut [u8], at: usize, count: usize, bits: &[u8]) -> usize
    requires { (at ≤ 39000) × (count ≤ length bits.now) × (count ≤ 400) }
    ensures text { Laid out.old at (residual_line (take count bits.now)) out.new result }
    ensures most { result ≤ at + 12900 }
{
    let a = put::named(out, at, b"residual ", count);
    let b = put::spaced(out, a, &bits[..count]);
    put::word(out, b, b"\n")
}

pub(crate) fn seed(out: &mut [u8], at: usize, seed: u32, zero: bool) -> usize
    requires { at ≤ 60000 }
    ensures text { Laid out.old at (seed_line seed (cond zero 1 0)) out.new result }
    ensures most { result ≤ at + 300 }
{
    let a = put::named(out, at, b"seed ", seed);
    let b = put::named(out, a, b" zero ", usize::from(zero));
    put::word(out, b, b"\n")
}

pub(crate) fn used(out: &mut [u8], at: usize, bytes: usize, last: Cursor, range: u32) -> usize
    requires { (at ≤ 60000) × (bytes ≤ 400) × (3 ≤ last.head) × (last.head ≤ bytes) × (last.tail ≤ 8 * bytes) × (0x10000 ≤ range) × (range ≤ 0xFFFFFF) × (used_bits last range ≤ 8 * bytes) }
    ensures text { Laid out.old at (used_line (used_bits last range) (8 * bytes - used_bits last range)) out.new result }
{
    let used = residual_data::inner::used_bits(last, range);
    let spare = 8 * bytes - used;
    let a = put::named(out, at, b"used ", used);
    let b = put::named(out, a, b" spare ", spare);
    put::word(out, b, b"\n")
}
