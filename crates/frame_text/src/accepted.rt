// The nine lines of an accepted frame, one behind the other.
ghost use Rattle.std.specs.Prelude.{◌≤◌};
ghost use Rattle.frame_text.specs.Private.{Laid, Printable, four_lines, seven_lines, nine_lines};

use crate::lines;
use frame_reader::Numbers;
use side_info::SideInfo;

fn four(out: &mut [u8], number: usize, reading: usize, bytes: usize, side: SideInfo) -> usize
    ensures text { Laid out.old 0 (four_lines number reading bytes side) out.new result }
    ensures most { result ≤ 1200 }
{
    let sns = side.sns;
    let a = lines::first(out, 0, number, bytes, reading);
    let b = lines::side(out, a, side);
    let c = lines::pitch(out, b, side);
    lines::sns(out, c, sns)
}

fn seven(
    out: &mut [u8],
    number: usize,
    reading: usize,
    bytes: usize,
    n: Numbers,
    indices: &[usize],
    residual: &[u8],
    values: &[i32],
) -> usize
    requires { Printable bytes n indices.now residual.now values.now }
    ensures text { Laid out.old 0 (seven_lines number reading bytes n indices.now residual.now values.now) out.new result }
    ensures most { result ≤ 50000 }
{
    let side = n.side;
    let a = four(out, number, reading, bytes, side);
    let b = lines::tns(out, a, n.first_order, n.second_order, indices);
    let c = lines::lines(out, b, values);
    lines::residual(out, c, n.residual_count, residual)
}

pub(crate) fn nine(
    out: &mut [u8],
    number: usize,
    reading: usize,
    bytes: usize,
    n: Numbers,
    indices: &[usize],
    residual: &[u8],
    values: &[i32],
) -> usize
    requires { Printable bytes n indices.now residual.now values.now }
    ensures { Laid out.old 0 (nine_lines number reading bytes n indices.now residual.now values.now) out.new result }
{
    let last = n.cursor;
    let a = seven(out, number, reading, bytes, n, indices, residual, values);
    let b = lines::seed(out, a, n.seed, n.zero);
    lines::used(out, b, bytes, last, n.range)
}
