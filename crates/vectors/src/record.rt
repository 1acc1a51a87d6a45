// Records of the input: a kind, how many numbers the call has and how many the answer, a byte each, and one of no meaning; how
// many bytes the call has and how many it leaves, two bytes each. Then the call's numbers and bytes, and the answer's.
ghost use Rattle.std.specs.Prelude.{◌≤◌, ◌≡◌, length, IfOk};
ghost use Rattle.vectors.specs.Place.{Parts, Placed};

use crate::number::two;
use std::io;
use std::io::Read;

// Where the parts stand in the buffer: the call's numbers from 8 on.
#[derive(Clone, Copy)]
pub(crate) struct Record {
    pub(crate) kind: u8,
    pub(crate) bytes: usize,
    pub(crate) want: usize,
    pub(crate) left: usize,
    pub(crate) end: usize,
}

// Kind 0 is no call: what stands in such a record is lent to those behind it, so many bytes.
#[derive(Clone, Copy)]
pub(crate) enum Taken {
    Whole(Record),
    Lent(usize),
    Ended,
    Cut,
}

fn parts(buf: &[u8]) -> Record
    requires { 8 ≤ length buf.now }
    ensures { Parts result result.end }
{
    let bytes = 8 + 8 * usize::from(buf[1]);
    let want = bytes + two(buf, 4);
    let left = want + 8 * usize::from(buf[2]);
    let end = left + two(buf, 6);
    Record {
        kind: buf[0],
        bytes,
        want,
        left,
        end,
    }
}

// Reads until `to` is full, or the input ends: how many bytes stand at its front.
fn fill<R: Read>(from: &mut R, to: &mut [u8]) -> io::Result<usize>
    ensures { IfOk result (λ got. got ≤ length to.new) }
{
    let mut done = 0;
    while done < to.len() {
        let got = from.read(&mut to[done..])?;
        if got == 0 {
            return Ok(done);
        }
        done += got;
    }
    Ok(done)
}

// Reads a record: to the front of `buf`, or what is lent to the front of `lent`.
pub(crate) fn next<R: Read>(from: &mut R, buf: &mut [u8], lent: &mut [u8]) -> io::Result<Taken>
    requires { (length buf.old ≡ 65536) × (length lent.old ≡ 65536) }
    ensures { IfOk result (λ taken. Placed taken 65536) }
{
    let got = fill(from, &mut buf[0..8])?;
    if got == 0 {
        return Ok(Taken::Ended);
    }
    if got < 8 {
        return Ok(Taken::Cut);
    }
    let r = parts(buf);
    if 65536 < r.end {
        return Ok(Taken::Cut);
    }
    if r.kind == 0 {
        return lend(from, lent, r.end - 8);
    }
    let got = fill(from, &mut buf[8..r.end])?;
    if got < r.end - 8 {
        return Ok(Taken::Cut);
    }
    Ok(Taken::Whole(r))
}

fn lend<R: Read>(from: &mut R, lent: &mut [u8], count: usize) -> io::Result<Taken>
    requires { (count ≤ 65536) × (length lent.old ≡ 65536) }
    ensures { IfOk result (λ taken. Placed taken 65536) }
{
    let got = fill(from, &mut lent[0..count])?;
    if got < count {
        return Ok(Taken::Cut);
    }
    Ok(Taken::Lent(count))
}
