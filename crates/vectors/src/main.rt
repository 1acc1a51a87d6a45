// Replays calls against the answers that are expected: records from standard input, a verdict last.
#![tactic(auto)]

mod agreement;
mod answers;
mod buffer_cases;
mod decoder_cases;
mod encoder_cases;
mod lists;
mod number;
mod quantisation_cases;
mod record;
mod report;
mod side_cases;
mod tally;

ghost use Rattle.std.specs.Prelude.{◌≤◌, ◌≡◌, length, IfOk};
ghost use Rattle.vectors.specs.Place.{Parts};

use record::{Record, Taken};
use std::io;
use std::io::{ErrorKind, Read};
use tally::{Input, Tally};

// One record: this code's answer beside the one that is expected. The first that differs is said at once.
fn replay(
    rt: &impl Print,
    buf: &mut [u8],
    lent: &[u8],
    r: Record,
    tally: Tally,
) -> io::Result<Tally>
    requires { Parts r (length buf.old) }
    ensures { IfOk result (λ next. next.lent ≡ tally.lent) }
{
    let numbers = number::all(&buf[8..r.bytes]);
    let ours = answers::answer(r.kind, numbers, &mut buf[r.bytes..r.want], lent);
    if agreed(buf, r, ours) {
        return Ok(tally.counted(r.kind));
    }
    if tally.differ == 0 {
        report::difference(rt, tally.records, buf, lent, r, ours)?;
    }
    Ok(tally.differed(r.kind))
}

// Bytes that a call leaves are compared where the record has any.
fn agreed(buf: &[u8], r: Record, ours: [usize; 24]) -> bool
    requires { Parts r (length buf.now) }
{
    agreement::same(number::all(&buf[r.want..r.left]), ours)
        && (r.left == r.end || agreement::agrees(&buf[r.left..r.end], &buf[r.bytes..r.want]))
}

fn turn<R: Read>(
    rt: &impl Print,
    from: &mut R,
    buf: &mut [u8],
    lent: &mut [u8],
    tally: Tally,
) -> io::Result<Tally>
    requires { (length buf.old ≡ 65536) × (length lent.old ≡ 65536) × (tally.lent ≤ 65536) }
    ensures { IfOk result (λ next. next.lent ≤ 65536) }
{
    match record::next(from, buf, lent)? {
        Taken::Whole(r) => replay(rt, buf, &lent[..tally.lent], r, tally),
        Taken::Lent(count) => Ok(tally.lends(count)),
        Taken::Ended => Ok(tally.ended(Input::Ended)),
        Taken::Cut => Ok(tally.ended(Input::Malformed)),
    }
}

// A loop has to end, and nothing says that an input does: the turns are counted to a number that no run comes to.
fn run<R: Read>(rt: &impl Print, from: &mut R, buf: &mut [u8], lent: &mut [u8]) -> io::Result<Tally>
    requires { (length buf.old ≡ 65536) × (length lent.old ≡ 65536) }
{
    let mut tally = Tally::new();
    for _ in 0..u64::MAX {
        if tally.input != Input::Going {
            break;
        }
        tally = turn(rt, from, buf, lent, tally)?;
    }
    Ok(tally)
}

fn replay_all(rt: &HostRuntime) -> io::Result<()> {
    let mut buf = [0u8; 65536];
    let mut lent = [0u8; 65536];
    let tally = run(rt, &mut rt.stdin(), &mut buf, &mut lent)?;
    report::report(rt, tally)
}

// A reader of the text that went away is no failure to tell of.
fn main(rt: HostRuntime) -> io::Result<()> {
    match replay_all(&rt) {
        Err(why) if why.kind() == ErrorKind::BrokenPipe => Ok(()),
        done => done,
    }
}
