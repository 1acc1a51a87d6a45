// What is written: the first difference when it is met, and at the end the counts and the verdict.
ghost use Rattle.std.specs.Prelude.{length};
ghost use Rattle.vectors.specs.Place.{Parts};

use crate::record::Record;
use crate::tally::{Input, Tally};
use std::io;

// The bytes of a call that writes are as it left them here.
pub(crate) fn difference(
    rt: &impl Print,
    before: u64,
    buf: &[u8],
    lent: &[u8],
    r: Record,
    ours: [usize; 24],
) -> io::Result<()>
    requires { Parts r (length buf.now) }
{
    let record = before.saturating_add(1);
    let kind = r.kind;
    println!(rt; "first difference: record {record} kind {kind}")?;
    line(rt, "call", &buf[8..r.bytes])?;
    line(rt, "with", &buf[r.bytes..r.want])?;
    line(rt, "want", &buf[r.want..r.end])?;
    numbers(rt, ours)?;
    line(rt, "lent", lent)
}

fn line(rt: &impl Print, name: &str, bytes: &[u8]) -> io::Result<()> {
    print!(rt; "{name} ")?;
    for byte in bytes {
        print!(rt; "{byte:02x}")?;
    }
    println!(rt; "")
}

fn numbers(rt: &impl Print, ours: [usize; 24]) -> io::Result<()> {
    print!(rt; "here ")?;
    for number in &ours {
        print!(rt; "{number:016x}")?;
    }
    println!(rt; "")
}

// In the order of their kinds.
const MODULES: [&str; 6] = [
    "buffer_reader",
    "buffer_writer",
    "side_info",
    "range_decoder",
    "range_encoder",
    "spectral_quantization",
];

pub(crate) fn report(rt: &impl Print, tally: Tally) -> io::Result<()> {
    for (name, cases) in MODULES.iter().zip(&tally.cases) {
        module(rt, name, *cases)?;
    }
    verdict(rt, tally)
}

fn module(rt: &impl Print, name: &str, cases: u64) -> io::Result<()> {
    if cases == 0 {
        return Ok(());
    }
    println!(rt; "{name}: {cases} cases")
}

fn verdict(rt: &impl Print, tally: Tally) -> io::Result<()> {
    if tally.input == Input::Malformed {
        let record = tally.records.saturating_add(1);
        println!(rt; "malformed record {record}")
    } else if tally.records == 0 {
        println!(rt; "no cases")
    } else if tally.differ == 0 {
        println!(rt; "all agree")
    } else {
        let differ = tally.differ;
        println!(rt; "{differ} differ")
    }
}
