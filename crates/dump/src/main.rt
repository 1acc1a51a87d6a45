// Dumps the recording on standard input: tagged fields in, lines of text out. It takes no arguments.
#![tactic(auto)]

ghost use Rattle.dump_io.specs.Streams.{IsPrefixLen};

use std::io::{Error, ErrorKind};

// A line on standard error: what failed, and why. Where that can not be written either, nobody is left to tell.
fn fail(rt: &impl Eprint, what: &str, why: Error) {
    let _ = eprintln!(rt; "{what}: {why}");
}

// A reader of the text that went away is no failure to tell of.
fn dump(rt: &HostRuntime, input: &[u8], n: usize)
    requires { IsPrefixLen n input.now }
{
    if let Err(why) = dump_io::inner::dump(&mut rt.stdout(), &input[..n]) {
        if why.kind() != ErrorKind::BrokenPipe {
            fail(rt, "standard output", why);
        }
    }
}

fn main(rt: HostRuntime) {
    let mut input = dump_io::inner::room();
    match dump_io::inner::take(&mut rt.stdin(), &mut input) {
        Ok(n) => dump(&rt, &input, n),
        Err(why) => fail(&rt, "standard input", why),
    }
}
