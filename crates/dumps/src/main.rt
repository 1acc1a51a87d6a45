// Dumps the recordings that its arguments name, one after the other, each behind a line with its name.
#![tactic(auto)]

ghost use Rattle.dump_io.specs.Streams.{IsPrefixLen};

use std::env::FillError;
use std::fs;
use std::io::{Error, ErrorKind};
use std::rt::{Env, Files};

// A line on standard error: what failed, and why. Where that can not be written either, nobody is left to tell.
fn fail(rt: &impl Eprint, what: &str, why: Error) {
    let _ = eprintln!(rt; "{what}: {why}");
}

// What can not be written here, the dump behind it can not be either, and tells of it.
fn title(rt: &impl Print, name: &str) {
    let _ = println!(rt; "== {name}");
}

fn dump(rt: &HostRuntime, input: &[u8], n: usize)
    requires { IsPrefixLen n input.now }
{
    if let Err(why) = dump_io::inner::dump(&mut rt.stdout(), &input[..n]) {
        fail(rt, "standard output", why);
    }
}

fn one(rt: &HostRuntime, name: &str, input: &mut [u8]) {
    match fs::open(rt, name) {
        Ok(mut file) => {
            let got = dump_io::inner::take(&mut file, input);
            drop(file);
            title(rt, name);
            match got {
                Ok(n) => dump(rt, input, n),
                Err(why) => fail(rt, name, why),
            }
        }
        Err(why) => fail(rt, name, why),
    }
}

// A name is text, and has no more bytes than a path may have.
fn named(rt: &HostRuntime, name: &[u8], input: &mut [u8]) {
    match std::str::from_utf8(name) {
        Ok(text) => one(rt, text, input),
        Err(_) => fail(rt, "an argument", Error::from(ErrorKind::InvalidFilename)),
    }
}

fn each(rt: &HostRuntime, name: &mut [u8], input: &mut [u8]) {
    for i in 1..usize::MAX {
        match rt.arg(i, name) {
            Ok(n) => named(rt, &name[..n], input),
            Err(FillError::TooLong) => one(rt, "", input),
            Err(FillError::NotPresent) => return,
        }
    }
}

fn main(rt: HostRuntime) {
    let mut input = dump_io::inner::room();
    let mut name = [0u8; 4096];
    each(&rt, &mut name, &mut input);
}
