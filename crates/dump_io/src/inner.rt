// Input up to a buffer's length, and the dump's steps written one after the other.
ghost use Rattle.std.specs.Prelude.{◌≡◌, ◌≤◌, suc, length, take, IfOk, OnOk};
ghost use Rattle.std.specs.Option.{IfSome};
ghost use Rattle.std.specs.Io.KnownBytes.{Appends};
ghost use Rattle.dumping.specs.Tables.{tables_in};
ghost use Rattle.dumping.specs.Dump.{started, dump_text};
ghost use Rattle.dumping.specs.Steps.{step_at, steps_text};
ghost use Rattle.dump_io.specs.Streams.{Within, IsFirst};
ghost use Rattle.dump_io.specs.Private.{Standing, Further, Leads, held};

use dumping::{HeldTables, Onward, State};
use std::io;
use std::io::{Error, ErrorKind, Read, Write};

// Room for the bytes that a dump can depend on: whether there is one behind the first 65,536, and no more.
pub fn room() -> [u8; 65537]
    ensures { 65537 ≡ length result }
{
    [0; 65537]
}

// Reads to the input's end, or until the buffer is full: how many bytes there are at the buffer's front.
pub fn take<R: Read>(from: &mut R, buf: &mut [u8]) -> io::Result<usize>
    ensures within { Within result buf.new }
    ensures first { IsFirst (R.remaining from.old) result buf.new }
{
    let mut done = 0;
    while done < buf.len() {
        // No byte is read at the input's end.
        let n = from.read(&mut buf[done..])?;
        if n == 0 {
            return Ok(done);
        }
        done += n;
    }
    Ok(done)
}

// A text that has no room in its buffer is not written.
fn put<W: Write>(to: &mut W, text: &[u8], n: usize) -> io::Result<()>
    ensures { OnOk result ((n ≤ length text.now) × Appends (W.contents to.old) (W.contents to.new) (take n text.now)) }
{
    if text.len() < n {
        return Err(Error::new(ErrorKind::WriteZero, "a text has no room"));
    }
    to.write_all(&text[..n])
}

// One step, written: the next offset and what is held there, or none where the dump ends.
fn turn<W: Write>(
    to: &mut W,
    input: &[u8],
    offset: usize,
    state: State,
    tables: &mut HeldTables,
    text: &mut [u8],
) -> io::Result<Option<(usize, State)>>
    requires { Standing (offset, state) }
    ensures further { IfOk result (λ next. IfSome next (λ q. Further (offset, state) q (length input.now))) }
    ensures written { OnOk result (Appends (W.contents to.old) (W.contents to.new) (step_at (held (offset, state) (tables_in tables.old)) input.now offset).text) }
    ensures leads { let s = step_at (held (offset, state) (tables_in tables.old)) input.now offset in
        IfOk result (λ next. Leads s.next s.held next (tables_in tables.new)) }
{
    let step = dumping::inner::step(
        input,
        offset,
        state,
        &mut tables.lookup,
        &mut tables.frequencies,
        &mut tables.bits,
        &mut tables.orders,
        &mut tables.coefficients,
        text,
    );
    put(to, text, step.text)?;
    match step.next {
        Onward::At(next) => Ok(Some((next, step.state))),
        Onward::End | Onward::Stop => Ok(None),
    }
}

fn run<W: Write>(
    to: &mut W,
    input: &[u8],
    tables: &mut HeldTables,
    text: &mut [u8],
) -> io::Result<()>
    ensures { OnOk result (Appends (W.contents to.old) (W.contents to.new) (steps_text (suc (length input.now)) (record { state = started; tables = tables_in tables.old }) input.now 0)) }
{
    let mut next = Some((0, State::start()));
    while let Some((offset, state)) = next {
        next = turn(to, input, offset, state, tables, text)?;
    }
    Ok(())
}

// Writes the dump of an input; on an error a part of it may be written.
pub fn dump<W: Write>(to: &mut W, input: &[u8]) -> io::Result<()>
    ensures { OnOk result (Appends (W.contents to.old) (W.contents to.new) (dump_text input.now)) }
{
    let mut text = [0u8; 65536];
    run(to, input, &mut HeldTables::blank(), &mut text)
}
