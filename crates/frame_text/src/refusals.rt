// The line of a refused frame.
ghost use Rattle.std.specs.Prelude.{[], ◌∷◌, ◌++◌, ◌+◌, ◌≤◌, length, map};
ghost use Rattle.common.specs.Reply.{reply};
ghost use Rattle.coding.specs.Coding.{refusal_of, met_of};
ghost use Rattle.frame_reader.specs.Returned.{reply_of};
ghost use Rattle.frame_text.specs.Text.{decimal, named, spaced, reply_text, refused_text};
ghost use Rattle.frame_text.specs.Private.{Laid, numbers_text};

use crate::put;
use crate::put::Figure;
use coding::{Met, Refusal};
use frame_reader::FrameError;

// A refusal's number, and its values behind it.
fn numbers<N: Figure>(out: &mut [u8], at: usize, number: usize, values: &[N]) -> usize
    requires { (at ≤ 1000) × (length values.now ≤ 2) }
    ensures text { Laid out.old at (named " refused " number ++ spaced (map N.value values.now)) out.new result }
    ensures most { result ≤ at + 96 }
{
    let next = put::named(out, at, b" refused ", number);
    put::spaced(out, next, values)
}

// A refusal in no step, with no value or with one.
fn bare(out: &mut [u8], at: usize, number: usize) -> usize
    requires { at ≤ 1000 }
    ensures text { Laid out.old at (reply_text (reply number [])) out.new result }
    ensures most { result ≤ at + 160 }
{
    put::named(out, at, b" refused ", number)
}

fn valued<N: Figure>(out: &mut [u8], at: usize, number: usize, value: N) -> usize
    requires { at ≤ 1000 }
    ensures text { Laid out.old at (reply_text (reply number (N.value value ∷ []))) out.new result }
    ensures most { result ≤ at + 160 }
{
    numbers(out, at, number, &[value.value()])
}

fn refusal(out: &mut [u8], at: usize, e: Refusal) -> usize
    requires { at ≤ 1000 }
    ensures text { Laid out.old at (numbers_text (refusal_of e)) out.new result }
    ensures most { result ≤ at + 96 }
{
    match e {
        Refusal::NoTailRoom(width, place) => numbers(out, at, 9, &[width, place]),
        Refusal::PastEnd(head) => numbers(out, at, 10, &[head]),
        Refusal::LowBeyondLimit(low, limit) => numbers(out, at, 11, &[low, limit]),
    }
}

// A refusal in a step that has no number.
fn in_step(out: &mut [u8], at: usize, e: Refusal, step: &[u8]) -> usize
    requires { (at ≤ 1000) × (length step.now ≤ 12) }
    ensures text { Laid out.old at (numbers_text (refusal_of e) ++ step.now) out.new result }
    ensures most { result ≤ at + 160 }
{
    let next = refusal(out, at, e);
    put::word(out, next, step)
}

fn in_step_of(out: &mut [u8], at: usize, e: Refusal, step: &[u8], first: usize) -> usize
    requires { (at ≤ 1000) × (length step.now ≤ 12) }
    ensures text { Laid out.old at (numbers_text (refusal_of e) ++ (step.now ++ decimal first)) out.new result }
    ensures most { result ≤ at + 128 }
{
    let next = refusal(out, at, e);
    put::named(out, next, step, first)
}

fn in_step_at(
    out: &mut [u8],
    at: usize,
    e: Refusal,
    step: &[u8],
    first: usize,
    second: usize,
) -> usize
    requires { (at ≤ 1000) × (length step.now ≤ 12) }
    ensures text { Laid out.old at (numbers_text (refusal_of e) ++ (step.now ++ decimal first ++ named " " second)) out.new result }
    ensures most { result ≤ at + 160 }
{
    let a = refusal(out, at, e);
    let b = put::named(out, a, step, first);
    put::named(out, b, b" ", second)
}

fn met(out: &mut [u8], at: usize, m: Met) -> usize
    requires { at ≤ 1000 }
    ensures text { Laid out.old at (reply_text (met_of m)) out.new result }
    ensures most { result ≤ at + 160 }
{
    match m {
        Met::Side(e) => in_step(out, at, e, b" side"),
        Met::Start(e) => in_step(out, at, e, b" start"),
        Met::Order(f, e) => in_step_of(out, at, e, b" order ", f),
        Met::Coef(f, k, e) => in_step_at(out, at, e, b" coef ", f, k),
        Met::Symbol(pair, level, e) => in_step_at(out, at, e, b" symbol ", pair, level),
        Met::Bit(pair, level, e) => in_step_at(out, at, e, b" bit ", pair, level),
    }
}

fn error(out: &mut [u8], at: usize, e: FrameError) -> usize
    requires { at ≤ 1000 }
    ensures text { Laid out.old at (reply_text (reply_of e)) out.new result }
    ensures most { result ≤ at + 160 }
{
    match e {
        FrameError::OutsideLimits => bare(out, at, 1),
        FrameError::WrongLength(len) => valued(out, at, 2, len),
        FrameError::TablesFail => bare(out, at, 3),
        FrameError::WrongCount(count) => valued(out, at, 4, count),
        FrameError::BandwidthIdxOutOfRange(bandwidth) => valued(out, at, 5, bandwidth),
        FrameError::LastNonZeroTupleGreaterThanYLen(lastnz, ne) => {
            numbers(out, at, 6, &[lastnz as usize, ne])
        }
        FrameError::PlcTriggerSns1OutOfRange(j) => valued(out, at, 7, j),
        FrameError::PlcTriggerSns2OutOfRange(j) => valued(out, at, 8, j),
        FrameError::Step(m) => met(out, at, m),
        FrameError::FourteenEscapes(pair) => valued(out, at, 19, pair),
        FrameError::NegativeResidualNumBits => bare(out, at, 12),
    }
}

pub(crate) fn line(out: &mut [u8], number: usize, e: FrameError) -> usize
    ensures text { Laid out.old 0 (refused_text number (reply_of e)) out.new result }
{
    let a = put::named(out, 0, b"frame ", number);
    let b = error(out, a, e);
    put::word(out, b, b"\n")
}
