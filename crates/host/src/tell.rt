// What was read, or why a frame was not written, laid over the host's slices.
ghost use Rattle.std.specs.Prelude.{◌≡◌};
ghost use Rattle.std.proofs.lemmas.List.Edits.{sets};
ghost use Rattle.common.specs.Reply.{answer_by, unless_refused};
ghost use Rattle.frame_reader.specs.Returned.{reply_of};
ghost use Rattle.frame_writer.specs.Returned.{written_of};
ghost use Rattle.host.specs.Told.{number_of, words_of, counts_of, place_of, words_behind, numbers_behind, place_behind, next_or_place};
ghost use Rattle.recording.specs.Writer.{written_of as Field·written_of};

use crate::told;
use common::inner::lay;
use frame_reader::{FrameError, FrameRead, Numbers};
use frame_writer::WriteError;
use recording::writer::FieldWriteError;

fn tell_lists(answer: FrameRead, indices: &mut [usize], residual: &mut [u8])
    ensures tns { indices.new ≡ sets indices.old 0 answer.indices }
    ensures list { residual.new ≡ sets residual.old 0 answer.residual }
{
    lay(indices, &answer.indices);
    lay(residual, &answer.residual);
}

fn tell_numbers(n: Numbers, words: &mut [u32], numbers: &mut [usize])
    ensures sums { words.new ≡ sets words.old 0 (words_of n) }
    ensures counts { numbers.new ≡ sets numbers.old 0 (counts_of n) }
{
    lay(words, &told::words(n));
    lay(numbers, &told::counts(n));
}

fn tell_refusal(e: FrameError, numbers: &mut [usize]) -> u32
    ensures number { result ≡ (reply_of e).number }
    ensures place { numbers.new ≡ sets numbers.old 0 (place_of (reply_of e)) }
{
    lay(numbers, &told::place(e));
    told::number(e)
}

pub(crate) fn tell(
    answer: FrameRead,
    words: &mut [u32],
    numbers: &mut [usize],
    indices: &mut [usize],
    residual: &mut [u8],
) -> u32
    ensures number { result ≡ number_of (answer_by reply_of answer.outcome) }
    ensures sums { words.new ≡ words_behind (answer_by reply_of answer.outcome) words.old }
    ensures counts { numbers.new ≡ numbers_behind (answer_by reply_of answer.outcome) numbers.old }
    ensures tns { indices.new ≡ unless_refused (answer_by reply_of answer.outcome) indices.old (sets indices.old 0 answer.indices) }
    ensures list { residual.new ≡ unless_refused (answer_by reply_of answer.outcome) residual.old (sets residual.old 0 answer.residual) }
{
    match answer.outcome {
        Ok(n) => {
            tell_lists(answer, indices, residual);
            tell_numbers(n, words, numbers);
            0
        }
        Err(e) => tell_refusal(e, numbers),
    }
}

pub(crate) fn tell_written(answer: Result<(), WriteError>, numbers: &mut [usize]) -> u32
    ensures number { result ≡ number_of (written_of answer) }
    ensures place { numbers.new ≡ place_behind (written_of answer) numbers.old }
{
    match answer {
        Ok(()) => 0,
        Err(e) => {
            lay(numbers, &told::write_place(e));
            told::write_number(e)
        }
    }
}

pub(crate) fn tell_field(answer: Result<usize, FieldWriteError>, numbers: &mut [usize]) -> u32
    ensures number { result ≡ number_of (Field·written_of answer) }
    ensures place { numbers.new ≡ next_or_place (Field·written_of answer) numbers.old }
{
    match answer {
        Ok(end) => {
            lay(numbers, &[end]);
            0
        }
        Err(e) => {
            lay(numbers, &told::field_place(e));
            told::field_number(e)
        }
    }
}
