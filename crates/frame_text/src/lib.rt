// The text that is printed of a frame, accepted or refused, laid into a lent buffer.
#![tactic(auto)]

ghost use Rattle.std.specs.Prelude.{◌≡◌, length};
ghost use Rattle.std.proofs.lemmas.List.Edits.{sets};
ghost use Rattle.common.specs.TableSets.{set_of};
ghost use Rattle.frame_reader.specs.Frame.{read_frame};
ghost use Rattle.frame_text.specs.Text.{text_of, end_text, stop_text};

mod accepted;
mod lines;
mod put;
mod refusals;

use common::configuration::Configuration;
use common::table_set::TableSet;

// Reads a frame and lays its text over the lent buffer from its front, as far as the buffer is long; answers the text's length.
pub fn lay(
    number: usize,
    configuration: Configuration,
    tables: &TableSet,
    frame: &[u8],
    out: &mut [u8],
) -> usize
    ensures size { result ≡ length (text_of number configuration frame.now (read_frame configuration (set_of tables.now) 400 frame.now)) }
    ensures lent { out.new ≡ sets out.old 0 (text_of number configuration frame.now (read_frame configuration (set_of tables.now) 400 frame.now)) }
{
    let mut values = [0; 400];
    let answer = frame_reader::read(configuration, tables, frame, &mut values);
    match answer.outcome {
        Err(e) => refusals::line(out, number, e),
        Ok(n) => accepted::nine(
            out,
            number,
            configuration.reading,
            frame.len(),
            n,
            &answer.indices,
            &answer.residual,
            &values,
        ),
    }
}

// The line behind the last frame: how many there were.
pub fn lay_end(frames: usize, out: &mut [u8]) -> usize
    ensures size { result ≡ length (end_text frames) }
    ensures lent { out.new ≡ sets out.old 0 (end_text frames) }
{
    let next = put::named(out, 0, b"end ", frames);
    put::word(out, next, b"\n")
}

// The line of a malformed field: where it begins.
pub fn lay_stop(offset: usize, out: &mut [u8]) -> usize
    ensures size { result ≡ length (stop_text offset) }
    ensures lent { out.new ≡ sets out.old 0 (stop_text offset) }
{
    let next = put::named(out, 0, b"stop 18 ", offset);
    put::word(out, next, b"\n")
}
