// One step of a dump, for the programs of this repository. The tables and the text are laid over lent slices.
ghost use Rattle.std.specs.Prelude.{◌≡◌, cond, ◌≤◌, ◌<◌, eqb, length};
ghost use Rattle.std.proofs.lemmas.List.Edits.{sets};
ghost use Rattle.common.specs.Tables.{tables_of};
ghost use Rattle.common.specs.TableSets.{set_of};
ghost use Rattle.recording.specs.Contents.{words_of, configuration_of};
ghost use Rattle.recording.specs.Tagged.{tag_configuration, tag_lookup, tag_frequencies, tag_bits, tag_orders, tag_coefficients};
ghost use Rattle.dumping.specs.Dump.{tables_with, state_with, printed as Dump·printed};
ghost use Rattle.dumping.specs.Steps.{step_on, step_at};

use crate::{DUMP_MOST, Onward, State, Stepped};
use common::configuration::Configuration;
use common::table_set::TableSet;
use recording::reader::Malformed;
use recording::{contents, reader, tags};

// The table of that tag, if there is one, taken from the field's content.
fn take(
    tag: u8,
    content: &[u8],
    lookup: &mut [u8],
    frequencies: &mut [u16],
    bits: &mut [u16],
    orders: &mut [u16],
    coefficients: &mut [u16],
)
    ensures { tables_of lookup.new frequencies.new bits.new orders.new coefficients.new ≡ tables_with (tables_of lookup.old frequencies.old bits.old orders.old coefficients.old) tag content.now }
{
    match tag {
        tags::LOOKUP => contents::take_bytes(content, lookup),
        tags::FREQUENCIES => contents::take_words(content, frequencies),
        tags::BITS => contents::take_words(content, bits),
        tags::ORDERS => contents::take_words(content, orders),
        tags::COEFFICIENTS => contents::take_words(content, coefficients),
        _ => (),
    }
}

fn configured(tag: u8, content: &[u8], before: Configuration) -> Configuration
    ensures { result ≡ cond (eqb tag tag_configuration) (configuration_of content.now) before }
{
    if tag == tags::CONFIGURATION {
        contents::configuration_of(content)
    } else {
        before
    }
}

// The state behind a field.
fn state_with(tag: u8, content: &[u8], state: State) -> State
    requires { state.frames < 0xFFFFFFFFFFFFFFFF }
    ensures { result ≡ state_with state tag content.now }
{
    State {
        before: state.before.after(tag),
        configuration: configured(tag, content, state.configuration),
        frames: state.frames + usize::from(tag == tags::FRAME),
    }
}

// What a field prints: the length of its text.
fn print(tag: u8, content: &[u8], state: State, tables: &TableSet, out: &mut [u8]) -> usize
    requires { state.frames < 0xFFFFFFFFFFFFFFFF }
    ensures length { result ≡ length (Dump·printed (record { state = state; tables = set_of tables.now }) tag content.now) }
    ensures lent { out.new ≡ sets out.old 0 (Dump·printed (record { state = state; tables = set_of tables.now }) tag content.now) }
{
    if tag == tags::FRAME {
        frame_text::lay(state.frames + 1, state.configuration, tables, content, out)
    } else {
        0
    }
}

// A field that was found: it is printed, and taken.
fn on_field(
    tag: u8,
    content: &[u8],
    end: usize,
    state: State,
    lookup: &mut [u8],
    frequencies: &mut [u16],
    bits: &mut [u16],
    orders: &mut [u16],
    coefficients: &mut [u16],
    out: &mut [u8],
) -> Stepped
    requires { state.frames < 0xFFFFFFFFFFFFFFFF }
    ensures length { result.text ≡ length (step_on (record { state = state; tables = tables_of lookup.old frequencies.old bits.old orders.old coefficients.old }) tag content.now end).text }
    ensures next { result.next ≡ (step_on (record { state = state; tables = tables_of lookup.old frequencies.old bits.old orders.old coefficients.old }) tag content.now end).next }
    ensures state { result.state ≡ (step_on (record { state = state; tables = tables_of lookup.old frequencies.old bits.old orders.old coefficients.old }) tag content.now end).held.state }
    ensures tables { tables_of lookup.new frequencies.new bits.new orders.new coefficients.new ≡ (step_on (record { state = state; tables = tables_of lookup.old frequencies.old bits.old orders.old coefficients.old }) tag content.now end).held.tables }
    ensures lent { out.new ≡ sets out.old 0 (step_on (record { state = state; tables = tables_of lookup.old frequencies.old bits.old orders.old coefficients.old }) tag content.now end).text }
{
    let tables = TableSet {
        lookup,
        frequencies,
        bits,
        orders,
        coefficients,
    };
    let text = print(tag, content, state, &tables, out);
    take(
        tag,
        content,
        lookup,
        frequencies,
        bits,
        orders,
        coefficients,
    );
    Stepped {
        text,
        next: Onward::At(end),
        state: state_with(tag, content, state),
    }
}

// What stands at an offset, up to which there are no more frames than bytes.
pub fn step(
    input: &[u8],
    offset: usize,
    state: State,
    lookup: &mut [u8],
    frequencies: &mut [u16],
    bits: &mut [u16],
    orders: &mut [u16],
    coefficients: &mut [u16],
    out: &mut [u8],
) -> Stepped
    requires { state.frames ≤ offset }
    ensures length { result.text ≡ length (step_at (record { state = state; tables = tables_of lookup.old frequencies.old bits.old orders.old coefficients.old }) input.now offset).text }
    ensures next { result.next ≡ (step_at (record { state = state; tables = tables_of lookup.old frequencies.old bits.old orders.old coefficients.old }) input.now offset).next }
    ensures state { result.state ≡ (step_at (record { state = state; tables = tables_of lookup.old frequencies.old bits.old orders.old coefficients.old }) input.now offset).held.state }
    ensures tables { tables_of lookup.new frequencies.new bits.new orders.new coefficients.new ≡ (step_at (record { state = state; tables = tables_of lookup.old frequencies.old bits.old orders.old coefficients.old }) input.now offset).held.tables }
    ensures lent { out.new ≡ sets out.old 0 (step_at (record { state = state; tables = tables_of lookup.old frequencies.old bits.old orders.old coefficients.old }) input.now offset).text }
{
    match reader::field_at(input, offset, DUMP_MOST, state.before) {
        Ok(Some(x)) => {
            let end = x.content + x.size;
            on_field(
                x.tag,
                &input[x.content..end],
                end,
                state,
                lookup,
                frequencies,
                bits,
                orders,
                coefficients,
                out,
            )
        }
        Ok(None) => {
            let text = frame_text::lay_end(state.frames, out);
            Stepped {
                text,
                next: Onward::End,
                state,
            }
        }
        Err(Malformed(at)) => {
            let text = frame_text::lay_stop(at, out);
            Stepped {
                text,
                next: Onward::Stop,
                state,
            }
        }
    }
}
