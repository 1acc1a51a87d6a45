// A frame's field, written: the frame goes straight into the part of the lent buffer behind its three header bytes.
ghost use Rattle.std.specs.Prelude.{◌≡◌, ◌+◌, ◌/◌, ◌%◌, ◌≤◌, [], ◌∷◌, length};
ghost use Rattle.std.proofs.lemmas.List.Edits.{sets};
ghost use Rattle.common.specs.TableSets.{set_of};
ghost use Rattle.frame_writer.specs.Returned.{content_of};
ghost use Rattle.recording.specs.Tagged.{tag_frame};
ghost use Rattle.recording.specs.Writer.{write_field, buffer_behind, written_of, end_behind};
ghost use Rattle.recording.specs.declared.writer.FieldWriteError.TheVariants.{Frame};

use crate::reader::FIELD_MOST;
use crate::tags;
use common::configuration::Configuration;
use common::table_set::TableSet;
use frame_writer::{Content, WriteError};

#[derive(Clone, Copy)]
pub enum FieldWriteError {
    NoPlace(usize),
    Frame(WriteError),
}

impl From<WriteError> for FieldWriteError {
    ghost from_gives = { λ e r. r ≡ Frame e };

    fn from(e: WriteError) -> FieldWriteError {
        FieldWriteError::Frame(e)
    }
}

// The tag and the two-byte length before a frame of so many bytes.
fn put_header(buffer: &mut [u8], offset: usize, bytes: usize)
    requires { (bytes ≤ 4096) × (offset + (3 + bytes) ≤ length buffer.old) }
    ensures { buffer.new ≡ sets buffer.old offset (tag_frame ∷ bytes / 256 ∷ bytes % 256 ∷ []) }
{
    let [high, low] = (bytes as u16).to_be_bytes();
    buffer[offset..offset + 3].copy_from_slice(&[tags::FRAME, high, low]);
}

// A frame of so many bytes in a field at an offset: where the next field begins, or the refusal.
pub fn write_frame(
    buffer: &mut [u8],
    offset: usize,
    bytes: usize,
    configuration: Configuration,
    tables: &TableSet,
    content: &Content,
) -> Result<usize, FieldWriteError>
    ensures answer { written_of result ≡ end_behind (write_field configuration (set_of tables.now) (content_of content.now) bytes (length buffer.old) offset) offset }
    ensures lent { buffer.new ≡ buffer_behind (write_field configuration (set_of tables.now) (content_of content.now) bytes (length buffer.old) offset) offset buffer.old }
{
    if FIELD_MOST < bytes || !crate::reader::within(offset, 3 + bytes, buffer.len()) {
        return Err(FieldWriteError::NoPlace(offset));
    }
    let at = offset + 3;
    let end = at + bytes;
    frame_writer::write(configuration, tables, content, &mut buffer[at..end])?;
    put_header(buffer, offset, bytes);
    Ok(end)
}
