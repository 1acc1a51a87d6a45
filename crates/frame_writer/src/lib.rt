// The whole frame, written: one call for a sending node.
#![tactic(auto)]

ghost use Rattle.std.specs.Prelude.{◌≡◌, length};
ghost use Rattle.common.specs.TableSets.{set_of};
ghost use Rattle.frame_writer.specs.Frame.{write_frame};
ghost use Rattle.frame_writer.specs.Returned.{of_configuration, content_of, written_of, told, frame_behind};

pub mod inner;

use common::configuration::{Configuration, ConfigurationError};
use common::table_set::TableSet;
use side_info::SideInfo;

// Why a frame is not written, with the numbers of document 01.
#[derive(Clone, Copy)]
pub enum WriteError {
    OutsideLimits,
    WrongLength(usize),
    TablesFail,
    WrongCount(usize),
    FieldOutside,
    LineOutside(usize),
    ResidualTooLong,
    NoRoom,
}

impl From<ConfigurationError> for WriteError {
    ghost from_gives = { λ e w. w ≡ of_configuration e };

    fn from(e: ConfigurationError) -> WriteError {
        match e {
            ConfigurationError::OutsideLimits => WriteError::OutsideLimits,
            ConfigurationError::WrongLength(len) => WriteError::WrongLength(len),
        }
    }
}

// What is written: the side information, both filters, the lines and the residual bits.
#[derive(Drop)]
pub struct Content<'a> {
    pub side: SideInfo,
    pub first_order: usize,
    pub second_order: usize,
    pub indices: [usize; 16],
    pub lines: &'a [i16],
    pub residual: &'a [u8],
}

// Writes a frame of 20 to 400 bytes into the lent one. Refused, it is as it was.
pub fn write(
    configuration: Configuration,
    tables: &TableSet,
    content: &Content,
    frame: &mut [u8],
) -> Result<(), WriteError>
    ensures answer { written_of result ≡ told (write_frame configuration (set_of tables.now) (content_of content.now) (length frame.old)) }
    ensures lent { frame.new ≡ frame_behind (write_frame configuration (set_of tables.now) (content_of content.now) (length frame.old)) frame.old }
{
    let ne = configuration.frame_lines(frame.len())?;
    let passed = tables.passed().ok_or(WriteError::TablesFail)?;
    if content.lines.len() != ne {
        return Err(WriteError::WrongCount(content.lines.len()));
    }
    inner::write(configuration, ne, &passed.coded(), content, frame)
}
