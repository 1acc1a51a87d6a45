// The whole frame, read: one call for a recording node.
#![tactic(auto)]

ghost use Rattle.std.specs.Prelude.{◌≡◌, length};
ghost use Rattle.common.specs.Reply.{answer_by};
ghost use Rattle.common.specs.TableSets.{set_of};
ghost use Rattle.frame_reader.specs.Frame.{read_frame};
ghost use Rattle.frame_reader.specs.Returned.{reply_of, told, indices_of, residual_of, lines_behind};
ghost use Rattle.common.specs.Configuration.{reply_of as Configuration·reply_of};
ghost use Rattle.spectral_data.specs.Returned.{error_of};
ghost use Rattle.frame_reader.specs.declared.FrameError.TheVariants.{Step};

pub mod inner;

use buffer_reader::Cursor;
use coding::Met;
use common::configuration::{Configuration, ConfigurationError};
use common::table_set::TableSet;
use side_info::SideInfo;
use spectral_data::inner::PairsError;

// Why a frame is refused, with the numbers of document 01: the reader's own checks, the step that met 9 to 11, and 19.
#[derive(Clone, Copy)]
pub enum FrameError {
    OutsideLimits,
    WrongLength(usize),
    TablesFail,
    WrongCount(usize),
    BandwidthIdxOutOfRange(u32),
    LastNonZeroTupleGreaterThanYLen(u32, usize),
    PlcTriggerSns1OutOfRange(u32),
    PlcTriggerSns2OutOfRange(u32),
    Step(Met),
    FourteenEscapes(usize),
    NegativeResidualNumBits,
}

impl From<ConfigurationError> for FrameError {
    ghost from_gives = { λ e f. reply_of f ≡ Configuration·reply_of e };

    fn from(e: ConfigurationError) -> FrameError {
        match e {
            ConfigurationError::OutsideLimits => FrameError::OutsideLimits,
            ConfigurationError::WrongLength(len) => FrameError::WrongLength(len),
        }
    }
}

impl From<Met> for FrameError {
    ghost from_gives = { λ m f. f ≡ Step m };

    fn from(m: Met) -> FrameError {
        FrameError::Step(m)
    }
}

impl From<PairsError> for FrameError {
    ghost from_gives = { λ e f. reply_of f ≡ error_of e };

    fn from(e: PairsError) -> FrameError {
        match e {
            PairsError::Step(m) => FrameError::Step(m),
            PairsError::FourteenEscapes(p) => FrameError::FourteenEscapes(p),
        }
    }
}

// What an accepted frame has beside its lists and lines.
#[derive(Clone, Copy)]
pub struct Numbers {
    pub side: SideInfo,
    pub first_order: usize,
    pub second_order: usize,
    pub residual_count: usize,
    pub seed: u32,
    pub zero: bool,
    pub cursor: Cursor,
    pub range: u32,
}

// The answer: the lists hold zeros behind their lengths, and where the frame is refused (so they stand beside the outcome, not in it).
#[derive(Drop)]
pub struct FrameRead {
    pub outcome: Result<Numbers, FrameError>,
    pub indices: [usize; 16],
    pub residual: [u8; 400],
}

// Reads a frame of 20 to 400 bytes into the lent lines. Refused, these are as they were.
pub fn read(
    configuration: Configuration,
    tables: &TableSet,
    frame: &[u8],
    lines: &mut [i32],
) -> FrameRead
    ensures outcome { answer_by reply_of result.outcome ≡ told configuration.reading (read_frame configuration (set_of tables.now) (length lines.old) frame.now) }
    ensures indices { result.indices ≡ indices_of (read_frame configuration (set_of tables.now) (length lines.old) frame.now) }
    ensures residual { result.residual ≡ residual_of (read_frame configuration (set_of tables.now) (length lines.old) frame.now) }
    ensures lent { lines.new ≡ lines_behind (read_frame configuration (set_of tables.now) (length lines.old) frame.now) lines.old }
{
    let ne = match configuration.frame_lines(frame.len()) {
        Ok(ne) => ne,
        Err(e) => return inner::refused(FrameError::from(e)),
    };
    let Some(passed) = tables.passed() else {
        return inner::refused(FrameError::TablesFail);
    };
    if lines.len() < ne {
        return inner::refused(FrameError::WrongCount(lines.len()));
    }
    inner::read(configuration, ne, &passed.coded(), frame, lines)
}
