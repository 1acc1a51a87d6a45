// Frames of one length, one behind the other, with the checks 1 to 4 done once.
ghost use Rattle.std.specs.Prelude.{◌≡◌, ◌/◌, ◌≤◌, length};
ghost use Rattle.common.specs.Reply.{accepted};
ghost use Rattle.common.specs.Configuration.{frame_lines};
ghost use Rattle.common.specs.TableSets.{passed_of};
ghost use Rattle.frame_reader.specs.Frame.{read_frame};
ghost use Rattle.frame_reader.specs.Returned.{lines_behind};
ghost use Rattle.host.specs.Many.{one_if_read, accepted_of, lines_after};

use common::configuration::Configuration;
use common::table_set::PassedSet;

// One of them.
fn read_one(
    configuration: Configuration,
    ne: usize,
    tables: &PassedSet,
    frame: &[u8],
    lines: &mut [i32],
) -> usize
    requires { (frame_lines configuration (length frame.now) ≡ accepted ne) × (ne ≤ length lines.old) }
    ensures number { result ≡ one_if_read (read_frame configuration (passed_of tables.now) (length lines.old) frame.now) }
    ensures low { result ≤ 1 }
    ensures lent { lines.new ≡ lines_behind (read_frame configuration (passed_of tables.now) (length lines.old) frame.now) lines.old }
{
    let answer = frame_reader::inner::read(configuration, ne, &tables.coded(), frame, lines);
    usize::from(answer.outcome.is_ok())
}

// As many of them as fit.
pub(crate) fn read_each(
    configuration: Configuration,
    ne: usize,
    tables: &PassedSet,
    frames: &[u8],
    bytes: usize,
    lines: &mut [i32],
) -> usize
    requires { (frame_lines configuration bytes ≡ accepted ne) × (ne ≤ length lines.old) }
    ensures number { result ≡ accepted_of (read_frame configuration (passed_of tables.now) (length lines.old)) (length frames.now / bytes) bytes frames.now }
    ensures lent { lines.new ≡ lines_after (read_frame configuration (passed_of tables.now) (length lines.old)) (length frames.now / bytes) bytes frames.now lines.old }
{
    let mut read = 0;
    for frame in frames.chunks_exact(bytes) {
        read += read_one(configuration, ne, tables, frame, lines);
    }
    read
}
