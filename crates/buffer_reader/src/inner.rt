// What the crates of this repository use beside the reads.
ghost use Rattle.std.specs.Prelude.{◌≡◌};
ghost use Rattle.common.specs.Reply.{no_tail_room};
ghost use Rattle.buffer_reader.specs.Reads.{reply_of};
ghost use Rattle.buffer_reader.specs.Reads.{listed as Reads·listed};

use crate::BufferError;

// Refusal 9 of a field that would begin at a tail cursor, for reads and writes alike: its numbers are chosen here and nowhere else.
pub fn no_tail_room(num_bits: usize, tail: usize) -> BufferError
    ensures { reply_of result ≡ no_tail_room num_bits tail }
{
    BufferError::NoTailRoom(num_bits, tail)
}

// Whether a width is listed, for reads and writes alike.
pub fn listed(num_bits: usize) -> bool
    ensures { result ≡ Reads·listed num_bits }
{
    matches!(num_bits, 1..=9 | 24 | 25)
}
