// A reader that holds the frame and both cursors: thin functions over the cursor's reads. A read moves it, or refuses and leaves it.
ghost use Rattle.std.specs.Prelude.{◌≡◌};
ghost use Rattle.common.specs.Reply.{answer_by};
ghost use Rattle.buffer_reader.specs.Reads.{reply_of};
ghost use Rattle.buffer_reader.specs.Reader.{taking, standing, value_of, behind};

use crate::{BufferError, Cursor};

#[derive(Clone, Copy)]
pub struct Reader<'a> {
    pub frame: &'a [u8],
    pub head: usize,
    pub tail: usize,
}

// Which read: the next byte or three bytes from the head; a field of so many bits, or one bit, from the tail.
#[derive(Clone, Copy)]
pub enum Read {
    Byte,
    Three,
    Bits(usize),
    Bit,
}

// The cursor's own read: a byte, the number of three bytes, a field, or a bit as 0 or 1.
fn read_at(frame: &[u8], at: Cursor, read: Read) -> Result<(u32, Cursor), BufferError>
    ensures { answer_by reply_of result ≡ taking read frame.now at }
{
    match read {
        Read::Byte => {
            let (byte, next) = at.take_byte(frame)?;
            Ok((u32::from(byte), next))
        }
        Read::Three => at.take_three(frame),
        Read::Bits(num_bits) => at.take_bits(frame, num_bits),
        Read::Bit => {
            let (bit, next) = at.take_bit(frame)?;
            Ok((u32::from(bit), next))
        }
    }
}

impl<'a> Reader<'a> {
    pub fn new(frame: &'a [u8]) -> Self
        ensures { (result.frame ≡ frame.entry) × (result.head ≡ 0) × (result.tail ≡ 0) }
    {
        Self {
            frame,
            head: 0,
            tail: 0,
        }
    }

    // Where it stands.
    pub fn at(self) -> Cursor
        ensures { result ≡ standing self.entry }
    {
        Cursor {
            head: self.head,
            tail: self.tail,
        }
    }

    // The read moves the reader, or is refused and leaves it.
    pub fn take(&mut self, read: Read) -> Result<u32, BufferError>
        ensures { (answer_by reply_of result ≡ value_of (taking read self.old.frame.now (standing self.old))) × (self.new ≡ behind self.old (taking read self.old.frame.now (standing self.old))) }
    {
        let (value, next) = read_at(self.frame, self.at(), read)?;
        self.head = next.head;
        self.tail = next.tail;
        Ok(value)
    }
}
