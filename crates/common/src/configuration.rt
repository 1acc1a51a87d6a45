// The configuration, and the number of lines that a frame of it encodes.
ghost use Rattle.std.specs.Prelude.{◌≡◌};
ghost use Rattle.common.specs.Reply.{answer_by};
ghost use Rattle.common.specs.Configuration.{configuration_passes, lines_of, reply_of, frame_lines};

#[derive(Clone, Copy)]
pub struct Configuration {
    pub fs_ind: usize,
    pub duration: usize,
    pub reading: usize,
}

// Refusals 1 and 2: why a configuration, or a call on a frame of so many bytes, is refused.
#[derive(Clone, Copy)]
pub enum ConfigurationError {
    OutsideLimits,
    WrongLength(usize),
}

impl Configuration {
    pub fn passes(self) -> bool
        ensures { result ≡ configuration_passes self }
    {
        self.fs_ind <= 4 && self.duration <= 1 && self.reading <= 1
    }

    // The number of encoded lines, or refusal 1.
    pub fn lines(self) -> Result<usize, ConfigurationError>
        ensures { answer_by reply_of result ≡ lines_of self }
    {
        if !self.passes() {
            return Err(ConfigurationError::OutsideLimits);
        }
        Ok(crate::inner::ne(self.duration, self.fs_ind))
    }

    // The same for a call on a frame of so many bytes: refusals 1 and 2.
    pub fn frame_lines(self, bytes: usize) -> Result<usize, ConfigurationError>
        ensures { answer_by reply_of result ≡ frame_lines self bytes }
    {
        let ne = self.lines()?;
        if !crate::inner::length_passes(bytes) {
            return Err(ConfigurationError::WrongLength(bytes));
        }
        Ok(ne)
    }
}
