// What is kept from record to record: counts, in all and by module, how many bytes are lent, and whether the input goes on.
ghost use Rattle.std.specs.Prelude.{◌≡◌};

#[derive(Clone, Copy, PartialEq, Eq)]
pub(crate) enum Input {
    Going,
    Ended,
    Malformed,
}

// Counts stop at the largest number, so that none can wrap.
#[derive(Clone, Copy)]
pub(crate) struct Tally {
    pub(crate) cases: [u64; 8],
    pub(crate) records: u64,
    pub(crate) differ: u64,
    pub(crate) lent: usize,
    pub(crate) input: Input,
}

impl Tally {
    pub(crate) fn new() -> Self
        ensures { result.lent ≡ 0 }
    {
        Self {
            cases: [0; 8],
            records: 0,
            differ: 0,
            lent: 0,
            input: Input::Going,
        }
    }

    // The kinds of a module are sixteen.
    pub(crate) fn counted(mut self, kind: u8) -> Self
        ensures { result.lent ≡ self.lent }
    {
        let place = usize::from(kind) / 16 % 8;
        self.cases[place] = self.cases[place].saturating_add(1);
        self.records = self.records.saturating_add(1);
        self
    }

    pub(crate) fn differed(self, kind: u8) -> Self
        ensures { result.lent ≡ self.lent }
    {
        Self {
            differ: self.differ.saturating_add(1),
            ..self.counted(kind)
        }
    }

    pub(crate) fn lends(self, count: usize) -> Self
        ensures { result.lent ≡ count }
    {
        Self {
            lent: count,
            ..self
        }
    }

    pub(crate) fn ended(self, input: Input) -> Self
        ensures { result.lent ≡ self.lent }
    {
        Self { input, ..self }
    }
}
