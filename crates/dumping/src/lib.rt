// The dump, step by step: what is held between two fields, and what a step prints. How input and output arrive is the program's.
#![tactic(auto)]

ghost use Rattle.std.specs.Prelude.{◌≡◌};
ghost use Rattle.common.specs.TableSets.{set_of};
ghost use Rattle.dumping.specs.Tables.{tables_in};
ghost use Rattle.dumping.specs.Dump.{started, blank};

pub mod inner;

use common::configuration::Configuration;
use common::table_set::TableSet;
use recording::reader::Before;

// A field has to end within so many first bytes.
pub const DUMP_MOST: usize = 65536;

// What came before, the configuration, and how many frames there were.
#[derive(Clone, Copy)]
pub struct State {
    pub before: Before,
    pub configuration: Configuration,
    pub frames: usize,
}

// The five tables that are held, each in an array of its own size.
#[derive(Drop)]
pub struct HeldTables {
    pub lookup: [u8; 4096],
    pub frequencies: [u16; 1088],
    pub bits: [u16; 1088],
    pub orders: [u16; 16],
    pub coefficients: [u16; 136],
}

// Where the next step is, if there is one.
#[derive(Clone, Copy)]
pub enum Onward {
    At(usize),
    End,
    Stop,
}

// A step's answer: the length of its text, where the next one is, and the state behind it.
#[derive(Clone, Copy)]
pub struct Stepped {
    pub text: usize,
    pub next: Onward,
    pub state: State,
}

impl HeldTables {
    // Before the first field: none of the zeros is read.
    pub fn blank() -> HeldTables
        ensures { tables_in result ≡ blank }
    {
        HeldTables {
            lookup: [0; 4096],
            frequencies: [0; 1088],
            bits: [0; 1088],
            orders: [0; 16],
            coefficients: [0; 136],
        }
    }

    // The table set that they are now.
    pub fn lent(&self) -> TableSet<'_>
        ensures { set_of result ≡ tables_in self.now }
    {
        TableSet {
            lookup: &self.lookup,
            frequencies: &self.frequencies,
            bits: &self.bits,
            orders: &self.orders,
            coefficients: &self.coefficients,
        }
    }
}

impl State {
    // Before the first field.
    pub fn start() -> State
        ensures { result ≡ started }
    {
        State {
            before: Before::nothing(),
            configuration: Configuration {
                fs_ind: 0,
                duration: 0,
                reading: 0,
            },
            frames: 0,
        }
    }
}
