// The table set's check: five lent slices, and a row lent alone.
ghost use Rattle.std.specs.Prelude.{◌≡◌, ◌*◌, ◌≤◌, ◌↔◌, length, true, false, IsTrue, EachIndex, MatchOption, slice_index};
ghost use Rattle.common.specs.TableSets.{set_of, passed_of, coded_of};
ghost use Rattle.common.specs.Tables.{coded_in, row_passes, rows_pass, part_passes, lookup_passes, tables_pass};

use crate::table_set::{CodedTables, PairTables, PassedSet, TableSet, TnsTables};

// Whether a row of any length passes. The total stops at 1,024, so no length overflows it.
pub fn row_passes(row: &[u16]) -> bool
    ensures { result ≡ row_passes row.now }
{
    let mut total: u16 = 0;
    for &frequency in row {
        if frequency == 0 || 1024 - total < frequency {
            return false;
        }
        total += frequency;
    }
    total == 1024
}

impl<'a> TableSet<'a> {
    // Whether the table set passes.
    pub fn passes(&self) -> bool
        ensures { result ≡ tables_pass (set_of self.now) }
    {
        lookup_passes(self.lookup)
            && part_passes(self.frequencies, 64, 17)
            && self.bits.len() == 1088
            && part_passes(self.orders, 2, 8)
            && part_passes(self.coefficients, 8, 17)
    }

    // The same set, if it passes.
    pub fn passed(self) -> Option<PassedSet<'a>>
        ensures { MatchOption result (tables_pass (set_of self.entry) ≡ false) (λ t. passed_of t ≡ set_of self.entry) }
    {
        if !self.passes() {
            return None;
        }
        Some(PassedSet {
            lookup: self.lookup,
            frequencies: self.frequencies,
            bits: self.bits,
            orders: self.orders,
            coefficients: self.coefficients,
        })
    }
}

impl<'a> PassedSet<'a> {
    // What a frame is coded by.
    pub fn coded(self) -> CodedTables<'a>
        ensures { coded_of result ≡ coded_in (passed_of self.entry) }
    {
        let PassedSet {
            lookup,
            frequencies,
            orders,
            coefficients,
            ..
        } = self;
        CodedTables {
            pairs: PairTables {
                lookup,
                frequencies,
            },
            tns: TnsTables {
                orders,
                coefficients,
            },
        }
    }
}

fn lookup_passes(lookup: &[u8]) -> bool
    ensures { result ≡ lookup_passes lookup.now }
{
    lookup.len() == 4096 && entries_pass(lookup)
}

fn entries_pass(lookup: &[u8]) -> bool
    ensures { IsTrue result ↔ EachIndex lookup.now (λ k. slice_index lookup.now k ≤ 63) }
{
    lookup.iter().all(|&entry| entry <= 63)
}

fn part_passes(part: &[u16], rows: usize, width: usize) -> bool
    requires { (rows ≤ 64) × (width ≤ 17) }
    ensures { result ≡ part_passes rows width part.now }
{
    part.len() == rows * width && rows_pass(part, rows, width)
}

fn rows_pass(part: &[u16], rows: usize, width: usize) -> bool
    requires { length part.now ≡ rows * width }
    ensures { result ≡ rows_pass rows width part.now }
{
    for k in 0..rows {
        let at = k * width;
        if !row_passes(&part[at..at + width]) {
            return false;
        }
    }
    true
}
