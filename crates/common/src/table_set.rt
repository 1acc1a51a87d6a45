// The table set as it is lent, one that passes, and what a frame is coded by. The calls that lead from each to the next are in tables.
ghost use Rattle.std.specs.Prelude.{◌≡◌, true};
ghost use Rattle.common.specs.Tables.{lookup_passes, part_passes, tables_pass, tables_of};

// A table set, lent: five parts of any length.
#[derive(Clone, Copy)]
pub struct TableSet<'a> {
    pub lookup: &'a [u8],
    pub frequencies: &'a [u16],
    pub bits: &'a [u16],
    pub orders: &'a [u16],
    pub coefficients: &'a [u16],
}

// A table set that passes.
#[derive(Clone, Copy)]
pub struct PassedSet<'a> {
    pub lookup: &'a [u8],
    pub frequencies: &'a [u16],
    pub bits: &'a [u16],
    pub orders: &'a [u16],
    pub coefficients: &'a [u16],
    ghost passed: { tables_pass (tables_of lookup.now frequencies.now bits.now orders.now coefficients.now) ≡ true },
}

// What pairs of lines are coded by: both parts pass.
#[derive(Clone, Copy)]
pub struct PairTables<'a> {
    pub lookup: &'a [u8],
    pub frequencies: &'a [u16],
    ghost looked: { lookup_passes lookup.now ≡ true },
    ghost rows: { part_passes 64 17 frequencies.now ≡ true },
}

// What TNS data is coded by: both parts pass.
#[derive(Clone, Copy)]
pub struct TnsTables<'a> {
    pub orders: &'a [u16],
    pub coefficients: &'a [u16],
    ghost order_rows: { part_passes 2 8 orders.now ≡ true },
    ghost index_rows: { part_passes 8 17 coefficients.now ≡ true },
}

// What a frame is coded by: all but the bits, which are the estimate's.
#[derive(Clone, Copy)]
pub struct CodedTables<'a> {
    pub pairs: PairTables<'a>,
    pub tns: TnsTables<'a>,
}
