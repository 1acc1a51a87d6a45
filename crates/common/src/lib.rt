// What every later crate stands on: the configuration and its number of encoded lines, the table set's check, the flat
// set. The numbered replies and the cumulatives are definitions of specs/.
#![tactic(auto)]

pub mod configuration;
pub mod flat;
pub mod inner;
pub mod table_set;
pub mod tables;
