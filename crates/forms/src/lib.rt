// The two forms that alter lent memory, each called on a local that is lent: for programs that replay calls by value.
#![tactic(auto)]

pub mod inner;
