// The plain table: a source written down row by row.
#![tactic(auto)]

pub mod check;
pub mod fault;
pub mod kind;
mod part;
mod reading;
pub mod row;
mod row_tests;
pub mod table;
pub mod view;
