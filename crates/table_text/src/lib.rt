// The text form of the plain table, which docs/TABLES.md defines.
#![tactic(auto)]

pub mod expected;
pub mod line;
mod number;
pub mod text;
