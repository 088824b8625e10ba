// What stands in a line of the text form, and what is said where it does not.
ghost use Rattle.std.specs.Prelude.{◌≡◌};
ghost use Rattle.table_text.specs.declared.expected.TextFault.TheVariants.{Memory};

use std::alloc::{AllocError, AllocFailed};
use std::fmt;

// A part of a line.
#[derive(Clone, Copy, Debug, PartialEq, Eq)]
pub enum Expected {
    States,
    Range,
    Root,
    From,
    Kind,
    Channel,
    Value,
    To,
    LineEnd,
}

impl fmt::Display for Expected {
    fn fmt<W: fmt::Write>(&self, f: &mut fmt::Formatter<W>) -> fmt::Result {
        match self {
            Expected::States => f.write_str("'states' and how many there are, up to 4294967295"),
            Expected::Range => f.write_str("'range' and how many values there are, up to 255"),
            Expected::Root => f.write_str("'root' and a state, up to 4294967295"),
            Expected::From => f.write_str("the state that the row leaves, up to 4294967295"),
            Expected::Kind => f.write_str("'silent', 'send' or 'receive'"),
            Expected::Channel => f.write_str("a channel, up to 255"),
            Expected::Value => f.write_str("a value, up to 255"),
            Expected::To => f.write_str("the state that the row leads to, up to 4294967295"),
            Expected::LineEnd => f.write_str("nothing more on the line"),
        }
    }
}

// Why a text is no table.
#[derive(Clone, Copy, Debug, PartialEq, Eq)]
pub enum TextFault {
    // a line, counted from 1, and what was expected there
    Line(usize, Expected),
    // there is not enough memory to hold the rows
    Memory,
}

impl fmt::Display for TextFault {
    fn fmt<W: fmt::Write>(&self, f: &mut fmt::Formatter<W>) -> fmt::Result {
        match self {
            TextFault::Line(line, expected) => write!(f, "line {line}: expected {expected}"),
            TextFault::Memory => f.write_str("there is not enough memory to hold it"),
        }
    }
}

impl From<AllocError> for TextFault {
    ghost from_gives = { λ _ fault. fault ≡ Memory };

    fn from(_error: AllocError) -> TextFault {
        TextFault::Memory
    }
}

// The library turns this error into the one above too, but whoever calls this crate may turn either
// by one `?`.
impl<T: Drop> From<AllocFailed<T>> for TextFault {
    ghost from_gives = { λ _ fault. fault ≡ Memory };

    fn from(_error: AllocFailed<T>) -> TextFault {
        TextFault::Memory
    }
}
