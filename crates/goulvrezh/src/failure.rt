// What ends the program early.
use std::alloc::AllocError;
use std::{fmt, io};

#[derive(Drop)]
pub(crate) enum Failure {
    // what the user is told: a text, since each is made in one place and only printed, and a case for
    // each would be taken apart only to print it; owned, since the command line's words end before it
    Told(String),
    Memory,
    Output(io::Error),
}

impl fmt::Display for Failure {
    fn fmt<W: fmt::Write>(&self, f: &mut fmt::Formatter<W>) -> fmt::Result {
        match self {
            Failure::Told(text) => f.write_str(text.as_str()),
            Failure::Memory => f.write_str("there is not enough memory"),
            Failure::Output(error) => write!(f, "the answer cannot be written: {error}"),
        }
    }
}

impl From<AllocError> for Failure {
    fn from(_error: AllocError) -> Failure {
        Failure::Memory
    }
}

impl From<io::Error> for Failure {
    fn from(error: io::Error) -> Failure {
        Failure::Output(error)
    }
}
