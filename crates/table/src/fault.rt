// Why a table is refused.
ghost use Rattle.std.specs.Prelude.{◌≡◌};
ghost use Rattle.table.specs.Faults.{refusal_number, told};

#[derive(Clone, Copy, Debug, PartialEq, Eq)]
pub enum Fault {
    // the number of states, the range or the root is out of bounds
    Head,
    // this row, counted from 1, can't follow those before it; or it is the last, within a receive
    Row(usize),
}

impl Fault {
    // The number by which the refusal goes. A number by the project's rule: scripts and people know
    // refusals by it.
    pub fn number(&self) -> u8
        ensures { result ≡ refusal_number self.now }
    {
        match self {
            Fault::Head => 9,
            Fault::Row(_) => 9,
        }
    }

    // The row that is told, counted from 1, or 0 where none is. No `Option`, by the same rule: 0 is
    // what is told of a bad head.
    pub fn row(&self) -> usize
        ensures { result ≡ told self.now }
    {
        match self {
            Fault::Head => 0,
            Fault::Row(row) => *row,
        }
    }
}
