// The rows of one state, found by halving.
ghost use Rattle.std.specs.Prelude.{◌<◌};
ghost use Rattle.table.specs.Parts.{Part, Sorted, Splits};

use crate::row::Row;
use crate::row_tests::FromReached;
use choose::split_passing;

// The rows that leave one state, and how many rows of the table stand before them.
#[derive(Clone, Copy)]
pub(crate) struct StateRows<'a> {
    pub(crate) before: usize,
    pub(crate) rows: &'a [Row],
}

// How many rows leave a state below `from`: they stand first. They are found by the halving that
// `choose` promises, and not by the library's `partition_point`: what is proved of halving is then
// proved of what answers the questions.
fn rows_below(rows: &[Row], from: u32) -> usize
    requires { Sorted rows.now }
    ensures { Splits rows.now from result }
{
    split_passing(&FromReached { rows, from }, rows.len())
}

// The rows that leave a state.
pub(crate) fn rows_at<'a>(rows: &'a [Row], state: u32) -> StateRows<'a>
    requires sorted { Sorted rows.now }
    requires small { state < 65536 }
    ensures { Part rows.now state result.before result.rows.now }
{
    let before = rows_below(rows, state);
    let end = rows_below(rows, state + 1);
    StateRows {
        before,
        rows: &rows[before..end],
    }
}
