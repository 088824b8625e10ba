// The tests by which the rows of a state are found, counted and chosen.
ghost use Rattle.table.specs.Parts.{from_reached, begins_in};

use crate::row::Row;
use choose::Test;

// Whether the row of a number leaves a state that is not below `from`.
#[derive(Drop)]
pub(crate) struct FromReached<'a> {
    pub(crate) rows: &'a [Row],
    pub(crate) from: u32,
}

impl<'a> Test for FromReached<'a> {
    ghost holds = { λ t. from_reached t.rows.now t.from };

    fn passes(&self, i: usize) -> bool {
        i < self.rows.len() && self.rows[i].from >= self.from
    }
}

// Whether the row of a number begins a step.
#[derive(Drop)]
pub(crate) struct BeginsStep<'a> {
    pub(crate) rows: &'a [Row],
}

impl<'a> Test for BeginsStep<'a> {
    ghost holds = { λ t. begins_in t.rows.now };

    fn passes(&self, i: usize) -> bool {
        self.rows.get(i).is_some_and(|row| row.begins_step())
    }
}
