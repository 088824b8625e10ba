// A table as a source.
ghost use Rattle.std.specs.Prelude.{◌≡◌, ◌≤◌, List};
ghost use Rattle.source.specs.Meaning.{still, Lawful};
ghost use Rattle.table.specs.Parts.{Part};
ghost use Rattle.table.specs.Steps.{Step, Spells, WellFormed};
ghost use Rattle.table.specs.Tables.{meaning_of};
ghost use Rattle.table.specs.Views.{table_meaning, largest, degree_of, step_row, Shows};

use crate::check::measure;
use crate::part::{StateRows, rows_at};
use crate::row::{Head, Row};
use crate::row_tests::BeginsStep;
use crate::table::Table;
use choose::{choose_passing, count_passing};
use source::label::Label;
use source::source::Source;

impl<'a> Table<'a> {
    // The table that these rows are; where the check refuses them, the still source of range 1. Head
    // and rows are two parameters here too: a struct of both would be taken apart at once.
    pub fn new(head: Head, rows: &'a [Row]) -> Table<'a>
        ensures accepted { WellFormed head rows.now → meaning_of result ≡ table_meaning head rows.now }
        ensures refused { (WellFormed head rows.now → ⊥) → meaning_of result ≡ still 1 }
        ensures shows { (steps : List Step) → Spells head rows.now steps → Shows head steps (meaning_of result) }
    {
        match measure(head, rows) {
            Ok(width) => Table::accepted(head, rows, width),
            Err(_) => Table::refused(rows),
        }
    }

    // The table of well-formed rows, of which the width is known.
    fn accepted(head: Head, rows: &'a [Row], width: u32) -> Table<'a>
        requires formed { WellFormed head rows.now }
        requires widest { width ≡ largest (degree_of rows.now) head.states }
        ensures { meaning_of result ≡ table_meaning head rows.now }
    {
        Table { head, rows, width }
    }

    // The still source of range 1: one state, and none of the rows.
    fn refused(rows: &'a [Row]) -> Table<'a>
        ensures { meaning_of result ≡ still 1 }
    {
        Table {
            head: Head {
                states: 1,
                range: 1,
                root: 0,
            },
            rows: &rows[0..0],
            width: 0,
        }
    }

    // The range, of a table that keeps the laws of a source.
    fn lawful_range(&self) -> u8
        ensures value { result ≡ self.now.head.range }
        ensures lawful { Lawful (meaning_of self.now) }
    {
        self.head.range
    }

    // The rows of a state: none where there is no such state.
    fn rows_of(&self, state: u32) -> StateRows<'a>
        ensures { Part self.now.rows.now state result.before result.rows.now }
    {
        if state < self.head.states {
            rows_at(self.rows, state)
        } else {
            StateRows {
                before: self.rows.len(),
                rows: &self.rows[0..0],
            }
        }
    }

    // How many steps leave a state. Rows are counted by number, as they are chosen below: one definition
    // and its laws serve both.
    fn step_count(&self, state: u32) -> usize
        ensures value { result ≡ degree_of self.now.rows.now state }
        ensures few { result ≤ 64 }
    {
        let rows = self.rows_of(state).rows;
        count_passing(&BeginsStep { rows }, rows.len())
    }

    // The row of the table where a step begins.
    fn step_row(&self, state: u32, step: u32) -> Option<usize>
        ensures { result ≡ step_row self.now.rows.now state step }
    {
        let StateRows { before, rows } = self.rows_of(state);
        let i = choose_passing(&BeginsStep { rows }, rows.len(), step as usize)?;
        Some(before + i)
    }
}

impl<'a> Source for Table<'a> {
    ghost meaning = { meaning_of };

    fn extent(&self) -> u32 {
        self.head.states
    }

    fn root(&self) -> u32 {
        self.head.root
    }

    fn range(&self) -> u8 {
        self.lawful_range()
    }

    fn width(&self) -> u32 {
        self.width
    }

    fn degree(&self, state: u32) -> u32 {
        self.step_count(state) as u32
    }

    fn label(&self, state: u32, step: u32) -> Label {
        match self.step_row(state, step) {
            Some(i) => self.rows[i].label(),
            None => Label::Silent,
        }
    }

    fn landing(&self, state: u32, step: u32, value: u8) -> u32 {
        if value >= self.head.range {
            return self.head.root;
        }
        match self.step_row(state, step) {
            Some(i) => self.rows[i + self.rows[i].rows_on(value)].to,
            None => self.head.root,
        }
    }
}
