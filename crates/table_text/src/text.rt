// A whole text.
ghost use Rattle.std.specs.Prelude.{◌≡◌, ◌<◌, ◌++◌, ◌∷◌, [], IfErr, IfOk, OnErr, OnOk, length, vec_len};
ghost use Rattle.std.specs.Str.Lines.{lines};
ghost use Rattle.table_text.specs.LineNumbers.{AddsAtMost, RisingLines, Tells, TellsALine};
ghost use Rattle.table_text.specs.Settings.{head_at, line_at, next_place, told_row};

use crate::expected::{Expected, TextFault};
use crate::line::Words;
use std::alloc::{AllocError, Global};
use table::row::{Head, Row};

// How much of the head has been read: the settings come one after another, and then rows. One
// loop over the lines meets all four places, and one contract says what a line says at each, so this
// is an enum, and neither a type for each place nor a closure.
#[derive(Clone, Copy)]
enum Place {
    States,
    Range { states: u32 },
    Root { states: u32, range: u8 },
    Rows(Head),
}

impl Place {
    // The head, once it is whole, or the setting that is still to come first.
    fn head(self) -> Result<Head, Expected>
        ensures { result ≡ head_at self }
    {
        match self {
            Place::States => Err(Expected::States),
            Place::Range { .. } => Err(Expected::Range),
            Place::Root { .. } => Err(Expected::Root),
            Place::Rows(head) => Ok(head),
        }
    }
}

// A table as its text says it, and the line of each row, counted from 1.
#[derive(Drop)]
pub struct TextTable {
    pub head: Head,
    pub rows: Vec<Row>,
    pub lines: Vec<usize>,
}

// Rows, and as many lines. Two lists, since the rows are lent to the check as one slice.
#[derive(Drop)]
struct NumberedRows {
    rows: Vec<Row>,
    lines: Vec<usize>,
    ghost each: { vec_len lines ≡ vec_len rows },
}

impl NumberedRows {
    fn new(heap: Global) -> NumberedRows
        ensures rows { result.rows.items ≡ [] }
        ensures lines { result.lines.items ≡ [] }
    {
        NumberedRows {
            rows: Vec::new(heap),
            lines: Vec::new(heap),
        }
    }

    // Adds a row with its line, or leaves both lists as they are.
    fn push(&mut self, row: Row, line: usize) -> Result<(), AllocError>
        ensures rows { OnOk result (self.new.rows.items ≡ self.old.rows.items ++ row ∷ []) }
        ensures lines { OnOk result (self.new.lines.items ≡ self.old.lines.items ++ line ∷ []) }
        ensures err_rows { OnErr result (self.new.rows.items ≡ self.old.rows.items) }
        ensures err_lines { OnErr result (self.new.lines.items ≡ self.old.lines.items) }
    {
        // room for the line comes first, so that a row never stands without its line
        self.lines.reserve(1)?;
        self.rows.push(row)?;
        self.lines.push(line).unwrap();
        Ok(())
    }
}

#[derive(Drop)]
struct Reader {
    place: Place,
    numbered: NumberedRows,
}

impl Reader {
    // One line that is not empty.
    fn read(&mut self, words: &Words, line: usize) -> Result<(), TextFault>
        ensures lines { OnOk result (AddsAtMost line self.old.numbered.lines.items self.new.numbered.lines.items) }
        ensures told { IfErr result (Tells line) }
    {
        let row = self
            .read_words(words)
            .map_err(|expected| TextFault::Line(line, expected))?;
        if let Some(row) = row {
            self.numbered.push(row, line)?;
        }
        Ok(())
    }

    // A setting is kept, and a row is handed back.
    fn read_words(&mut self, words: &Words) -> Result<Option<Row>, Expected>
        ensures value { result ≡ told_row (line_at self.old.place words.now) }
        ensures place { self.new.place ≡ next_place self.old.place (line_at self.old.place words.now) }
        ensures rows { self.new.numbered.rows ≡ self.old.numbered.rows }
        ensures lines { self.new.numbered.lines ≡ self.old.numbered.lines }
    {
        match self.place {
            Place::States => {
                let states = words.setting("states", Expected::States)?;
                self.place = Place::Range { states };
            }
            Place::Range { states } => {
                let range = words.setting("range", Expected::Range)?;
                self.place = Place::Root { states, range };
            }
            Place::Root { states, range } => {
                let root = words.setting("root", Expected::Root)?;
                self.place = Place::Rows(Head {
                    states,
                    range,
                    root,
                });
            }
            Place::Rows(_) => return Ok(Some(words.row()?)),
        }
        Ok(None)
    }
}

// Reads a text, or tells the first line that is not as expected. Each row has its line.
pub fn read_text(heap: Global, text: &str) -> Result<TextTable, TextFault>
    ensures each { IfOk result (λ t. vec_len t.lines ≡ vec_len t.rows) }
    ensures rising { IfOk result (λ t. RisingLines (length (lines text.now)) t.lines.items) }
    ensures told { IfErr result (TellsALine (length (lines text.now))) }
{
    let mut reader = Reader {
        place: Place::States,
        numbered: NumberedRows::new(heap),
    };
    // how many lines have come, so that a text that ends too early is gone through only once
    let mut count = 0;
    for (before, line) in text.lines().enumerate() {
        count = before + 1;
        let words = Words::of(heap, line)?;
        if !words.is_empty() {
            reader.read(&words, count)?;
        }
    }
    let Reader { place, numbered } = reader;
    let NumberedRows { rows, lines } = numbered;
    match place.head() {
        Ok(head) => Ok(TextTable { head, rows, lines }),
        Err(expected) => Err(TextFault::Line(count.saturating_add(1), expected)),
    }
}
