// What a survey says, line by line. The first words of a line are stable, for scripts to read.
ghost use Rattle.std.specs.Prelude.{◌≡◌, vec_len};
ghost use Rattle.table.specs.Steps.{Checked};

use crate::failure::Failure;
use explore::exploration::room_of;
use explore::survey::survey;
use source::label::{Label, value_count};
use source::source::Source;
use table::check::check;
use table::fault::Fault;
use table::table::Table;
use table_text::text::{TextTable, read_text};

// A report on what goes by a name, to wherever the program prints: of no more states than the
// capacity.
#[derive(Clone, Copy)]
pub(crate) struct Report<'a> {
    pub(crate) rt: &'a HostRuntime,
    pub(crate) name: &'a str,
    pub(crate) capacity: usize,
}

impl<'a> Report<'a> {
    // With no capacity named there is room for the most that is ever listed.
    pub(crate) fn of(rt: &'a HostRuntime, name: &'a str) -> Report<'a> {
        Report {
            rt,
            name,
            capacity: usize::MAX,
        }
    }

    // Surveys the table that a text spells.
    pub(crate) fn survey_text(self, text: &str) -> Result<(), Failure> {
        let Report { rt, name, .. } = self;
        let table = read_text(rt.alloc(), text).try_map_err(|fault| {
            Ok(Failure::Told(format!(in rt.alloc(); "{name}: {fault}")?))
        })?;
        self.survey_table(&table)
    }

    fn survey_table(self, text: &TextTable) -> Result<(), Failure>
        requires { vec_len text.now.lines ≡ vec_len text.now.rows }
    {
        let Report { rt, name, .. } = self;
        let rows = text.rows.as_slice();
        if let Err(fault) = check(text.head, rows) {
            return self.refused(text, fault);
        }
        println!(rt; "source {name}")?;
        self.survey_source(&Table::new(text.head, rows))
    }

    // What is said of a table that breaks a rule. The check tells a row that there is, so it has a
    // line. No `Display` of the fault: of a row it depends on the rows whether it is the last.
    fn refused(self, text: &TextTable, fault: Fault) -> Result<(), Failure>
        requires each { vec_len text.now.lines ≡ vec_len text.now.rows }
        requires checked { Checked text.now.head text.now.rows.items (Err fault) }
    {
        let Report { rt, name, .. } = self;
        let heap = rt.alloc();
        let number = fault.number();
        match fault {
            Fault::Head => Err(Failure::Told(format!(in heap;
                "{name}: refused {number} 0: the states are 1 to 65536, the range is 1 to 32, and the root is a state"
            )?)),
            Fault::Row(row) => {
                let lines = text.lines.as_slice();
                let line = lines[row - 1];
                let what = wrong_row(row == lines.len());
                Err(Failure::Told(format!(in heap;
                    "{name}: line {line}: refused {number} {row}: {what}"
                )?))
            }
        }
    }

    // The four numbers of a source, then the states that it reaches with their steps.
    fn survey_source<S: Source>(self, source: &S) -> Result<(), Failure> {
        let Report { rt, name, .. } = self;
        let heap = rt.alloc();
        let extent = source.extent();
        let range = source.range();
        let root = source.root();
        let width = source.width();
        println!(rt; "states {extent}")?;
        println!(rt; "range {range}")?;
        println!(rt; "root {root}")?;
        println!(rt; "width {width}")?;
        let room = room_of(self.capacity).min(extent as usize);
        let mut states = vec![in heap; 0u32; room]?;
        match survey(source, states.as_mut_slice()) {
            Ok(count) => {
                println!(rt; "reached {count}")?;
                let unreached = (extent as usize).saturating_sub(count);
                println!(rt; "unreached {unreached}")?;
                states.truncate(count);
                self.print_states(source, states.as_slice())
            }
            Err(refusal) => {
                println!(rt; "reached more than {room}")?;
                self.print_states(source, states.as_slice())?;
                let number = refusal.number();
                Err(Failure::Told(format!(in heap;
                    "{name}: refused {number}: more states are reached than there is room for, which is {room}"
                )?))
            }
        }
    }

    fn print_states<S: Source>(self, source: &S, states: &[u32]) -> Result<(), Failure> {
        let rt = self.rt;
        for state in states {
            let degree = source.degree(*state);
            println!(rt; "state {state} steps {degree}")?;
            for step in 0..degree {
                self.print_step(source, *state, step)?;
            }
        }
        Ok(())
    }

    // One line: the label, and where the step leads at each of its values.
    fn print_step<S: Source>(self, source: &S, state: u32, step: u32) -> Result<(), Failure> {
        let rt = self.rt;
        let label = source.label(state, step);
        print!(rt; "step {step} {label}")?;
        match label {
            Label::Receive { .. } => {
                for value in 0..value_count(source.range(), label) {
                    let to = source.landing(state, step, value);
                    print!(rt; ", value {value} to state {to}")?;
                }
            }
            _ => {
                let to = source.landing(state, step, 0);
                print!(rt; " to state {to}")?;
            }
        }
        println!(rt; "")?;
        Ok(())
    }
}

// What is wrong with the row that is told.
fn wrong_row(last: bool) -> &'static str {
    if last {
        "the last row can't follow those before it, or leaves a receive without all its values"
    } else {
        "this row can't follow those before it"
    }
}
