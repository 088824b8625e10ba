// The check of a table.
ghost use Rattle.std.specs.Prelude.{◌≡◌, IfOk, Result};
ghost use Rattle.table.specs.Steps.{Checked, verdict};
ghost use Rattle.table.specs.Views.{largest, degree_of};
ghost use Rattle.table.specs.declared.fault.Fault.{Fault};

use crate::fault::Fault;
use crate::reading::read_table;
use crate::row::{Head, Row};

// Whether rows are a well-formed table, and else the first fault. The head and the rows stay two
// parameters: a struct of both would be made for each call, and be taken apart in it.
pub fn check(head: Head, rows: &[Row]) -> Result<(), Fault>
    ensures checked { Checked head rows.now result }
    ensures only { (other : Result (Unit {0}) Fault) → Checked head rows.now other → result ≡ other }
{
    measure(head, rows)?;
    Ok(())
}

// The same, with the width of a well-formed table.
pub(crate) fn measure(head: Head, rows: &[Row]) -> Result<u32, Fault>
    ensures checked { Checked head rows.now (verdict result) }
    ensures only { (other : Result (Unit {0}) Fault) → Checked head rows.now other → verdict result ≡ other }
    ensures width { IfOk result (λ width. width ≡ largest (degree_of rows.now) head.states) }
{
    if head.fits() {
        read_table(head, rows)
    } else {
        Err(Fault::Head)
    }
}
