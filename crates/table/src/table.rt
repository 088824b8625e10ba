// A well-formed table over lent rows.
ghost use Rattle.std.specs.Prelude.{◌≡◌};
ghost use Rattle.table.specs.Steps.{WellFormed};
ghost use Rattle.table.specs.Views.{largest, degree_of};

use crate::row::{Head, Row};

// The rows that it holds were accepted by the check, and its width is the largest degree.
#[derive(Clone, Copy)]
pub struct Table<'a> {
    pub(crate) head: Head,
    pub(crate) rows: &'a [Row],
    pub(crate) width: u32,
    ghost accepted: { ∥ WellFormed head rows.now ∥₁ },
    ghost widest: { width ≡ largest (degree_of rows.now) head.states },
}
