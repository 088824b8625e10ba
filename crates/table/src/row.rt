// What a table is made of. All of it is plain numbers: the check is what turns them into labels.
ghost use Rattle.std.specs.Prelude.{◌≡◌, ◌==◌, if◌then◌else◌, nat_eq};
ghost use Rattle.table.specs.Views.{begins, label_of};

use crate::kind::Kind;
use source::label::Label;

// What a table says before its rows: how many states it has, how many values, and where it begins.
#[derive(Clone, Copy, Debug)]
pub struct Head {
    pub states: u32,
    pub range: u8,
    pub root: u32,
}

// A step of the state `from`, or one value of a receive. The kind is a number, of which `Kind` says
// what it means, by the project's rule that rows are plain numbers: the check is asked of rows whose
// kind means nothing too.
#[derive(Clone, Copy, Debug)]
pub struct Row {
    pub from: u32,
    pub kind: u8,
    pub channel: u8,
    pub value: u8,
    pub to: u32,
}

impl Row {
    // Whether the row tells a receive at one of its values.
    pub(crate) fn is_receive(self) -> bool
        ensures { result ≡ (self.kind == 2) }
    {
        Kind::try_from(self.kind) == Ok(Kind::Receive)
    }

    // Whether the row begins a step: all do but those of a receive at a value above 0.
    pub(crate) fn begins_step(self) -> bool
        ensures { result ≡ begins self }
    {
        !self.is_receive() || self.value == 0
    }

    // The label that the row tells. It is no `From`, since a kind that is none has no label, and no
    // `TryFrom`, since here the check has ruled that out and no caller could use the error.
    pub(crate) fn label(self) -> Label
        ensures { result ≡ label_of self }
    {
        match Kind::try_from(self.kind) {
            Ok(Kind::Silent) => Label::Silent,
            Ok(Kind::Send) => Label::Send {
                channel: self.channel,
                value: self.value,
            },
            _ => Label::Receive {
                channel: self.channel,
            },
        }
    }

    // How far behind this row, if it is a step's first, the step's row for a value stands: a receive
    // has a row for each.
    pub(crate) fn rows_on(self, value: u8) -> usize
        ensures { result ≡ (if nat_eq self.kind 2 then value else 0) }
    {
        if self.is_receive() {
            usize::from(value)
        } else {
            0
        }
    }
}
