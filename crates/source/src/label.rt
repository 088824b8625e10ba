// What a step does.
ghost use Rattle.std.specs.Prelude.{◌≡◌, true, Some};
ghost use Rattle.source.specs.Labels.{same_label, value_count, label_text};

use std::fmt;

// A channel is a number from 0 to 63, and a value one below the source's range.
#[derive(Clone, Copy, Debug, PartialEq, Eq)]
pub enum Label {
    // a step that nobody else sees
    Silent,
    Send { channel: u8, value: u8 },
    // a step that takes any value of the range
    Receive { channel: u8 },
}

impl fmt::Display for Label {
    ghost output = { λ label. Some (label_text label) };

    fn fmt<W: fmt::Write>(&self, f: &mut fmt::Formatter<W>) -> fmt::Result {
        match self {
            Label::Silent => f.write_str("silent"),
            Label::Send { channel, value } => write!(f, "send {value} on channel {channel}"),
            Label::Receive { channel } => write!(f, "receive on channel {channel}"),
        }
    }
}

// Whether two labels are equal. By the project's rule that is a function of its own beside `==`: it
// has a definition, of which promises speak.
pub fn same_label(a: Label, b: Label) -> bool
    ensures value { result ≡ same_label a b }
    ensures same { result ≡ true → a ≡ b }
    ensures told { a ≡ b → result ≡ true }
{
    a == b
}

// How many values a step with this label has at a range.
pub fn value_count(range: u8, label: Label) -> u8
    ensures { result ≡ value_count range label }
{
    match label {
        Label::Silent => 1,
        Label::Send { .. } => 1,
        Label::Receive { .. } => range,
    }
}
