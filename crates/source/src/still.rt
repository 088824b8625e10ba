// The source that does nothing.
ghost use Rattle.std.specs.Prelude.{◌≡◌, ◌≤◌};
ghost use Rattle.source.specs.Meaning.{still};
ghost use Rattle.source.specs.Ranges.{range_or_one};

use crate::label::Label;
use crate::source::Source;

// One state, no step.
#[derive(Clone, Copy)]
pub struct Still {
    range: u8,
    ghost some: { 1 ≤ range },
    ghost few: { range ≤ 32 },
}

impl Still {
    // The still source of a range; at a range that is not 1 to 32, that of range 1.
    pub fn new(range: u8) -> Self
        ensures { result.range ≡ range_or_one range }
    {
        if (1..=32).contains(&range) {
            Still { range }
        } else {
            Still { range: 1 }
        }
    }
}

impl Source for Still {
    ghost meaning = { λ s. still s.range };

    fn extent(&self) -> u32 {
        1
    }

    fn root(&self) -> u32 {
        0
    }

    fn range(&self) -> u8 {
        self.range
    }

    fn width(&self) -> u32 {
        0
    }

    fn degree(&self, _state: u32) -> u32 {
        0
    }

    fn label(&self, _state: u32, _step: u32) -> Label {
        Label::Silent
    }

    fn landing(&self, _state: u32, _step: u32, _value: u8) -> u32 {
        0
    }
}
