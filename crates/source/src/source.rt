// The one interface that every description of a conversation stands behind.
ghost use Rattle.std.specs.Prelude.{◌≡◌};
ghost use Rattle.source.specs.Meaning.{Meaning, Lawful};

use crate::label::Label;

// Seven questions. Each is answered on every input, and no answer changes a later one: all of
// them are read off one meaning. The meaning is lawful, which every implementation proves at
// `range`, the question that each caller asks. That is a clause and no law of the trait, since a
// law's proof would have to stand in specs/, and with it all that is proved of a table.
pub trait Source {
    ghost meaning: { Self → Meaning };

    // How many states there are; they are numbered from 0.
    fn extent(&self) -> u32
        ensures { result ≡ (meaning self.now).extent };

    // The state that it begins in.
    fn root(&self) -> u32
        ensures { result ≡ (meaning self.now).root };

    // How many values there are; they are numbered from 0.
    fn range(&self) -> u8
        ensures value { result ≡ (meaning self.now).range }
        ensures lawful { Lawful (meaning self.now) };

    // A bound on how many steps a state has.
    fn width(&self) -> u32
        ensures { result ≡ (meaning self.now).width };

    // How many steps a state has; they are numbered from 0.
    fn degree(&self, state: u32) -> u32
        ensures { result ≡ (meaning self.now).degree state };

    // What a step of a state does.
    fn label(&self, state: u32, step: u32) -> Label
        ensures { result ≡ (meaning self.now).label state step };

    // The state that a step leads to at a value.
    fn landing(&self, state: u32, step: u32, value: u8) -> u32
        ensures { result ≡ (meaning self.now).landing state step value };
}
