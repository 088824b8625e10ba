// Rows for the tests.
use table::kind::Kind;
use table::row::{Head, Row};

pub(crate) fn head(states: u32, range: u8, root: u32) -> Head {
    Head {
        states,
        range,
        root,
    }
}

pub(crate) fn silent(from: u32, to: u32) -> Row {
    Row {
        from,
        kind: u8::from(Kind::Silent),
        channel: 0,
        value: 0,
        to,
    }
}

pub(crate) fn send(from: u32, channel: u8, value: u8, to: u32) -> Row {
    Row {
        from,
        kind: u8::from(Kind::Send),
        channel,
        value,
        to,
    }
}

pub(crate) fn receive(from: u32, channel: u8, value: u8, to: u32) -> Row {
    Row {
        from,
        kind: u8::from(Kind::Receive),
        channel,
        value,
        to,
    }
}
