// Reading a table row by row.
ghost use Rattle.std.specs.Prelude.{◌≡◌};
ghost use Rattle.table.specs.Reads.{head_fits, may_begin, begun, receive_after, begin_step, continue_receive, follow, read_table};

use crate::fault::Fault;
use crate::kind::Kind;
use crate::row::{Head, Row};

// The most steps of one state.
const MOST_STEPS: u32 = 64;

impl Head {
    // Whether the number of states, the range and the root are within their bounds.
    pub(crate) fn fits(self) -> bool
        ensures { result ≡ head_fits self }
    {
        (1..=65536).contains(&self.states)
            && (1..=32).contains(&self.range)
            && self.root < self.states
    }
}

impl Row {
    // Whether the row may begin a step.
    fn may_begin(self, head: Head) -> bool
        ensures { result ≡ may_begin head self }
    {
        match Kind::try_from(self.kind) {
            Ok(Kind::Silent) => self.channel == 0 && self.value == 0,
            Ok(Kind::Send) => self.channel < 64 && self.value < head.range,
            Ok(Kind::Receive) => self.channel < 64 && self.value == 0,
            Err(_) => false,
        }
    }
}

// A receive that is being read: its channel, and the value that its next row must have.
#[derive(Clone, Copy)]
struct Receiving {
    channel: u8,
    next: u8,
}

impl Receiving {
    // What is left of a receive after its row for a value: nothing where that was the last.
    fn after(head: Head, channel: u8, value: u8) -> Option<Receiving>
        ensures { result ≡ receive_after head channel value }
    {
        match value.checked_add(1) {
            Some(next) if next < head.range => Some(Receiving { channel, next }),
            _ => None,
        }
    }
}

// How far a table has been read. The head stays a parameter: in here, each reading would repeat it.
#[derive(Clone, Copy)]
struct Reading {
    // the state whose steps are being read, and how many of them have begun
    from: u32,
    steps: u32,
    receive: Option<Receiving>,
    // the most steps that have begun at one state
    widest: u32,
}

impl Reading {
    // The reading after a row that begins a step.
    fn begin_step(self, head: Head, row: Row) -> Option<Reading>
        ensures { result ≡ begin_step head self row }
    {
        let begun = if row.from == self.from { self.steps } else { 0 };
        if row.from < self.from || begun >= MOST_STEPS || !row.may_begin(head) {
            return None;
        }
        let steps = begun + 1;
        Some(Reading {
            from: row.from,
            steps,
            receive: if row.is_receive() {
                Receiving::after(head, row.channel, 0)
            } else {
                None
            },
            widest: self.widest.max(steps),
        })
    }

    // The reading after a row within a receive.
    fn continue_receive(self, head: Head, receive: Receiving, row: Row) -> Option<Reading>
        ensures { result ≡ continue_receive head self receive row }
    {
        if row.from != self.from
            || !row.is_receive()
            || row.channel != receive.channel
            || row.value != receive.next
        {
            return None;
        }
        Some(Reading {
            receive: Receiving::after(head, receive.channel, receive.next),
            ..self
        })
    }

    // The reading after the next row, if that can follow.
    fn follow(self, head: Head, row: Row) -> Option<Reading>
        ensures { result ≡ follow head self row }
    {
        if row.from >= head.states || row.to >= head.states {
            return None;
        }
        match self.receive {
            None => self.begin_step(head, row),
            Some(receive) => self.continue_receive(head, receive, row),
        }
    }
}

// All rows: the most steps of one state, or the first row that can't follow those before it.
pub(crate) fn read_table(head: Head, rows: &[Row]) -> Result<u32, Fault>
    ensures { result ≡ read_table head rows.now }
{
    let mut reading = Reading {
        from: 0,
        steps: 0,
        receive: None,
        widest: 0,
    };
    for (i, row) in rows.iter().enumerate() {
        // a `match` and no `ok_or` with `?`, which makes a Result of each row's reading first
        match reading.follow(head, *row) {
            Some(after) => reading = after,
            None => return Err(Fault::Row(i + 1)),
        }
    }
    match reading.receive {
        None => Ok(reading.widest),
        Some(_) => Err(Fault::Row(rows.len())),
    }
}
