// The text form: what is read, and which line is told.
use std::alloc::Global;
use std::test::Fail;
use table_text::expected::{Expected, TextFault};
use table_text::text::read_text;

// The fault of a text, or none where it is read.
fn fault(heap: Global, text: &str) -> Option<TextFault> {
    read_text(heap, text).err()
}

#[test]
fn a_table_is_read(rt: HostRuntime) -> Result<(), Fail> {
    let text =
        "# a table\n\nstates 3 # three\n  range 2\nroot 1\n0 send 63 1 2\n\n1 receive 0 0 0\n1 receive 0 1 2 # last\n";
    let table = read_text(rt.alloc(), text)?;
    assert_eq!(rt; table.head.states, 3);
    assert_eq!(rt; table.head.range, 2);
    assert_eq!(rt; table.head.root, 1);
    assert!(rt; table.rows.len() == 3);
    assert!(rt; table.lines.len() == 3);
    assert_eq!(rt; table.lines[0], 6);
    assert_eq!(rt; table.lines[2], 9);
    assert_eq!(rt; table.rows[0].channel, 63);
    assert_eq!(rt; table.rows[1].kind, 2);
    assert_eq!(rt; table.rows[2].to, 2);
    Ok(())
}

#[test]
fn settings_come_first_and_in_order(rt: HostRuntime) {
    let heap = rt.alloc();
    let cases = [
        ("", 1, Expected::States),
        ("# only a comment\n", 2, Expected::States),
        ("range 2\n", 1, Expected::States),
        ("states 1\nroot 0\n", 2, Expected::Range),
        ("states 1\nrange 1\n", 3, Expected::Root),
        ("states\n", 1, Expected::States),
        ("states 4294967296\n", 1, Expected::States),
        ("states 1\nrange 256\n", 2, Expected::Range),
        ("states +1\n", 1, Expected::States),
        ("states 1 2\n", 1, Expected::LineEnd),
    ];
    for (text, line, expected) in cases {
        assert_eq!(rt; fault(heap, text), Some(TextFault::Line(line, expected)));
    }
}

#[test]
fn rows_have_five_words(rt: HostRuntime) {
    let heap = rt.alloc();
    let cases = [
        ("states 1\nrange 1\nroot 0\nx\n", Expected::From),
        ("states 1\nrange 1\nroot 0\n-1 send 0 0 0\n", Expected::From),
        ("states 1\nrange 1\nroot 0\n0\n", Expected::Kind),
        ("states 1\nrange 1\nroot 0\n0 Send 0 0 0\n", Expected::Kind),
        ("states 1\nrange 1\nroot 0\n0 send\n", Expected::Channel),
        (
            "states 1\nrange 1\nroot 0\n0 send 256 0 0\n",
            Expected::Channel,
        ),
        ("states 1\nrange 1\nroot 0\n0 send 0 x 0\n", Expected::Value),
        ("states 1\nrange 1\nroot 0\n0 send 0 0\n", Expected::To),
        (
            "states 1\nrange 1\nroot 0\n0 send 0 0 0 0\n",
            Expected::LineEnd,
        ),
    ];
    for (text, expected) in cases {
        assert_eq!(rt; fault(heap, text), Some(TextFault::Line(4, expected)));
    }
}
