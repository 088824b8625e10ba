// A table as a source: its answers at every kind of place.
use crate::rows::{head, receive, send, silent};
use source::label::{Label, same_label};
use source::source::Source;
use table::row::Row;
use table::table::Table;

fn rows() -> [Row; 7] {
    [
        send(0, 7, 1, 1),
        receive(0, 8, 0, 2),
        receive(0, 8, 1, 3),
        silent(0, 1),
        silent(2, 0),
        receive(3, 9, 0, 3),
        receive(3, 9, 1, 0),
    ]
}

#[test]
fn numbers_of_the_whole(rt: HostRuntime) {
    let rows = rows();
    let table = Table::new(head(5, 2, 3), &rows);
    assert_eq!(rt; table.extent(), 5);
    assert_eq!(rt; table.range(), 2);
    assert_eq!(rt; table.root(), 3);
    assert_eq!(rt; table.width(), 3);
}

#[test]
fn degrees(rt: HostRuntime) {
    let rows = rows();
    let table = Table::new(head(5, 2, 3), &rows);
    assert_eq!(rt; table.degree(0), 3);
    assert_eq!(rt; table.degree(1), 0);
    assert_eq!(rt; table.degree(2), 1);
    assert_eq!(rt; table.degree(3), 1);
    assert_eq!(rt; table.degree(4), 0);
    assert_eq!(rt; table.degree(5), 0);
    assert_eq!(rt; table.degree(4294967295), 0);
}

#[test]
fn labels(rt: HostRuntime) {
    let rows = rows();
    let table = Table::new(head(5, 2, 3), &rows);
    assert_eq!(rt;
        table.label(0, 0),
        Label::Send {
            channel: 7,
            value: 1,
        }
    );
    assert_eq!(rt; table.label(0, 1), Label::Receive { channel: 8 });
    assert_eq!(rt; table.label(0, 2), Label::Silent);
    assert_eq!(rt; table.label(0, 3), Label::Silent);
    assert_eq!(rt; table.label(3, 0), Label::Receive { channel: 9 });
    assert_eq!(rt; table.label(9, 0), Label::Silent);
    assert_eq!(rt; table.label(4294967295, 4294967295), Label::Silent);
}

// A silent step and a send land alike at both values, a receive by its row, and at a value that
// there is not, or a step that there is not, every landing is the root.
#[test]
fn landings(rt: HostRuntime) {
    let rows = rows();
    let table = Table::new(head(5, 2, 3), &rows);
    assert_eq!(rt; table.landing(0, 0, 0), 1);
    assert_eq!(rt; table.landing(0, 0, 1), 1);
    assert_eq!(rt; table.landing(0, 1, 0), 2);
    assert_eq!(rt; table.landing(0, 1, 1), 3);
    assert_eq!(rt; table.landing(0, 1, 2), 3);
    assert_eq!(rt; table.landing(0, 0, 2), 3);
    assert_eq!(rt; table.landing(0, 0, 255), 3);
    assert_eq!(rt; table.landing(0, 3, 0), 3);
    assert_eq!(rt; table.landing(2, 0, 1), 0);
    assert_eq!(rt; table.landing(5, 0, 0), 3);
}

// From refused rows a table is still, of range 1.
#[test]
fn refused_is_still(rt: HostRuntime) {
    let rows = rows();
    let table = Table::new(head(3, 2, 2), &rows);
    assert_eq!(rt; table.extent(), 1);
    assert_eq!(rt; table.root(), 0);
    assert_eq!(rt; table.range(), 1);
    assert_eq!(rt; table.width(), 0);
    assert_eq!(rt; table.degree(0), 0);
    assert!(rt; same_label(table.label(0, 0), Label::Silent));
    assert_eq!(rt; table.landing(0, 0, 0), 0);
}
