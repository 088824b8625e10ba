// The check of a table: what is accepted, and which row is told.
use crate::rows::{head, receive, send, silent};
use std::array;
use table::check::check as check_table;
use table::fault::Fault;
use table::row::Row;

#[test]
fn heads_at_their_bounds(rt: HostRuntime) {
    assert_eq!(rt; check_table(head(1, 1, 0), &[]), Ok(()));
    assert_eq!(rt; check_table(head(65536, 32, 65535), &[]), Ok(()));
    assert_eq!(rt; check_table(head(0, 1, 0), &[]), Err(Fault::Head));
    assert_eq!(rt; check_table(head(65537, 1, 0), &[]), Err(Fault::Head));
    assert_eq!(rt; check_table(head(1, 0, 0), &[]), Err(Fault::Head));
    assert_eq!(rt; check_table(head(1, 33, 0), &[]), Err(Fault::Head));
    assert_eq!(rt; check_table(head(1, 1, 1), &[]), Err(Fault::Head));
    assert_eq!(rt;
        check_table(head(4294967295, 255, 4294967295), &[]),
        Err(Fault::Head)
    );
}

// A bad head is told before any row.
#[test]
fn head_before_rows(rt: HostRuntime) {
    assert_eq!(rt;
        check_table(head(0, 1, 0), &[silent(9, 9)]),
        Err(Fault::Head)
    );
}

// Each row that breaks a rule by itself, at the first place, in the middle and at the last.
#[test]
fn bad_rows_are_told_at_their_place(rt: HostRuntime) {
    let h = head(3, 2, 0);
    let bad = [
        silent(3, 0),
        silent(0, 3),
        Row {
            channel: 1,
            ..silent(0, 0)
        },
        Row {
            value: 1,
            ..silent(0, 0)
        },
        // numbers that no kind has
        Row {
            kind: 3,
            ..silent(0, 0)
        },
        Row {
            kind: 255,
            ..silent(0, 0)
        },
        send(0, 64, 0, 0),
        send(0, 0, 2, 0),
        receive(0, 64, 0, 0),
        receive(0, 0, 1, 0),
        receive(0, 0, 2, 0),
    ];
    for row in bad {
        assert_eq!(rt; check_table(h, &[row, silent(2, 0)]), Err(Fault::Row(1)));
        assert_eq!(rt;
            check_table(h, &[silent(0, 0), row, silent(2, 0)]),
            Err(Fault::Row(2))
        );
        assert_eq!(rt;
            check_table(h, &[silent(0, 0), silent(0, 0), row]),
            Err(Fault::Row(3))
        );
    }
}

#[test]
fn from_never_falls(rt: HostRuntime) {
    let h = head(3, 2, 0);
    assert_eq!(rt;
        check_table(h, &[silent(0, 0), silent(0, 1), silent(2, 2)]),
        Ok(())
    );
    assert_eq!(rt;
        check_table(h, &[silent(1, 0), silent(0, 1), silent(2, 2)]),
        Err(Fault::Row(2))
    );
    assert_eq!(rt;
        check_table(h, &[silent(0, 0), silent(2, 1), silent(1, 2)]),
        Err(Fault::Row(3))
    );
}

#[test]
fn receives_take_a_row_for_each_value(rt: HostRuntime) {
    let h = head(3, 2, 0);
    assert_eq!(rt;
        check_table(h, &[receive(0, 5, 0, 1), receive(0, 5, 1, 2)]),
        Ok(())
    );
    // a second receive on the same channel
    let twice = [
        receive(0, 5, 0, 1),
        receive(0, 5, 1, 2),
        receive(0, 5, 0, 0),
        receive(0, 5, 1, 0),
    ];
    assert_eq!(rt; check_table(h, &twice), Ok(()));
    // cut short at the end: the last row is told
    assert_eq!(rt; check_table(h, &[receive(0, 5, 0, 1)]), Err(Fault::Row(1)));
    assert_eq!(rt;
        check_table(h, &[silent(0, 1), receive(0, 5, 0, 1)]),
        Err(Fault::Row(2))
    );
    // interrupted: the row that interrupts is told
    let begun = receive(0, 5, 0, 1);
    assert_eq!(rt;
        check_table(h, &[begun, silent(1, 1), silent(2, 1)]),
        Err(Fault::Row(2))
    );
    let interrupting = [
        silent(0, 1),
        receive(0, 6, 1, 1),
        receive(1, 5, 1, 1),
        receive(0, 5, 0, 1),
        receive(0, 5, 2, 1),
        receive(0, 5, 1, 3),
    ];
    for row in interrupting {
        assert_eq!(rt; check_table(h, &[begun, row]), Err(Fault::Row(2)));
    }
}

// A receive at range 32, and a send behind it.
fn one_wide_receive() -> [Row; 33] {
    array::from_fn(|i| {
        if i < 32 {
            receive(0, 63, i as u8, 1)
        } else {
            send(1, 63, 31, 0)
        }
    })
}

// At range 1 a receive is one row, and at range 32 it is 32.
#[test]
fn smallest_and_largest_range(rt: HostRuntime) {
    let one = head(2, 1, 0);
    assert_eq!(rt;
        check_table(
            one,
            &[receive(0, 63, 0, 1), receive(0, 63, 0, 1), silent(1, 0)],
        ),
        Ok(())
    );
    assert_eq!(rt;
        check_table(one, &[receive(0, 63, 1, 1)]),
        Err(Fault::Row(1))
    );
    assert_eq!(rt; check_table(one, &[send(0, 63, 1, 1)]), Err(Fault::Row(1)));
    let wide = head(2, 32, 0);
    let mut rows = one_wide_receive();
    assert_eq!(rt; check_table(wide, &rows), Ok(()));
    assert_eq!(rt; check_table(wide, &rows[0..32]), Ok(()));
    assert_eq!(rt; check_table(wide, &rows[0..31]), Err(Fault::Row(31)));
    assert_eq!(rt; check_table(wide, &rows[0..1]), Err(Fault::Row(1)));
    rows[31] = receive(0, 63, 30, 1);
    assert_eq!(rt; check_table(wide, &rows), Err(Fault::Row(32)));
    rows[31] = receive(0, 63, 31, 1);
    rows[32] = send(1, 63, 32, 0);
    assert_eq!(rt; check_table(wide, &rows), Err(Fault::Row(33)));
}

// 64 steps of a state are accepted; the first row of the 65th is told.
#[test]
fn at_most_64_steps(rt: HostRuntime) {
    let h = head(2, 2, 0);
    let mut rows = [silent(0, 1); 66];
    rows[65] = silent(1, 1);
    assert_eq!(rt; check_table(h, &rows[0..64]), Ok(()));
    assert_eq!(rt; check_table(h, &rows[0..65]), Err(Fault::Row(65)));
    assert_eq!(rt; check_table(h, &rows), Err(Fault::Row(65)));
    rows[64] = silent(1, 1);
    assert_eq!(rt; check_table(h, &rows), Ok(()));
}

// 65 receives of one state.
fn many_receives() -> [Row; 130] {
    array::from_fn(|i| receive(0, 0, (i % 2) as u8, 1))
}

// The rows of a receive are one step.
#[test]
fn at_most_64_receives(rt: HostRuntime) {
    let h = head(2, 2, 0);
    let rows = many_receives();
    assert_eq!(rt; check_table(h, &rows[0..128]), Ok(()));
    assert_eq!(rt; check_table(h, &rows[0..127]), Err(Fault::Row(127)));
    assert_eq!(rt; check_table(h, &rows[0..129]), Err(Fault::Row(129)));
    // the first row of the 65th step
    assert_eq!(rt; check_table(h, &rows), Err(Fault::Row(129)));
}

// The numbers by which a fault goes: the refusal's, and that of the row that is told.
fn numbers(fault: Fault) -> (u8, usize) {
    (fault.number(), fault.row())
}

#[test]
fn a_table_is_refused_by_number_9(rt: HostRuntime) {
    assert_eq!(rt;
        check_table(head(0, 1, 0), &[]).map_err(numbers),
        Err((9, 0))
    );
    assert_eq!(rt;
        check_table(head(1, 1, 0), &[silent(1, 0)]).map_err(numbers),
        Err((9, 1))
    );
}
