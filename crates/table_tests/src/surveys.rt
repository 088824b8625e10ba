// Surveys: the order, and the list's length around what is reached.
use crate::rows::{head, receive, send, silent};
use explore::refusal::Refusal;
use explore::survey::survey;
use source::still::Still;
use table::row::Row;
use table::table::Table;

// From 2: to 4 or 1 by a receive, then 0 by a send; 3 is never reached.
fn rows() -> [Row; 6] {
    [
        silent(1, 2),
        receive(2, 1, 0, 4),
        receive(2, 1, 1, 1),
        send(2, 0, 1, 0),
        silent(3, 0),
        silent(4, 4),
    ]
}

// What a survey of the five states answers that is lent a list of N, and the list afterwards.
fn surveyed<const N: usize>() -> (Result<usize, Refusal>, [u32; N]) {
    let rows = rows();
    let mut list = [99u32; N];
    let answer = survey(&Table::new(head(5, 2, 2), &rows), &mut list);
    (answer, list)
}

#[test]
fn order_of_step_and_value(rt: HostRuntime) {
    let (answer, list) = surveyed();
    assert_eq!(rt; answer, Ok(4));
    assert_eq!(rt; list, [2, 4, 1, 0, 99, 99]);
}

#[test]
fn exactly_enough_room(rt: HostRuntime) {
    let (answer, list) = surveyed();
    assert_eq!(rt; answer, Ok(4));
    assert_eq!(rt; list, [2, 4, 1, 0]);
}

#[test]
fn one_more_than_enough(rt: HostRuntime) {
    let (answer, list) = surveyed();
    assert_eq!(rt; answer, Ok(4));
    assert_eq!(rt; list, [2, 4, 1, 0, 99]);
}

#[test]
fn one_too_short(rt: HostRuntime) {
    let (answer, list) = surveyed();
    assert_eq!(rt; answer, Err(Refusal::ShortOfRows));
    assert_eq!(rt; list, [2, 4, 1]);
}

#[test]
fn no_room_at_all(rt: HostRuntime) {
    let (answer, _) = surveyed::<0>();
    assert_eq!(rt; answer.map_err(|refusal| refusal.number()), Err(14));
    assert_eq!(rt; survey(&Still::new(3), &mut []), Err(Refusal::ShortOfRows));
}

#[test]
fn still_reaches_its_root(rt: HostRuntime) {
    let mut list = [99u32; 2];
    assert_eq!(rt; survey(&Still::new(32), &mut list), Ok(1));
    assert_eq!(rt; list, [0, 99]);
}
