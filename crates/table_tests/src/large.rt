// Tables of the largest number of states.
use crate::rows::{head, send, silent};
use explore::refusal::Refusal;
use explore::survey::survey;
use source::source::Source;
use std::alloc::{AllocError, Global};
use std::test::Fail;
use table::row::Row;
use table::table::Table;

// Where a step of the large table leads.
fn landing(from: u32, step: u32) -> u32 {
    from.wrapping_mul(7).wrapping_add(step) % 65536
}

// 65,536 states with 8 steps each.
fn large(heap: Global) -> Result<Vec<Row>, AllocError> {
    (0..524288u32)
        .map(|i| send(i / 8, (i % 8) as u8, 0, landing(i / 8, i % 8)))
        .collect(heap)
}

// How many landings are as they were written.
fn right_landings<S: Source>(table: &S) -> usize {
    (0..524288u32)
        .filter(|i| table.landing(i / 8, i % 8, 0) == landing(i / 8, i % 8))
        .count()
}

// If a question went through all rows, these half a million questions would look at some hundred
// thousand million of them.
#[test]
fn every_question_is_quick(rt: HostRuntime) -> Result<(), Fail> {
    let rows = large(rt.alloc())?;
    let table = Table::new(head(65536, 1, 0), rows.as_slice());
    assert_eq!(rt; table.extent(), 65536);
    assert_eq!(rt; table.width(), 8);
    assert_eq!(rt; right_landings(&table), 524288);
    Ok(())
}

// Each state leads to the next one, 65,536 of them.
fn chain(heap: Global) -> Result<Vec<Row>, AllocError> {
    (0..65535u32)
        .map(|from| silent(from, from + 1))
        .collect(heap)
}

// However long the list is, there is room for 65,535 states.
#[test]
fn no_more_than_the_most(rt: HostRuntime) -> Result<(), Fail> {
    let rows = chain(rt.alloc())?;
    let table = Table::new(head(65536, 1, 0), rows.as_slice());
    let mut list = vec![in rt.alloc(); 7u32; 65537]?;
    assert_eq!(rt;
        survey(&table, list.as_mut_slice()),
        Err(Refusal::ShortOfRows)
    );
    assert!(rt; list.len() == 65537);
    assert_eq!(rt; list[65534], 65534);
    assert_eq!(rt; list[65535], 7);
    assert_eq!(rt; list[65536], 7);
    Ok(())
}

// From the second state on there are 65,535, for which there is just room.
#[test]
fn exactly_the_most(rt: HostRuntime) -> Result<(), Fail> {
    let rows = chain(rt.alloc())?;
    let table = Table::new(head(65536, 1, 1), rows.as_slice());
    let mut list = vec![in rt.alloc(); 7u32; 65536]?;
    assert_eq!(rt; survey(&table, list.as_mut_slice()), Ok(65535));
    assert!(rt; list.len() == 65536);
    assert_eq!(rt; list[65534], 65535);
    assert_eq!(rt; list[65535], 7);
    Ok(())
}
