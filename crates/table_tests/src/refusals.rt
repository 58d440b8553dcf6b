// Which files are refused, and where.
use crate::files::{FILE, LAST, RECORDS};
use std::process::Abort;
use table::tables::read_types;

// Whether a file is refused with this number at this offset.
fn is_refused<'a>(file: &'a [u8], table: &'a mut [usize], number: u8, place: usize) -> bool {
    read_types(file, table).is_err_and(|fault| fault.number() == number && fault.place() == place)
}

fn refused(rt: &impl Abort, file: &[u8], number: u8, place: usize) {
    let mut table = [0; 8];
    assert!(rt; is_refused(file, &mut table, number, place));
}

#[test]
fn records_past_the_end(rt: HostRuntime) {
    refused(&rt, &[1], 1, 0);
    refused(&rt, &[1, 0, 2, 1], 1, 0);
    refused(&rt, &[1, 0, 2, 1, 1, 1, 1, 2, 1, 1], 1, 5);
}

#[test]
fn unknown_tags_and_classes(rt: HostRuntime) {
    refused(&rt, &[0, 0, 0], 2, 0);
    refused(&rt, &[1, 0, 2, 1, 1, 4, 0, 0], 2, 5);
    refused(&rt, &[2, 0, 3, 0, 1, 0, 1, 0, 2, 1, 1], 2, 6);
    refused(&rt, &[1, 0, 2, 1, 1, 3, 0, 5, 0, 13, 0, 1, 0], 2, 5);
}

#[test]
fn misfits(rt: HostRuntime) {
    refused(&rt, &[1, 0, 1, 1], 3, 0);
    refused(&rt, &[1, 0, 2, 1, 2], 3, 0);
    refused(&rt, &[1, 0, 2, 10, 1], 3, 0);
    refused(&rt, &[1, 0, 2, 1, 1, 1, 0, 3, 2, 1, 0], 3, 5);
    refused(&rt, &[1, 0, 2, 1, 1, 2, 0, 2, 0, 1], 3, 5);
}

#[test]
fn nodes_behind_good_types_are_checked_too(rt: HostRuntime) {
    refused(
        &rt,
        &[1, 0, 2, 1, 1, 1, 0, 2, 1, 0, 3, 0, 6, 0, 0, 0, 1, 0, 9],
        3,
        10,
    );
}

#[test]
fn the_earliest_fault_is_told(rt: HostRuntime) {
    refused(&rt, &[1, 0, 2, 1, 2, 4, 0, 0], 3, 0);
}

#[test]
fn every_record_wants_a_row(rt: HostRuntime) {
    assert!(rt; is_refused(&[1, 0, 2, 1, 1], &mut [], 4, 0));
    let mut short = [0; RECORDS - 1];
    assert!(rt; is_refused(FILE, &mut short, 4, LAST));
    let mut long = [0; RECORDS];
    assert!(rt; read_types(FILE, &mut long).is_ok());
}
