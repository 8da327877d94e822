// Rows filled value by value and at once, up to their last place and past it.
use row::{Full, Row};

#[test]
fn a_row_takes_as_many_as_it_has_places(rt: HostRuntime) {
    let mut row: Row<u8, 3> = Row::new();
    assert!(rt; row.as_slice().is_empty());
    for value in [7, 8, 9] {
        assert_eq!(rt; row.push(value), Ok(()));
    }
    assert_eq!(rt; row.push(10), Err(Full));
    assert!(rt; row.as_slice() == [7, 8, 9].as_slice());
}

#[test]
fn a_slice_is_taken_whole_or_not_at_all(rt: HostRuntime) {
    let mut row: Row<bool, 4> = Row::new();
    assert_eq!(rt; row.extend_from_slice(&[true, false]), Ok(()));
    assert_eq!(rt; row.extend_from_slice(&[true; 3]), Err(Full));
    assert_eq!(rt; row.extend_from_slice(&[]), Ok(()));
    assert_eq!(rt; row.extend_from_slice(&[false, true]), Ok(()));
    assert!(rt; row.as_slice() == [true, false, false, true].as_slice());
    assert_eq!(rt; row.len(), 4);
}

// However they were filled, and whatever stands behind their values.
#[test]
fn rows_of_the_same_values_are_alike(rt: HostRuntime) {
    let mut one_by_one: Row<u8, 8> = Row::new();
    assert_eq!(rt; one_by_one.push(1), Ok(()));
    assert_eq!(rt; one_by_one.push(2), Ok(()));
    let at_once: Result<Row<u8, 8>, Full> = Row::try_from(&[1, 2][..]);
    assert!(rt; at_once == Ok(one_by_one));
    let shorter: Result<Row<u8, 8>, Full> = Row::try_from(&[1][..]);
    assert!(rt; shorter != Ok(one_by_one));
    let too_many: Result<Row<u8, 8>, Full> = Row::try_from(&[0; 9][..]);
    assert!(rt; too_many == Err(Full));
}
