//! The reader of records with no memory.

use compact_asserts::{assert_equal, assert_that};
use compact_testing::checks::are_texts;
use compact_testing::memory::take_all;
use compact_uses::read_records;
use csv::ErrorKind;

#[test]
fn without_memory_no_record_is_read_and_the_list_is_kept(rt: HostRuntime) {
    let rt = &rt;
    let alloc = rt.alloc();
    let mut records = Vec::new(alloc);
    assert_that!(
        rt,
        read_records(alloc, b"a".as_slice(), &mut records).is_ok(),
    );
    let hog = take_all(alloc).expect(rt, "room for the list of blocks");
    let read = read_records(alloc, b"b,c\n".as_slice(), &mut records);
    drop(hog);
    assert_that!(
        rt,
        read.is_err_and(|error| matches!(error.into_kind(), ErrorKind::OutOfMemory)),
    );
    assert_equal!(rt, records.len(), 1);
    let fields = records.first().expect(rt, "a record");
    assert_that!(rt, are_texts(fields.as_slice(), &["a"]));
}
