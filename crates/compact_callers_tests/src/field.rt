//! Tests of the callers in `field.rt`.

use compact_asserts::{assert_equal, assert_that};
use compact_callers::field::{read_person, write_person};
use compact_testing::checks::is_inline;

/// A person with a name on the heap and no note.
const WRITTEN: &str = r#"{"firstName":"zoë, of more than 24 bytes, on the heap","note":null}"#;

#[test]
fn a_person_is_read(rt: HostRuntime) {
    let text = r#"{"firstName":"zo\u00eb","note":"n"}"#;
    let person = read_person(rt.alloc(), text).expect(&rt, "a person");
    assert_that!(&rt, is_inline(&person.first_name, "zoë"));
    assert_equal!(&rt, person.note.as_deref(), Some("n"));
}

#[test]
fn a_person_that_is_written_is_read_back(rt: HostRuntime) {
    let rt = &rt;
    let alloc = rt.alloc();
    let person = read_person(alloc, WRITTEN).expect(rt, "a person");
    let written = write_person(alloc, &person).expect(rt, "memory");
    assert_equal!(rt, written.as_str(), WRITTEN);
    let again = read_person(alloc, written.as_str()).expect(rt, "a person");
    assert_that!(rt, again == person);
}
