//! Tests of the callers in `part.rt`.

use compact_asserts::assert_equal;
use compact_callers::part::{
    first_two_bytes, key_and_value, number_and_name, sides_of_arrow, sides_of_dash, unmarked,
};
use compact_testing::values::short;

#[test]
fn a_text_is_cut_at_a_sign(rt: HostRuntime) {
    let alloc = rt.alloc();
    let field = short(alloc, "clé=a=b");
    assert_equal!(&rt, key_and_value(&field), Some(("clé", "a=b")));
    let title = short(alloc, "1§é");
    assert_equal!(&rt, number_and_name(&title), Some(("1", "é")));
    assert_equal!(&rt, number_and_name(&field), None);
}

#[test]
fn any_text_is_cut_at_a_sign_past_ascii(rt: HostRuntime) {
    assert_equal!(&rt, sides_of_arrow("ä→b→c"), Some(("ä", "b→c")));
    assert_equal!(&rt, sides_of_arrow("ä–b"), None);
    assert_equal!(&rt, sides_of_dash("1–é"), Some(("1", "é")));
}

#[test]
fn a_part_at_the_front_is_found(rt: HostRuntime) {
    let rt = &rt;
    let name = short(rt.alloc(), "x-é");
    assert_equal!(rt, unmarked(&name), Some("é"));
    assert_equal!(rt, first_two_bytes(&name), "x-");
    assert_equal!(rt, first_two_bytes(&short(rt.alloc(), "aé")), "");
}
