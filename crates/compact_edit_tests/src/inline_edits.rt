//! 100,000 random edits of a text of at most 24 bytes. `replay/inline.rs` makes the same with Rust's `String`.

mod checksum;
mod drawn;
mod ends;
mod session;

use crate::inline_edits::ends::ENDS;
use crate::inline_edits::session::Session;
use compact_asserts::{assert_equal, assert_that};

#[test]
fn random_edits_go_as_in_a_string(rt: HostRuntime) {
    let alloc = rt.alloc();
    let mut session = Session::new(alloc, 1);
    for end in ENDS.lines() {
        for _ in 0..1000 {
            assert_that!(&rt, session.step(alloc).is_ok());
        }
        let (checksum, text) = (session.checksum(), session.text());
        let seen = format!(in alloc; "{checksum} {text}").expect(&rt, "memory");
        assert_equal!(&rt, seen.as_str(), end);
    }
}
