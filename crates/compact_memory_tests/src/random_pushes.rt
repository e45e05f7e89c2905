//! Two hundred random lists of texts, pushed under each growth policy. The numbers come from a program in Python that
//! draws the same lists and follows the rules of growth.

use compact_asserts::assert_equal;
use compact_edit::{PushReport, run_pushes};
use compact_str::{Policy, Standard};
use compact_testing::memory::take_all;
use compact_testing::policies::{Double, Large, Slow};
use compact_testing::random::Random;
use compact_testing::values::ascii_text;
use std::alloc::Global;
use std::process::Abort;

/// Returns a text of `size` bytes, at most 40: of characters of one to four bytes if they fit exactly, else of `a`s.
fn text_of(size: usize) -> &'static str {
    const MIXED: &str = "aé€𝄞aé€𝄞aé€𝄞aé€𝄞";
    MIXED.get(..size).unwrap_or(ascii_text(size))
}

/// The sums of 200 reports, and a checksum over each.
#[derive(Drop)]
struct Totals {
    bytes: u64,
    moved: u64,
    refused: u64,
    checksum: u64,
}

impl Totals {
    /// Multiplies the checksum by 31 and adds a number.
    fn check(&mut self, number: u64) {
        self.checksum = self.checksum.wrapping_mul(31).wrapping_add(number);
    }

    fn add<P: Policy>(&mut self, report: &PushReport<P>) {
        let len = report.value.len() as u64;
        let refused = report.refused as u64;
        self.bytes = self.bytes.wrapping_add(len);
        self.moved = self.moved.wrapping_add(report.moved);
        self.refused = self.refused.wrapping_add(refused);
        self.check(len);
        self.check(report.value.capacity() as u64);
        self.check(report.moved);
        self.check(refused);
        for byte in report.value.as_bytes() {
            self.check(*byte as u64);
        }
    }
}

/// Pushes 200 lists of up to 299 texts of up to 40 bytes, drawn from seed 1.
fn total<P: Policy>(alloc: Global) -> Totals {
    let mut draws = Random::new(1);
    let mut totals = Totals {
        bytes: 0,
        moved: 0,
        refused: 0,
        checksum: 0,
    };
    let mut texts = [""; 300];
    for _ in 0..200 {
        let count = draws.below(300) as usize;
        for place in 0..300 {
            texts[place] = text_of(draws.below(41) as usize);
        }
        match texts.get(..count) {
            Some(list) => totals.add(&run_pushes::<P>(alloc, list)),
            None => {}
        }
    }
    totals
}

/// Asserts the totals under a policy.
fn assert_total(
    rt: &impl Abort,
    totals: &Totals,
    bytes: u64,
    moved: u64,
    refused: u64,
    checksum: u64,
) {
    assert_equal!(rt, totals.bytes, bytes);
    assert_equal!(rt, totals.moved, moved);
    assert_equal!(rt, totals.refused, refused);
    assert_equal!(rt, totals.checksum, checksum);
}

#[test]
fn random_lists_under_the_standard_policy(rt: HostRuntime) {
    let totals = total::<Standard>(rt.alloc());
    assert_total(&rt, &totals, 580784, 1461336, 0, 6930859454948778102);
}

#[test]
fn random_lists_in_buffers_that_double(rt: HostRuntime) {
    let totals = total::<Double>(rt.alloc());
    assert_total(&rt, &totals, 580784, 856792, 0, 15303355627169337319);
}

#[test]
fn random_lists_in_buffers_that_grow_by_a_quarter(rt: HostRuntime) {
    let totals = total::<Slow>(rt.alloc());
    assert_total(&rt, &totals, 580784, 2667369, 0, 13740991916807609760);
}

#[test]
fn random_lists_in_large_buffers(rt: HostRuntime) {
    let totals = total::<Large>(rt.alloc());
    assert_total(&rt, &totals, 580784, 251045, 0, 2983346250439965591);
}

#[test]
fn random_lists_without_memory(rt: HostRuntime) {
    let alloc = rt.alloc();
    let hog = take_all(alloc).expect(&rt, "room for the list of blocks");
    let standard = total::<Standard>(alloc);
    let slow = total::<Slow>(alloc);
    drop(hog);
    assert_total(&rt, &standard, 4675, 0, 27704, 13651533306246782936);
    assert_total(&rt, &slow, 4675, 0, 27704, 13651533306246782936);
}
