//! Assertions of tests: `assert_that!(&rt, value.is_empty())`.
//!
//! A written-out `assert!` is a way out of the test, and the proof follows it with all that the test owns there. A
//! call of `expect` is not, and names its line on failure.
#![tactic(auto)]

ghost use Rattle.std.specs.Prelude.{◌↔◌, IsTrue, IsSome, IsOk};

use std::fmt::Debug;

/// Returns `Some` if the condition holds.
pub fn that(holds: bool) -> Option<()>
    ensures { IsSome result ↔ IsTrue holds }
{
    if holds { Some(()) } else { None }
}

/// Returns `case` as an error, unless the condition holds.
pub fn that_for<C: Debug + Drop>(case: C, holds: bool) -> Result<(), C>
    ensures { IsOk result ↔ IsTrue holds }
{
    if holds { Ok(()) } else { Err(case) }
}

/// Returns both as an error, unless they are equal.
pub fn equal<T: PartialEq + Debug + Drop>(left: T, right: T) -> Result<(), (T, T)>
    ensures { IsOk result ↔ IsTrue (T.eq left right) }
{
    if left == right {
        Ok(())
    } else {
        Err((left, right))
    }
}

/// Asserts a condition.
#[macro_export]
macro_rules! assert_that {
    ($rt:expr, $holds:expr $(,)?) => {
        $crate::that($holds).expect($rt, "it holds")
    };
}

/// Asserts equality.
#[macro_export]
macro_rules! assert_equal {
    ($rt:expr, $left:expr, $right:expr $(,)?) => {
        $crate::equal($left, $right).expect($rt, "equal")
    };
}
