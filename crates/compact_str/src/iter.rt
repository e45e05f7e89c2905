//! Collecting, joining and extending.
ghost use Rattle.compact_str.specs.Collect.{Run, run_of};

mod as_text;
mod collect;
mod element;
mod extend;
mod gather;
mod join;
mod string;

pub use as_text::AsText;
pub use join::CompactStringExt;
pub use string::append_all;

/// The items of an iterable, in contracts.
pub trait Items: IntoIterator {
    // The run of the iterator that it becomes.
    ghost run: { Self → Run Self.Item };
}

impl<U: IntoIterator> Items for U {
    ghost run = { λ iterable. run_of U.into_iter_gives U.IntoIter.next_gives iterable };
}
