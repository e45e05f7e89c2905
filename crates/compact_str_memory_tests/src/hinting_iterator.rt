//! An iterator whose size hint is useless or far too large.

/// Yields references to items, in order. Its hint is always `(0, Some(usize::MAX))` or `(0, None)`.
#[derive(Drop)]
pub struct Hinting<'a, T> {
    rest: &'a [T],
    hints_too_much: bool,
}

/// Creates an iterator over these items.
pub fn with_hint<T>(items: &[T], hints_too_much: bool) -> Hinting<'_, T> {
    Hinting {
        rest: items,
        hints_too_much,
    }
}

impl<'a, T> Iterator for Hinting<'a, T> {
    ghost use Rattle.std.specs.Prelude.{◌≡◌, ◌+◌, length, MatchOption};
    ghost use Rattle.std.specs.Iterator.{at_most};

    type Item = &'a T;

    ghost remaining = { λ h. at_most (length h.rest.now) };

    ghost next_gives = { λ h r k. MatchOption r (k.rest.now ≡ h.rest.now)
        (λ _. length k.rest.now + 1 ≡ length h.rest.now) };

    fn next(&mut self) -> Option<&'a T> {
        let (first, others) = self.rest.split_first()?;
        self.rest = others;
        Some(first)
    }

    fn size_hint(&self) -> (usize, Option<usize>) {
        // Lets the proof see that the number of items is within the hint.
        let _left = self.rest.len();
        if self.hints_too_much {
            (0, Some(usize::MAX))
        } else {
            (0, None)
        }
    }
}
