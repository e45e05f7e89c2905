//! The interner: numbers and names, and many words compared with a plain list.

use compact_asserts::{assert_equal, assert_that, that};
use compact_edit::{InternError, Interner};
use compact_str::ReserveError;
use compact_testing::random::Random;
use std::alloc::Global;
use std::process::Abort;

/// A name of 25 bytes, which is not inline. A function, so that a proof need not carry each one.
fn long() -> &'static str {
    "zzzzzzzzzzzzzzzzzzzzzzzzz"
}

/// Interns a text.
fn number_of(rt: &impl Abort, names: &mut Interner, text: &str) -> u32 {
    names.intern(text).expect(rt, "memory")
}

/// Asserts the number of a text.
fn is_number(rt: &impl Abort, names: &mut Interner, text: &str, number: u32) {
    assert_equal!(rt, number_of(rt, names, text), number);
}

/// Asserts `numbers` after those of `texts` are appended.
fn are_numbers(
    rt: &impl Abort,
    names: &mut Interner,
    texts: &[&str],
    numbers: &mut Vec<u32>,
    wanted: &[u32],
) {
    names.intern_all(texts, numbers).expect(rt, "memory");
    assert_equal!(rt, numbers.as_slice(), wanted);
}

#[test]
fn a_text_has_the_place_of_its_first_occurrence(rt: HostRuntime) {
    let rt = &rt;
    let alloc = rt.alloc();
    let mut names = Interner::new(alloc);
    let mut numbers = Vec::new(alloc);
    let texts = ["a", "b", "a", ""];
    are_numbers(rt, &mut names, &texts, &mut numbers, &[0, 1, 0, 2]);
    assert_equal!(rt, names.len(), 3);
    assert_equal!(rt, names.name(1), Some("b"));
    assert_equal!(rt, names.name(3), None);
    is_number(rt, &mut names, long(), 3);
    is_number(rt, &mut names, long(), 3);
    let texts = ["", "c", "b"];
    are_numbers(rt, &mut names, &texts, &mut numbers, &[0, 1, 0, 2, 2, 4, 1]);
    are_numbers(rt, &mut names, &[], &mut numbers, &[0, 1, 0, 2, 2, 4, 1]);
    assert_equal!(rt, names.len(), 5);
}

/// Returns the word of a number: every third one has more than 24 bytes.
fn word(rt: &impl Abort, alloc: Global, id: u64) -> String {
    let text = if id.is_multiple_of(3) {
        format!(in alloc; "{id} is the number of this word")
    } else {
        format!(in alloc; "{id}")
    };
    text.expect(rt, "memory")
}

/// The words by first occurrence as a plain list, and for each possible word its index there.
#[derive(Drop)]
struct PlainList {
    words: Vec<u64>,
    places: Vec<Option<usize>>,
}

impl PlainList {
    fn new(rt: &impl Abort, alloc: Global, count: usize) -> PlainList {
        let mut places = Vec::new(alloc);
        places.resize(count, None).expect(rt, "memory");
        PlainList {
            words: Vec::new(alloc),
            places,
        }
    }

    /// Returns the index of a word, appending it if it is new.
    fn place_of(&mut self, rt: &impl Abort, id: u64) -> usize {
        if let Some(place) = self.places.get(id as usize).copied().flatten() {
            return place;
        }
        let place = self.words.len();
        self.words.push(id).expect(rt, "memory");
        if let Some(known) = self.places.get_mut(id as usize) {
            *known = Some(place);
        }
        place
    }
}

/// Asserts that each name is the word at its index in the list.
fn assert_names(rt: &impl Abort, alloc: Global, names: &Interner, list: &PlainList) {
    that(names.len() == list.words.len()).expect(rt, "as many");
    for (place, id) in list.words.iter().enumerate() {
        assert_equal!(
            rt,
            names.name(place as u32),
            Some(word(rt, alloc, *id).as_str()),
        );
    }
}

#[test]
fn many_words_are_numbered_as_in_a_plain_list(rt: HostRuntime) {
    let rt = &rt;
    let alloc = rt.alloc();
    let mut random = Random::new(1);
    let mut names = Interner::new(alloc);
    let mut list = PlainList::new(rt, alloc, 40_000);
    for _ in 0..100_000 {
        let id = random.below(40_000);
        let text = word(rt, alloc, id);
        let number = number_of(rt, &mut names, text.as_str());
        assert_equal!(rt, number as usize, list.place_of(rt, id));
    }
    assert_names(rt, alloc, &names, &list);
}

#[test]
fn errors_have_these_texts(rt: HostRuntime) {
    let rt = &rt;
    let alloc = rt.alloc();
    let shown = format!(in alloc; "{}", InternError::Full);
    assert_equal!(rt, shown.expect(rt, "memory").as_str(), "interner is full");
    let refused = InternError::from(ReserveError);
    assert_that!(rt, matches!(refused, InternError::Reserve(_)));
    let shown = format!(in alloc; "{refused}");
    let text = "Cannot allocate memory to hold CompactString";
    assert_equal!(rt, shown.expect(rt, "memory").as_str(), text);
}

#[test]
fn an_interner_with_capacity_is_empty(rt: HostRuntime) {
    let rt = &rt;
    let mut names = Interner::with_capacity(rt.alloc(), 100).expect(rt, "memory");
    assert_that!(rt, names.is_empty());
    is_number(rt, &mut names, "a", 0);
}
