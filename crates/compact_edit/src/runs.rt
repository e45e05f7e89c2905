//! Running edits.
ghost use Rattle.std.specs.Prelude.{◌≡◌, ◌+◌, ◌≤◌, [], length, drop, Some, vec_len, vec_capacity, ◌<◌, IfOk, OnOk, OnErr, IsOk, MatchResult};
ghost use Rattle.compact_str.specs.Text.{size};
ghost use Rattle.compact_str.specs.Cut.{substring};
ghost use Rattle.compact_str.specs.Calls.{new, replace_range, retain};
ghost use Rattle.compact_str.specs.RetainRules.{retained_text, flag_rule, next_flag};
ghost use Rattle.std.specs.declared.ops.Bound.TheVariants.{Included, Excluded};
ghost use Rattle.compact_str.specs.Ranges.{IsRange, span};
ghost use Rattle.compact_edit.specs.Steps.{Step};
ghost use Rattle.compact_edit.specs.Runs.{RunsTo};
ghost use Rattle.compact_str.specs.Words.{AllocatesFor, INLINE_CAPACITY, owned};

use crate::edit::{Edit, Reply};
use compact_str::{Policy, PolicyString, ReserveError};
use std::ops::Bound;

/// Runs each edit on `value`, in order, and appends one reply for each to `replies`. An edit that fails, or whose
/// position is not a boundary, leaves the value unchanged; the next edit goes on.
///
/// # Errors
///
/// Returns [`ReserveError`] if there is no room for all replies, which is reserved first. No edit is run then, and
/// value and replies are unchanged. Never fails if `edits` is empty.
///
/// # Examples
///
/// ```
/// let mut value = CompactString::new(alloc, "café")?;
/// let mut replies = Vec::new(alloc);
/// let edits = [Edit::Push('s'), Edit::Insert(4, 'x'), Edit::Pop];
/// run(&mut value, &edits, &mut replies)?;
/// assert!(rt; matches!(replies.as_slice(), [Reply::Done, Reply::BadPosition, Reply::Char(Some('s'))]));
/// assert_eq!(rt; value.as_str(), "café");
/// ```
pub fn run<P: Policy>(
    value: &mut PolicyString<P>,
    edits: &[Edit<P>],
    replies: &mut Vec<Reply<P>>,
) -> Result<(), ReserveError>
    // Runs the edits in order, and appends one reply for each. Never shrinks the capacity of
    // `replies`.
    ensures run { OnOk result
        (RunsTo P.growth value.old edits.now replies.old.items replies.new.items value.new) }
    ensures count { OnOk result (vec_len replies.new ≡ vec_len replies.old + length edits.now) }
    ensures room { vec_capacity replies.old ≤ vec_capacity replies.new }

    // Fails only if room for the replies cannot be allocated. The value, the replies and their
    // capacity are then unchanged.
    ensures succeeds { vec_len replies.old + length edits.now ≤ vec_capacity replies.old
        → IsOk result }
    ensures succeeds_empty { edits.now ≡ [] → IsOk result }
    ensures allocates { OnErr result
        (vec_capacity replies.old < vec_len replies.old + length edits.now) }
    ensures err { OnErr result ((value.new ≡ value.old) × (replies.new.items ≡ replies.old.items)) }
    ensures err_capacity { OnErr result (vec_capacity replies.new ≡ vec_capacity replies.old) }
{
    replies.reserve(edits.len())?;
    for edit in edits {
        let reply = apply(value, edit);
        replies.push_reserved(reply);
    }
    Ok(())
}

fn apply<P: Policy>(value: &mut PolicyString<P>, edit: &Edit<P>) -> Reply<P>
    ensures { Step P.growth value.old edit.now result value.new }
{
    match edit {
        Edit::Push(character) => push(value, *character),
        Edit::PushStr(text) => push_str(value, text),
        Edit::Pop => Reply::Char(value.pop()),
        Edit::Insert(index, character) => insert(value, *index, *character),
        Edit::InsertStr(index, text) => insert_str(value, *index, text),
        Edit::Remove(index) => remove(value, *index),
        Edit::Truncate(len) => truncate(value, *len),
        Edit::Clear => {
            value.clear();
            Reply::Done
        }
        Edit::SplitOff(index) => split_off(value, *index),
        Edit::ReplaceRange(start, end, text) => replace_range(value, *start, *end, text),
        Edit::Drain(start, end) => drain(value, *start, *end),
        Edit::Retain(flags) => done_reply(retain(value, flags)),
        Edit::Reserve(additional) => done_reply(value.reserve(*additional)),
        Edit::ShrinkTo(min_capacity) => {
            value.shrink_to(*min_capacity);
            Reply::Done
        }
        Edit::ShrinkToFit => {
            value.shrink_to_fit();
            Reply::Done
        }
        Edit::MakeLower => done_reply(value.make_ascii_lowercase()),
        Edit::MakeUpper => done_reply(value.make_ascii_uppercase()),
        Edit::Zeroize => {
            value.zeroize();
            Reply::Done
        }
        Edit::Repeat(count) => text_reply(value.repeat(*count)),
        Edit::CloneFrom(source) => done_reply(value.clone_from(source)),
    }
}

fn push<P: Policy>(value: &mut PolicyString<P>, character: char) -> Reply<P>
    ensures { Step P.growth value.old (Edit.Push character) result value.new }
{
    done_reply(value.push(character))
}

#[tactic(auto, using(compact_str::proofs::Functions::functions))]
fn push_str<P: Policy>(value: &mut PolicyString<P>, text: &str) -> Reply<P>
    ensures { Step P.growth value.old (Edit.PushStr text.entry) result value.new }
{
    done_reply(value.push_str(text))
}

fn insert<P: Policy>(value: &mut PolicyString<P>, index: usize, character: char) -> Reply<P>
    ensures { Step P.growth value.old (Edit.Insert index character) result value.new }
{
    if !value.is_char_boundary(index) {
        return Reply::BadPosition;
    }
    done_reply(value.insert(index, character))
}

#[tactic(auto, using(compact_str::proofs::Functions::functions))]
fn insert_str<P: Policy>(value: &mut PolicyString<P>, index: usize, text: &str) -> Reply<P>
    ensures { Step P.growth value.old (Edit.InsertStr index text.entry) result value.new }
{
    let is_boundary = value.is_char_boundary(index);
    if is_boundary {
        return done_reply(value.insert_str(index, text));
    }
    Reply::BadPosition
}

#[tactic(auto, using(compact_str::proofs::Functions::functions))]
fn remove<P: Policy>(value: &mut PolicyString<P>, index: usize) -> Reply<P>
    ensures { Step P.growth value.old (Edit.Remove index) result value.new }
{
    if index >= value.len() || !value.is_char_boundary(index) {
        return Reply::BadPosition;
    }
    match value.remove(index) {
        Ok(character) => Reply::Char(Some(character)),
        Err(error) => Reply::Refused(error),
    }
}

#[tactic(auto, using(compact_str::proofs::Functions::functions))]
fn truncate<P: Policy>(value: &mut PolicyString<P>, len: usize) -> Reply<P>
    ensures { Step P.growth value.old (Edit.Truncate len) result value.new }
{
    if len < value.len() && !value.is_char_boundary(len) {
        return Reply::BadPosition;
    }
    value.truncate(len);
    Reply::Done
}

fn split_off<P: Policy>(value: &mut PolicyString<P>, index: usize) -> Reply<P>
    ensures { Step P.growth value.old (Edit.SplitOff index) result value.new }
{
    if !value.is_char_boundary(index) {
        return Reply::BadPosition;
    }
    text_reply(value.split_off(index))
}

#[tactic(auto, using(compact_str::proofs::Functions::functions))]
fn replace_range<P: Policy>(
    value: &mut PolicyString<P>,
    start: Bound<usize>,
    end: Bound<usize>,
    text: &str,
) -> Reply<P>
    ensures { Step P.growth value.old (Edit.ReplaceRange start end text.entry) result value.new }
{
    match value.check_range(start, end) {
        Some((first, last)) => {
            done_reply(value.replace_range(Bound::Included(first), Bound::Excluded(last), text))
        }
        None => Reply::BadPosition,
    }
}

/// Copies the range before the value becomes owned, so that a failure of either leaves it unchanged.
#[tactic(auto, using(compact_str::proofs::Functions::functions))]
fn drain<P: Policy>(value: &mut PolicyString<P>, start: Bound<usize>, end: Bound<usize>) -> Reply<P>
    ensures { Step P.growth value.old (Edit.Drain start end) result value.new }
{
    let Some((first, last)) = value.check_range(start, end) else {
        return Reply::BadPosition;
    };
    let range = match copy_of_range(value, first, last) {
        Ok(range) => range,
        Err(error) => return Reply::Refused(error),
    };
    match value.replace_range(Bound::Included(first), Bound::Excluded(last), "") {
        Ok(()) => Reply::Text(range),
        Err(error) => Reply::Refused(error),
    }
}

/// Copies a range into a new value.
#[tactic(auto, using(compact_str::proofs::ForCallers::caller_facts))]
fn copy_of_range<P: Policy>(
    value: &PolicyString<P>,
    first: usize,
    last: usize,
) -> Result<PolicyString<P>, ReserveError>
    requires { IsRange value.now.text (span (Included first) (Excluded last)) }
    ensures ok { IfOk result (λ v. new P.growth (substring value.now.text first last) ≡ Some v) }
    ensures allocates { OnErr result
        (INLINE_CAPACITY < size (substring value.now.text first last)) }
{
    PolicyString::new(
        value.allocator(),
        value.range(Bound::Included(first), Bound::Excluded(last)),
    )
}

/// Keeps the characters whose flag is `true`, and those with no flag.
fn retain<P: Policy>(value: &mut PolicyString<P>, flags: &[bool]) -> Result<(), ReserveError>
    ensures ok { OnOk result
        (retain P.growth value.old (retained_text flag_rule flags.now value.old.text)
        ≡ Some value.new) }
    ensures allocates { OnErr result (AllocatesFor value.old owned) }
    ensures err { OnErr result (value.new ≡ value.old) }
{
    let mut rest = flags;
    value.retain(|_| {
        let (flag, others) = next_flag(rest);
        rest = others;
        flag
    })?;
    Ok(())
}

/// Splits off the first flag; it is `true` if there is none.
fn next_flag(flags: &[bool]) -> (bool, &[bool])
    ensures { (result.0 ≡ next_flag flags.now) × (result.1.now ≡ drop 1 flags.now) }
{
    match flags.split_first() {
        Some((flag, others)) => (*flag, others),
        None => (true, flags),
    }
}

/// Converts the result of an edit that returns nothing.
fn done_reply<P: Policy>(outcome: Result<(), ReserveError>) -> Reply<P>
    ensures { MatchResult outcome (λ _. result ≡ Reply.Done) (λ e. result ≡ Reply.Refused e) }
{
    match outcome {
        Ok(()) => Reply::Done,
        Err(error) => Reply::Refused(error),
    }
}

/// Converts the result of an edit that returns a text.
fn text_reply<P: Policy>(outcome: Result<PolicyString<P>, ReserveError>) -> Reply<P>
    ensures { MatchResult outcome (λ t. result ≡ Reply.Text t) (λ e. result ≡ Reply.Refused e) }
{
    match outcome {
        Ok(text) => Reply::Text(text),
        Err(error) => Reply::Refused(error),
    }
}
