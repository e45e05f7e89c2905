//! Running commands from a reader, and writing their results.
ghost use Rattle.std.specs.Prelude.{◌≡◌, ◌≤◌, OnErr, OnOk, Some};
ghost use Rattle.std.specs.Fmt.{decimal};
ghost use Rattle.std.specs.Io.BufRead.{strip_last};
ghost use Rattle.std.specs.Io.KnownBytes.{Appends};
ghost use Rattle.compact_str.specs.Text.{utf8};
ghost use Rattle.compact_lines.specs.Commands.{line_command};
ghost use Rattle.compact_lines.specs.Lines.{AnswersInput, AnswersInPart, AppendsAnswer, AppendsAnswerFront, AppendsAnswers, AppendsFront, AppendsPart, AppendsSomeAnswers, outcome_line, place_word, reply_line, value_line};

use crate::command::{Command, parse};
use crate::session::Session;
use crate::write::write_texts;
use compact_edit::Reply;
use compact_ext::ToCompactString;
use compact_str::{CompactString, ReserveError, Standard};
use std::alloc::Global;
use std::io;
use std::io::{BufRead, BufReader, Read, Write};

/// Reads commands from `reader`, one a line, and writes their outcomes to `writer`. Returns 0 at the end of the input,
/// and 1 if a read or write fails, or if there is no memory for the reader's buffer or for a line.
///
/// A command writes two lines: its outcome, and the value as `PLACE LENGTH CAPACITY TEXT`. The outcome is `refused` if
/// allocation fails, for a value or for room for the reply to an edit; the first edit makes that room, and it is kept.
/// For an unknown command, writes the one line `?`. The output of a line is written in pieces, then flushed.
///
/// If the reader's bytes are known, 0 means that all their lines were run, one by one from the empty value; if the
/// writer's are known too, that their output was appended, and nothing else. 1 means that a prefix of it was.
pub fn run_lines<R: Read, W: Write>(alloc: Global, reader: &mut R, writer: &mut W) -> u8
    // 0 if all lines were run, 1 if it stopped before a line or within its output.
    ensures status { result ≤ 1 }
    ensures answers { result ≡ 0
        → AnswersInput (R.remaining reader.old) (W.contents writer.old) (W.contents writer.new) }
    ensures stopped { result ≡ 1
        → AnswersInPart (R.remaining reader.old) (W.contents writer.old) (W.contents writer.new) }
{
    match run_reader(alloc, reader, writer) {
        Ok(()) => 0,
        Err(_) => 1,
    }
}

/// Runs each line of a reader, starting from the empty value.
fn run_reader<R: Read, W: Write>(alloc: Global, reader: &mut R, writer: &mut W) -> io::Result<()>
    ensures ok { OnOk result
        (AnswersInput (R.remaining reader.old) (W.contents writer.old) (W.contents writer.new)) }
    ensures err { OnErr result
        (AnswersInPart (R.remaining reader.old) (W.contents writer.old) (W.contents writer.new)) }
{
    let mut reader = BufReader::new(alloc, reader)?;
    let mut session = Session::new(alloc);
    run_each_line(alloc, &mut session, &mut reader, writer)
}

/// Runs each line, flushing before the next is read.
fn run_each_line<B: BufRead, W: Write>(
    alloc: Global,
    session: &mut Session,
    reader: &mut B,
    writer: &mut W,
) -> io::Result<()>
    ensures ok { OnOk result (AppendsAnswers session.old
        (B.remaining reader.old) (W.contents writer.old) (W.contents writer.new) session.new) }
    ensures err { OnErr result (AppendsSomeAnswers session.old
        (B.remaining reader.old) (W.contents writer.old) (W.contents writer.new)) }
{
    let mut line = Vec::new(alloc);
    for _ in 0..u64::MAX {
        line.clear();
        if reader.read_until(b'\n', &mut line)? == 0 {
            return Ok(());
        }
        run_line(alloc, session, without_end(line.as_slice()), writer)?;
        writer.flush()?;
    }
    // Unreachable in practice: no program runs for that many lines.
    Err(io::Error::from(io::ErrorKind::Other))
}

/// A line without its newline.
fn without_end(line: &[u8]) -> &[u8]
    ensures { result.now ≡ strip_last 10 line.now }
{
    if line.ends_with(b"\n") {
        &line[..line.len() - 1]
    } else {
        line
    }
}

fn run_line<W: Write>(
    alloc: Global,
    session: &mut Session,
    line: &[u8],
    writer: &mut W,
) -> io::Result<()>
    ensures ok { OnOk result (AppendsAnswer session.old (line_command line.now)
        (W.contents writer.old) (W.contents writer.new) session.new) }
    ensures err { OnErr result (AppendsPart session.old line.now
        (W.contents writer.old) (W.contents writer.new)) }
{
    let Ok(line) = std::str::from_utf8(line) else {
        return write_texts(&["?\n"], writer);
    };
    match parse(alloc, line)? {
        Some(command) => run_command(session, command, writer),
        None => write_texts(&["?\n"], writer),
    }
}

/// Runs a command and writes its two lines.
fn run_command<W: Write>(session: &mut Session, command: Command, writer: &mut W) -> io::Result<()>
    ensures ok { OnOk result (AppendsAnswer session.old (Some command.entry)
        (W.contents writer.old) (W.contents writer.new) session.new) }
    ensures err { OnErr result (AppendsAnswerFront session.old (Some command.entry)
        (W.contents writer.old) (W.contents writer.new) session.new) }
{
    let outcome = session.execute(command);
    write_outcome(&outcome, writer)?;
    write_value(session.value(), writer)
}

/// Writes the line for a command's outcome.
fn write_outcome<W: Write>(
    outcome: &Result<Reply<Standard>, ReserveError>,
    writer: &mut W,
) -> io::Result<()>
    ensures ok { OnOk result (Appends (W.contents writer.old) (W.contents writer.new)
        (outcome_line outcome.now)) }
    ensures err { OnErr result (AppendsFront (W.contents writer.old) (W.contents writer.new)
        (outcome_line outcome.now)) }
{
    match outcome {
        Ok(reply) => write_reply(reply, writer),
        Err(_) => write_texts(&["refused\n"], writer),
    }
}

/// Writes the line for a reply.
fn write_reply<W: Write>(reply: &Reply<Standard>, writer: &mut W) -> io::Result<()>
    ensures ok { OnOk result (Appends (W.contents writer.old) (W.contents writer.new)
        (reply_line reply.now)) }
    ensures err { OnErr result (AppendsFront (W.contents writer.old) (W.contents writer.new)
        (reply_line reply.now)) }
{
    match reply {
        Reply::Done => write_texts(&["done\n"], writer),
        Reply::Char(Some(character)) => {
            write_texts(&["char ", character.encode_utf8(&mut [0; 4]), "\n"], writer)
        }
        Reply::Char(None) => write_texts(&["none\n"], writer),
        Reply::Text(text) => write_texts(&["text ", text.as_str(), "\n"], writer),
        Reply::BadPosition => write_texts(&["bad position\n"], writer),
        Reply::Refused(_) => write_texts(&["refused\n"], writer),
    }
}

/// Writes the line for a value.
fn write_value<W: Write>(value: &CompactString, writer: &mut W) -> io::Result<()>
    ensures ok { OnOk result (Appends (W.contents writer.old) (W.contents writer.new)
        (value_line value.now)) }
    ensures err { OnErr result (AppendsFront (W.contents writer.old) (W.contents writer.new)
        (value_line value.now)) }
{
    let len = decimal(value.allocator(), value.len());
    let capacity = decimal(value.allocator(), value.capacity());
    write_texts(
        &[
            place_word(value),
            " ",
            len.as_str(),
            " ",
            capacity.as_str(),
            " ",
            value.as_str(),
            "\n",
        ],
        writer,
    )
}

/// Returns the word for a value's place.
fn place_word(value: &CompactString) -> &str
    ensures { result.now ≡ place_word value.now.placement.place }
{
    if value.is_heap_allocated() {
        return "heap";
    }
    match value.as_static_str() {
        Some(_) => "static",
        None => "inline",
    }
}

/// Formats a number, which is always inline.
fn decimal(alloc: Global, n: usize) -> CompactString
    ensures { utf8 result.text ≡ decimal n }
{
    match n.to_compact_string(alloc) {
        Ok(digits) => digits,
        Err(_) => unreachable!(),
    }
}
