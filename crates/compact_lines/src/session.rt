//! The value that the commands edit.
ghost use Rattle.std.specs.Prelude.{◌≡◌, ◌||◌, IfOk, OnOk, OnErr, IsTrue, IsFalse};
ghost use Rattle.compact_str.specs.Capacity.{standard_growth};
ghost use Rattle.compact_edit.specs.Steps.{Step};
ghost use Rattle.compact_lines.specs.Sessions.{Executes, command_allocates, first_state, runs_edit};

use crate::command::Command;
use compact_edit::{Edit, Reply, run};
use compact_str::{CompactString, ReserveError, Standard};
use std::alloc::Global;
use std::marker::Model;

/// The text of the command `static`.
const LETTERS: &str = "aaaaaaaaaaaaaaaaaaaaaaaaaaaaaa";

/// A value, and room for the reply to an edit. A contract sees the value, and whether there is such room.
#[derive(Drop)]
pub struct Session {
    alloc: Global,
    value: CompactString,
    replies: Vec<Reply<Standard>>,
}

impl Model for Session {
    ghost use Rattle.std.specs.Prelude.{nat_lt, vec_capacity};
    ghost use Rattle.compact_lines.specs.Sessions.{State};

    ghost Value = { State };

    ghost view = { λ s. record { value = s.value; has_room = nat_lt 0 (vec_capacity s.replies) } };
}

impl Session {
    /// Creates a session with the empty value, inline.
    pub fn new(alloc: Global) -> Self
        ensures { result ≡ first_state }
    {
        Session {
            alloc,
            value: CompactString::default(alloc),
            replies: Vec::new(alloc),
        }
    }

    /// Returns the current value.
    pub fn value(&self) -> &CompactString
        ensures { result.now ≡ self.now.value }
    {
        &self.value
    }

    /// Runs a command and returns its reply. The first edit makes room for its reply, which is kept.
    ///
    /// # Errors
    ///
    /// [`ReserveError`] if allocation fails: for the value of `new`, `cap` or `clonefrom`, or for room for the reply
    /// to an edit, even one with a bad position. The session is then unchanged.
    pub fn execute(&mut self, command: Command) -> Result<Reply<Standard>, ReserveError>
        // Executes the command, and keeps room for a reply.
        ensures executes { IfOk result (λ reply.
            Executes self.old.value command.entry reply self.new.value) }
        ensures room { OnOk result
            (self.new.has_room ≡ (runs_edit command.entry || self.old.has_room)) }

        // Fails only if allocation fails. The session is then unchanged.
        ensures allocates { OnErr result
            (IsTrue (command_allocates self.old.has_room command.entry)) }
        ensures err { OnErr result (self.new ≡ self.old) }
    {
        match command {
            Command::New(text) => {
                self.value = CompactString::new(self.alloc, text)?;
                Ok(Reply::Done)
            }
            Command::Static => {
                self.value = CompactString::const_new(self.alloc, LETTERS);
                Ok(Reply::Done)
            }
            Command::WithCapacity(capacity) => {
                self.value = CompactString::with_capacity(self.alloc, capacity)?;
                Ok(Reply::Done)
            }
            Command::CloneFrom(text) => {
                let source = CompactString::new(self.alloc, text)?;
                self.edit(Edit::CloneFrom(&source))
            }
            Command::Retain(flags) => self.edit(Edit::Retain(flags.as_slice())),
            Command::Edit(edit) => self.edit(edit),
        }
    }

    /// Runs one edit and returns its reply.
    fn edit(&mut self, edit: Edit<Standard>) -> Result<Reply<Standard>, ReserveError>
        ensures steps { IfOk result (λ reply.
            Step standard_growth self.old.value edit.entry reply self.new.value) }
        ensures room { OnOk result (IsTrue self.new.has_room) }
        ensures allocates { OnErr result (IsFalse self.old.has_room) }
        ensures err { OnErr result (self.new ≡ self.old) }
    {
        self.replies.clear();
        run(&mut self.value, &[edit], &mut self.replies)?;
        match self.replies.pop() {
            Some(reply) => Ok(reply),
            None => unreachable!(),
        }
    }
}
