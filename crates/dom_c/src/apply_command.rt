//! How a command is applied and its reply kept.

ghost use Rattle.std.specs.Prelude.{◌≡◌, ℕ, List, Ok, Result};
ghost use Rattle.dom_model.specs.declared.Move.{Move as AMove};
ghost use Rattle.dom_model.specs.Commands.Command.{Command as PlainCommand, CreateElement, CreateText, NextNode, PreviousNode, Walk, HasAttribute};
ghost use Rattle.dom_commands.specs.Brief.{reply_of};
ghost use Rattle.dom_commands.specs.Views.{making_view, editing_view, reading_view};
ghost use Rattle.dom_session.specs.Sessions.{command_view, reply_view};
ghost use Rattle.dom_c.specs.Answers.{StepsState, Answers, AsksOrEnded, with_reply, at_end};
ghost use Rattle.dom_c.specs.Arguments.{ReadsArgument, IsFaultOf, utf8_name, then_make};
ghost use Rattle.dom_c.specs.Statuses.{status_of, status_at_end, out_of_memory};

use crate::argument_fault::ArgumentFault;
use crate::handle::Handle;
use crate::handle_state::HandleState;
use crate::status::{
    HP_BAD_CHOICE, HP_BAD_LENGTHS, HP_CLOSED, HP_NOT_UTF8, HP_OUT_OF_MEMORY, status_at_end,
    status_of, status_of_brief,
};
use dom_session::{
    Brief, Command, Editing, Ended, IteratorId, Making, Move, NodeId, OutOfMemory, Reading, Reply,
    Units, WalkerId,
};

impl HandleState {
    // Stores a reply, and returns its status.
    fn keep(&mut self, reply: Reply) -> u8
        ensures kept { self.new ≡ with_reply self.old reply }
        ensures status { result ≡ status_of (reply_view reply) }
    {
        let status = status_of(&reply);
        self.reply = Some(reply);
        status
    }

    /// Stores a reply with a small answer, and returns its status.
    #[inline(always)]
    pub(crate) fn note(&mut self, reply: Brief) -> u8
        ensures kept { self.new ≡ with_reply self.old (reply_of reply) }
        ensures status { result ≡ status_of (reply_view (reply_of reply)) }
    {
        self.reply = Some(Reply::Brief(reply));
        status_of_brief(reply)
    }

    /// Notes that the session has ended, out of memory.
    pub(crate) fn end(&mut self) -> u8
        ensures kept { self.new ≡ at_end self.old }
        ensures status { result ≡ out_of_memory }
    {
        self.ended = true;
        HP_OUT_OF_MEMORY
    }

    // Applies a command, and stores its reply.
    fn apply(&mut self, command: Command) -> u8
        ensures { StepsState (Ok (command_view command)) self.old self.new result }
    {
        if self.ended {
            return HP_OUT_OF_MEMORY;
        }
        match self.session.apply(command) {
            Ok(reply) => self.keep(reply),
            Err(OutOfMemory::Refused) => HP_OUT_OF_MEMORY,
            Err(OutOfMemory::Ended) => self.end(),
        }
    }

    // Applies a command that makes a node, and stores its reply.
    fn make(&mut self, command: Making) -> u8
        ensures { StepsState (Ok (making_view command)) self.old self.new result }
    {
        if self.ended {
            return HP_OUT_OF_MEMORY;
        }
        match self.session.make(command) {
            Ok(reply) => self.note(reply),
            Err(OutOfMemory::Refused) => HP_OUT_OF_MEMORY,
            Err(OutOfMemory::Ended) => self.end(),
        }
    }

    // Makes an Element, and stores the reply.
    fn make_element(&mut self, document: NodeId, name: &str) -> u8
        ensures { StepsState (Ok (CreateElement document name.now)) self.old self.new result }
    {
        if self.ended {
            return HP_OUT_OF_MEMORY;
        }
        match self.session.create_element(document, name) {
            Ok(reply) => self.note(reply),
            Err(OutOfMemory::Refused) => HP_OUT_OF_MEMORY,
            Err(OutOfMemory::Ended) => self.end(),
        }
    }

    // Makes a Text, and stores the reply.
    fn make_text(&mut self, document: NodeId, text: Units) -> u8
        ensures { StepsState (Ok (CreateText document text)) self.old self.new result }
    {
        if self.ended {
            return HP_OUT_OF_MEMORY;
        }
        match self.session.create_text(document, text) {
            Ok(reply) => self.note(reply),
            Err(OutOfMemory::Refused) => HP_OUT_OF_MEMORY,
            Err(OutOfMemory::Ended) => self.end(),
        }
    }

    /// Applies an edit of the tree, and stores its reply.
    #[inline(always)]
    pub(crate) fn edit(&mut self, command: Editing) -> u8
        ensures { StepsState (Ok (editing_view command)) self.old self.new result }
    {
        if self.ended {
            return HP_OUT_OF_MEMORY;
        }
        match self.session.edit(command) {
            Ok(reply) => self.note(reply),
            Err(OutOfMemory::Refused) => HP_OUT_OF_MEMORY,
            Err(OutOfMemory::Ended) => self.end(),
        }
    }

    /// Moves an iterator on, and stores the reply.
    pub(crate) fn next_node(&mut self, iterator: IteratorId) -> u8
        ensures { StepsState (Ok (NextNode iterator)) self.old self.new result }
    {
        if self.ended {
            return HP_OUT_OF_MEMORY;
        }
        match self.session.next_node(iterator) {
            Ok(reply) => self.note(reply),
            Err(Ended) => self.end(),
        }
    }

    /// Moves an iterator back, and stores the reply.
    pub(crate) fn previous_node(&mut self, iterator: IteratorId) -> u8
        ensures { StepsState (Ok (PreviousNode iterator)) self.old self.new result }
    {
        if self.ended {
            return HP_OUT_OF_MEMORY;
        }
        match self.session.previous_node(iterator) {
            Ok(reply) => self.note(reply),
            Err(Ended) => self.end(),
        }
    }

    // Moves a walker, and stores the reply.
    fn move_walker(&mut self, walker: WalkerId, direction: Move) -> u8
        ensures { StepsState (Ok (Walk walker direction)) self.old self.new result }
    {
        if self.ended {
            return HP_OUT_OF_MEMORY;
        }
        match self.session.walk(walker, direction) {
            Ok(reply) => self.note(reply),
            Err(Ended) => self.end(),
        }
    }

    // Stores a reply of a session that has ended, and returns its status.
    fn keep_at_end(&mut self, reply: Reply) -> u8
        ensures kept { self.new ≡ with_reply self.old reply }
        ensures status { result ≡ status_at_end (reply_view reply) }
    {
        let status = status_at_end(&reply);
        let _ = self.keep(reply);
        status
    }

    /// Answers a question that takes no memory, and stores the reply.
    pub(crate) fn read(&mut self, question: Reading) -> u8
        ensures { AsksOrEnded self.old.ended (Ok (reading_view question)) self.old self.new result }
    {
        let reply = self.session.read(question);
        if self.ended {
            return self.keep_at_end(reply);
        }
        self.keep(reply)
    }

    // Returns whether an element has an attribute, and stores the reply.
    fn ask_attribute(&mut self, element: NodeId, name: &str) -> u8
        ensures { AsksOrEnded self.old.ended (Ok (HasAttribute element name.now)) self.old self.new
            result }
    {
        let reply = self.session.read_attribute(element, name);
        if self.ended {
            return self.keep_at_end(reply);
        }
        self.keep(reply)
    }

    // Reports a fault of the arguments. The session goes on, also if there was no memory for them.
    fn refuse(&mut self, fault: ArgumentFault) -> u8
        ensures { (c : Result PlainCommand ℕ) → IsFaultOf fault c →
            StepsState c self.old self.new result }
    {
        if self.ended {
            return HP_OUT_OF_MEMORY;
        }
        match fault {
            ArgumentFault::Memory => HP_OUT_OF_MEMORY,
            ArgumentFault::NotUtf8 => HP_NOT_UTF8,
            ArgumentFault::BadLengths => HP_BAD_LENGTHS,
            ArgumentFault::BadChoice => HP_BAD_CHOICE,
        }
    }

    /// Applies a command that was read, or reports the fault of its arguments.
    pub(crate) fn take(&mut self, command: Result<Command, ArgumentFault>) -> u8
        ensures { (c : Result PlainCommand ℕ) → ReadsArgument command_view command c →
            StepsState c self.old self.new result }
    {
        match command {
            Ok(command) => self.apply(command),
            Err(fault) => self.refuse(fault),
        }
    }

    /// Applies a command that makes a node, or reports the fault of its arguments.
    pub(crate) fn take_making(&mut self, command: Result<Making, ArgumentFault>) -> u8
        ensures { (c : Result PlainCommand ℕ) → ReadsArgument making_view command c →
            StepsState c self.old self.new result }
    {
        match command {
            Ok(command) => self.make(command),
            Err(fault) => self.refuse(fault),
        }
    }

    /// Makes an Element from a name that was read, or reports its fault.
    pub(crate) fn create_element(
        &mut self,
        document: NodeId,
        name: Result<&str, ArgumentFault>,
    ) -> u8
        ensures { (c : Result (List ℕ) ℕ) → ReadsArgument (λ name. name.now) name.entry c →
            StepsState (then_make c (λ name. Ok (CreateElement document name))) self.old self.new
            result }
    {
        match name {
            Ok(name) => self.make_element(document, name),
            Err(fault) => self.refuse(fault),
        }
    }

    /// Makes a Text from data that was read, or reports its fault.
    pub(crate) fn create_text(&mut self, document: NodeId, text: Result<Units, ArgumentFault>) -> u8
        ensures { (c : Result (List ℕ) ℕ) → ReadsArgument (λ text. text) text c →
            StepsState (then_make c (λ text. Ok (CreateText document text))) self.old self.new result }
    {
        match text {
            Ok(text) => self.make_text(document, text),
            Err(fault) => self.refuse(fault),
        }
    }

    /// Makes a walker's move that was read, or reports its fault.
    pub(crate) fn walk(&mut self, walker: WalkerId, direction: Result<Move, ArgumentFault>) -> u8
        ensures { (c : Result AMove ℕ) → ReadsArgument (λ direction. direction) direction c →
            StepsState (then_make c (λ direction. Ok (Walk walker direction))) self.old self.new
            result }
    {
        match direction {
            Ok(direction) => self.move_walker(walker, direction),
            Err(fault) => self.refuse(fault),
        }
    }

    /// Returns whether an element has an attribute of a name, or reports that the name is no UTF-8.
    pub(crate) fn has_attribute(&mut self, element: NodeId, name: &[u8]) -> u8
        ensures { AsksOrEnded self.old.ended
            (then_make (utf8_name name.now) (λ name. Ok (HasAttribute element name))) self.old
            self.new result }
    {
        match str::from_utf8(name) {
            Ok(name) => self.ask_attribute(element, name),
            Err(_) => HP_NOT_UTF8,
        }
    }
}

impl Handle {
    /// Applies a command that was read, or reports the fault of its arguments.
    pub(crate) fn take(&mut self, command: Result<Command, ArgumentFault>) -> u8
        ensures { (c : Result PlainCommand ℕ) → ReadsArgument command_view command c →
            Answers self.old self.new c result }
    {
        if !self.is_open {
            return HP_CLOSED;
        }
        self.slot.lend().kept.take(command)
    }
}
