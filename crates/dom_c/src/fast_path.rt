//! Commands that go to the session by their group, with small answers that are written at once: the calls of ordinary loops.

ghost use Rattle.std.specs.Prelude.{◌≡◌, ℕ, List, Ok, Result};
ghost use Rattle.dom_model.specs.declared.Move.{Move as AMove};
ghost use Rattle.dom_model.specs.Commands.Command.{Command as PlainCommand, CreateElement, CreateText, Walk, HasAttribute};
ghost use Rattle.dom_commands.specs.Views.{making_view, editing_view, reading_view};
ghost use Rattle.dom_c.specs.Answers.{Answers, Asks};
ghost use Rattle.dom_c.specs.Arguments.{ReadsArgument, utf8_name, then_make};
ghost use Rattle.dom_c.specs.WrittenValues.{answer_of_call, as_answered, number_out, maybe_number_out, flag_out};

use crate::argument_fault::ArgumentFault;
use crate::handle::Handle;
use crate::status::{HP_CLOSED, as_answered};
use dom_session::{Editing, Making, Move, NodeId, Reading, Units, WalkerId};

impl Handle {
    /// Applies a command that makes a node, or reports the fault of its arguments. Writes the number of the node.
    pub(crate) fn make(&mut self, command: Result<Making, ArgumentFault>, number: &mut u32) -> u8
        ensures answers { (c : Result PlainCommand ℕ) → ReadsArgument making_view command c →
            Answers self.old self.new c result }
        ensures told { number.new ≡ number_out (answer_of_call self.new result) number.old }
    {
        if !self.is_open {
            return HP_CLOSED;
        }
        let kept = &mut self.slot.lend().kept;
        let status = kept.take_making(command);
        kept.write_number(status, number);
        status
    }

    /// Makes an Element from a name that was read, or reports its fault. Writes the number of the node.
    pub(crate) fn create_element(
        &mut self,
        document: NodeId,
        name: Result<&str, ArgumentFault>,
        number: &mut u32,
    ) -> u8
        ensures answers { (c : Result (List ℕ) ℕ) → ReadsArgument (λ name. name.now) name.entry c →
            Answers self.old self.new (then_make c (λ name. Ok (CreateElement document name)))
            result }
        ensures told { number.new ≡ number_out (answer_of_call self.new result) number.old }
    {
        if !self.is_open {
            return HP_CLOSED;
        }
        let kept = &mut self.slot.lend().kept;
        let status = kept.create_element(document, name);
        kept.write_number(status, number);
        status
    }

    /// Makes a Text from data that was read, or reports its fault. Writes the number of the node.
    pub(crate) fn create_text(
        &mut self,
        document: NodeId,
        text: Result<Units, ArgumentFault>,
        number: &mut u32,
    ) -> u8
        ensures answers { (c : Result (List ℕ) ℕ) → ReadsArgument (λ text. text) text c →
            Answers self.old self.new (then_make c (λ text. Ok (CreateText document text))) result }
        ensures told { number.new ≡ number_out (answer_of_call self.new result) number.old }
    {
        if !self.is_open {
            return HP_CLOSED;
        }
        let kept = &mut self.slot.lend().kept;
        let status = kept.create_text(document, text);
        kept.write_number(status, number);
        status
    }

    /// Applies an edit of the tree.
    #[inline(always)]
    pub(crate) fn edit(&mut self, command: Editing) -> u8
        ensures { Answers self.old self.new (Ok (editing_view command)) result }
    {
        if !self.is_open {
            return HP_CLOSED;
        }
        self.slot.lend().kept.edit(command)
    }

    /// Makes a walker's move that was read, or reports its fault. Writes the node, or `HP_NONE`.
    pub(crate) fn walk(
        &mut self,
        walker: WalkerId,
        direction: Result<Move, ArgumentFault>,
        number: &mut u32,
    ) -> u8
        ensures answers { (c : Result AMove ℕ) → ReadsArgument (λ direction. direction) direction c →
            Answers self.old self.new (then_make c (λ direction. Ok (Walk walker direction)))
            result }
        ensures told { number.new ≡ maybe_number_out (answer_of_call self.new result) number.old }
    {
        if !self.is_open {
            return HP_CLOSED;
        }
        let kept = &mut self.slot.lend().kept;
        let status = kept.walk(walker, direction);
        kept.write_maybe_number(status, number);
        status
    }

    /// Writes whether an element has an attribute of a name, as 1 or 0, or reports that the name is no
    /// UTF-8.
    pub(crate) fn has_attribute(&mut self, element: NodeId, name: &[u8], flag: &mut u8) -> u8
        ensures answers { Asks self.old self.new
            (then_make (utf8_name name.now) (λ name. Ok (HasAttribute element name))) result }
        ensures told { flag.new ≡ flag_out (answer_of_call self.new (as_answered result)) flag.old }
    {
        if !self.is_open {
            return HP_CLOSED;
        }
        let kept = &mut self.slot.lend().kept;
        let status = kept.has_attribute(element, name);
        kept.write_flag(as_answered(status), flag);
        status
    }

    /// Answers a question that takes no memory.
    pub(crate) fn read(&mut self, question: Reading) -> u8
        ensures { Asks self.old self.new (Ok (reading_view question)) result }
    {
        if !self.is_open {
            return HP_CLOSED;
        }
        self.slot.lend().kept.read(question)
    }
}
