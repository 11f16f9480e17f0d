//! Steps of an iterator or a walker in turn, in one call.

ghost use Rattle.std.specs.Prelude.{◌≡◌, if◌then◌else◌, Ok};
ghost use Rattle.dom_model.specs.Commands.Command.{NextNode, Walk};
ghost use Rattle.dom_session.specs.StepsInTurn.{last_view};
ghost use Rattle.dom_c.specs.Arguments.{move_of_number, then_make};
ghost use Rattle.dom_c.specs.Statuses.{out_of_memory, bad_choice};
ghost use Rattle.dom_c.specs.StepsInTurn.{with_last_reply, status_of_last, count_after, TakesStepsState, TakesSteps};

use crate::arguments::move_of;
use crate::handle::Handle;
use crate::handle_state::HandleState;
use crate::status::{HP_BAD_CHOICE, HP_CLOSED, HP_OK, HP_OUT_OF_MEMORY};
use dom_session::{Ended, IteratorId, Move, StepsMade, WalkerId};

impl HandleState {
    // Stores the reply to the last step, if there was one, writes the count unless that was refused, and returns its status.
    fn note_steps(&mut self, made: StepsMade, count: &mut usize) -> u8
        ensures kept { self.new ≡ with_last_reply self.old made.last }
        ensures status { result ≡ status_of_last (last_view made.last) }
        ensures count { count.new ≡ count_after result made.count count.old }
    {
        let status = match made.last {
            Some(reply) => self.note(reply),
            None => HP_OK,
        };
        if status == HP_OK {
            *count = made.count;
        }
        status
    }

    // Moves an iterator on as often as there is room, and stores the last reply.
    fn next_nodes_into(&mut self, iterator: IteratorId, nodes: &mut [u32], count: &mut usize) -> u8
        ensures { TakesStepsState (Ok (NextNode iterator)) self.old self.new nodes.old nodes.new
            count.old count.new result }
    {
        if self.ended {
            return HP_OUT_OF_MEMORY;
        }
        match self.session.next_nodes_into(iterator, nodes) {
            Ok(made) => self.note_steps(made, count),
            Err(Ended) => self.end(),
        }
    }

    // Makes a walker's move as often as there is room, and stores the last reply.
    fn walk_into(
        &mut self,
        walker: WalkerId,
        direction: Move,
        nodes: &mut [u32],
        count: &mut usize,
    ) -> u8
        ensures { TakesStepsState (Ok (Walk walker direction)) self.old self.new nodes.old nodes.new
            count.old count.new result }
    {
        if self.ended {
            return HP_OUT_OF_MEMORY;
        }
        match self.session.walk_into(walker, direction, nodes) {
            Ok(made) => self.note_steps(made, count),
            Err(Ended) => self.end(),
        }
    }

    // Returns the status of a number that stands for none of the choices.
    fn refuse_choice(&self) -> u8
        ensures { result ≡ (if self.now.ended then out_of_memory else bad_choice) }
    {
        if self.ended {
            HP_OUT_OF_MEMORY
        } else {
            HP_BAD_CHOICE
        }
    }
}

impl Handle {
    /// Moves an iterator on as often as an array has room. Writes the nodes, and how many.
    pub(crate) fn next_nodes_into(
        &mut self,
        iterator: IteratorId,
        nodes: &mut [u32],
        count: &mut usize,
    ) -> u8
        ensures { TakesSteps self.old self.new (Ok (NextNode iterator)) nodes.old nodes.new count.old
            count.new result }
    {
        if !self.is_open {
            return HP_CLOSED;
        }
        self.slot
            .lend()
            .kept
            .next_nodes_into(iterator, nodes, count)
    }

    /// Makes a walker's move as often as an array has room. Writes the nodes, and how many.
    pub(crate) fn walk_into(
        &mut self,
        walker: WalkerId,
        direction: u8,
        nodes: &mut [u32],
        count: &mut usize,
    ) -> u8
        ensures { TakesSteps self.old self.new
            (then_make (move_of_number direction) (λ direction. Ok (Walk walker direction))) nodes.old
            nodes.new count.old count.new result }
    {
        if !self.is_open {
            return HP_CLOSED;
        }
        let kept = &mut self.slot.lend().kept;
        match move_of(direction) {
            Ok(direction) => kept.walk_into(walker, direction, nodes, count),
            Err(_) => kept.refuse_choice(),
        }
    }
}
