// A line against the rules.
ghost use Rattle.std.specs.Prelude.{◌≡◌, Ok, None, true, false, IfOk};
ghost use Rattle.report.specs.declared.line.Line.TheVariants as line_kind;
ghost use Rattle.rules.specs.Legal.{lowest_broken as lowest_of, other_tests};
ghost use Rattle.script_reader.specs.Rules.{keeps_rules};
ghost use Rattle.trace_check.specs.Judging as spec;

use crate::answers::{are_answers_given, has_right_answer};
use crate::behind::{Behind, Bench};
use crate::card::card_inside;
use crate::edits::{has_right_done, is_lost_update_right, is_update_right, update_before};
use crate::exchanging::{is_answered_with, lose};
use crate::faults::{has_right_fault, is_end_published};
use crate::held_channels::are_channels_right;
use crate::lowest::lowest_broken;
use crate::rest::is_rest_right;
use crate::snapshots::has_right_snapshot;
use crate::turns::{has_right_place, is_turn_right};
use crate::verifications::has_right_verify;
use apdu::{Command, Memory, Response};
use planner::is_finished;
use report::Line;

/// The number of the rule of responses.
const RESPONSES: u8 = 1;

/// The tests of an exchange, done or failed, that do not look behind it.
#[derive(Drop)]
struct Sent {
    verifications: bool,
    turns: bool,
    faults: bool,
}

impl Sent {
    /// The lowest rule that is broken at an exchange with the right response; `edits` is the test of the rule of edits.
    fn lowest_with(&self, edits: bool) -> Option<u8>
        ensures { result ≡ spec.lowest_sent edits self.now }
    {
        lowest_broken(&[
            true,
            true,
            edits,
            true,
            true,
            true,
            self.verifications,
            self.turns,
            true,
            self.faults,
        ])
    }
}

impl Bench<'_> {
    /// The lowest rule that is broken at a mark.
    #[tactic(auto, using(crate::proofs::Scripts::few_actors))]
    fn test_mark(&self, behind: &Behind, line: &Line) -> Result<Option<u8>, Memory>
        requires rules { keeps_rules self.now.script.now ≡ true }
        requires space { spec.HasSpace behind.now }
        ensures { IfOk result (λ broken. broken ≡ lowest_of
            (spec.mark_tests_now self.now.script.now self.now.mode line.now behind.now)) }
    {
        let (world, kept) = (behind.slot.state(), behind.tracker.kept());
        let answers = are_answers_given(self.alloc, self.script, world, kept)?;
        let boards = behind.boards.as_slice();
        Ok(lowest_broken(&[
            true,
            true,
            true,
            are_channels_right(world, kept),
            is_rest_right(kept, &behind.displays),
            answers,
            true,
            has_right_place(self.script, self.mode, world, kept, boards, line),
            true,
            is_end_published(&kept.turn),
        ]))
    }

    /// The lowest rule that is broken at the end of the report.
    #[tactic(auto, using(crate::proofs::Scripts::few_actors))]
    fn test_end(&self, behind: &Behind) -> Result<Option<u8>, Memory>
        requires rules { keeps_rules self.now.script.now ≡ true }
        requires space { spec.HasSpace behind.now }
        ensures { IfOk result (λ broken. broken ≡ lowest_of
            (spec.end_tests_now self.now.script.now self.now.mode behind.now)) }
    {
        let (world, kept) = (behind.slot.state(), behind.tracker.kept());
        let answers = are_answers_given(self.alloc, self.script, world, kept)?;
        Ok(lowest_broken(&[
            true,
            true,
            true,
            are_channels_right(world, kept),
            is_rest_right(kept, &behind.displays),
            answers,
            true,
            is_turn_right(self.mode, world, kept),
            is_finished(self.script, kept),
            is_end_published(&kept.turn),
        ]))
    }

    /// The lowest rule that is broken at a line that is no mark and no exchange.
    #[tactic(auto, using(crate::proofs::Scripts::few_actors, crate::proofs::Following::no_response))]
    fn test_other(&self, behind: &Behind, line: &Line) -> Result<Option<u8>, Memory>
        requires rules { keeps_rules self.now.script.now ≡ true }
        requires space { spec.HasSpace behind.now }
        requires other { spec.is_sent line.now ≡ false }
        ensures { IfOk result (λ broken. broken ≡ lowest_of
            (other_tests self.now.script.now self.now.mode (spec.state_now behind.now) line.now)) }
    {
        let (world, kept) = (behind.slot.state(), behind.tracker.kept());
        let snapshots = has_right_snapshot(self.alloc, world, kept, line)?;
        let edits = has_right_done(self.alloc, self.script, kept, line)?;
        let answers = has_right_answer(self.alloc, self.script, world, kept, line)?;
        let boards = behind.boards.as_slice();
        Ok(lowest_broken(&[
            true,
            snapshots,
            edits,
            true,
            true,
            answers,
            has_right_verify(self.script, kept, line),
            has_right_place(self.script, self.mode, world, kept, boards, line),
            true,
            has_right_fault(self.script, world, kept, line),
        ]))
    }

    /// The tests of an exchange, done or failed, that do not look behind it: of verifications, of turns and of faults.
    #[tactic(auto, using(crate::proofs::Scripts::few_actors))]
    fn test_sent(&self, behind: &Behind, line: &Line) -> Sent
        requires rules { keeps_rules self.now.script.now ≡ true }
        requires space { spec.HasSpace behind.now }
        ensures { result ≡ spec.sent_tests self.now.script.now self.now.mode
            (spec.state_now behind.now) line.now }
    {
        let (world, kept) = (behind.slot.state(), behind.tracker.kept());
        let boards = behind.boards.as_slice();
        Sent {
            verifications: has_right_verify(self.script, kept, line),
            turns: has_right_place(self.script, self.mode, world, kept, boards, line),
            faults: has_right_fault(self.script, world, kept, line),
        }
    }

    /// The lowest rule that is broken at an exchange. The card has the command behind it.
    #[tactic(auto, using(crate::proofs::Sent::exchange_broken))]
    fn test_exchange(
        &self,
        behind: &mut Behind,
        line: &Line,
        actor: u8,
        command: &Command,
        response: &Response,
    ) -> Result<Option<u8>, Memory>
        requires rules { keeps_rules self.now.script.now ≡ true }
        requires space { spec.HasSpace behind.old }
        requires exchange { line.now ≡ line_kind.Exchange actor command.now response.now }
        ensures broken { IfOk result (λ broken. broken ≡ lowest_of (other_tests
            self.now.script.now self.now.mode (spec.state_now behind.old) line.now)) }
        ensures tested { result ≡ Ok None → spec.Tested line.now behind.old behind.new }
    {
        let (world, kept) = (behind.slot.state(), behind.tracker.kept());
        let update = update_before(self.alloc, self.script, world, kept, command)?;
        let sent = self.test_sent(behind, line);
        if !is_answered_with(&mut behind.slot, command, response) {
            return Ok(Some(RESPONSES));
        }
        let edits = is_update_right(self.alloc, update, response, behind.slot.state())?;
        Ok(sent.lowest_with(edits))
    }

    /// The lowest rule that is broken at a failed exchange. The card has the command behind it where it acted.
    #[tactic(auto, using(crate::proofs::Sent::failed_broken))]
    fn test_failed(
        &self,
        behind: &mut Behind,
        line: &Line,
        actor: u8,
        command: &Command,
        acted: bool,
    ) -> Result<Option<u8>, Memory>
        requires rules { keeps_rules self.now.script.now ≡ true }
        requires space { spec.HasSpace behind.old }
        requires failed { line.now ≡ line_kind.Failed actor command.now acted }
        ensures broken { IfOk result (λ broken. broken ≡ lowest_of (other_tests
            self.now.script.now self.now.mode (spec.state_now behind.old) line.now)) }
        ensures tested { result ≡ Ok None → spec.Tested line.now behind.old behind.new }
    {
        let (world, kept) = (behind.slot.state(), behind.tracker.kept());
        if card_inside(world).is_none() {
            return Ok(Some(RESPONSES));
        }
        let update = update_before(self.alloc, self.script, world, kept, command)?;
        let sent = self.test_sent(behind, line);
        lose(&mut behind.slot, command, acted);
        let edits = is_lost_update_right(self.alloc, update, behind.slot.state())?;
        Ok(sent.lowest_with(edits))
    }

    /// The lowest rule that is broken at a line.
    fn test(&self, behind: &mut Behind, line: &Line) -> Result<Option<u8>, Memory>
        requires rules { keeps_rules self.now.script.now ≡ true }
        requires space { spec.HasSpace behind.old }
        ensures broken { IfOk result (λ broken. broken ≡ lowest_of
            (spec.tests_now self.now.script.now self.now.mode line.now behind.old)) }
        ensures tested { result ≡ Ok None → spec.Tested line.now behind.old behind.new }
    {
        match line {
            Line::Turn { .. } => self.test_mark(behind, line),
            Line::Exchange {
                actor,
                command,
                response,
            } => self.test_exchange(behind, line, *actor, command, response),
            Line::Failed {
                actor,
                command,
                acted,
            } => self.test_failed(behind, line, *actor, command, *acted),
            _ => self.test_other(behind, line),
        }
    }

    /// The lowest rule that is broken at a line; where none is, what stands behind it.
    pub fn judge(&self, behind: &mut Behind, line: &Line) -> Result<Option<u8>, Memory>
        requires rules { keeps_rules self.now.script.now ≡ true }
        requires ready { spec.IsReady behind.old }
        ensures broken { IfOk result (λ broken. broken ≡ lowest_of
            (spec.tests_now self.now.script.now self.now.mode line.now behind.old)) }
        ensures follows { result ≡ Ok None
            → spec.Follows self.now.script.now line.now behind.old behind.new }
    {
        if !behind.has_room() {
            return Err(Memory);
        }
        match self.test(behind, line)? {
            Some(rule) => Ok(Some(rule)),
            None => {
                self.follow(line, behind)?;
                Ok(None)
            }
        }
    }

    /// The lowest rule that is broken at the end of the report.
    pub fn judge_end(&self, behind: &Behind) -> Result<Option<u8>, Memory>
        requires rules { keeps_rules self.now.script.now ≡ true }
        requires ready { spec.IsReady behind.now }
        ensures { IfOk result (λ broken. broken ≡ lowest_of
            (spec.end_tests_now self.now.script.now self.now.mode behind.now)) }
    {
        if !behind.has_room() {
            return Err(Memory);
        }
        self.test_end(behind)
    }
}
