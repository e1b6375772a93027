// The exchanges of a call.
ghost use Rattle.std.specs.Prelude.{◌≡◌, ◌<◌, ◌≤◌, ◌-◌, ◌∷◌, ◌++◌, [], length, slice_get};
ghost use Rattle.std.specs.Option.{option_copied};

use crate::SlotFault;
use apdu::{Command, Response};
use arrayvec::ArrayVec;
use std::default::MadeWith;
use std::marker::Model;

/// An exchange: the command that was sent, and what came of it.
#[derive(Drop)]
pub struct Step {
    pub command: Command,
    pub outcome: Result<Response, SlotFault>,
}

/// What the unused places of a trail hold.
impl MadeWith<()> for Step {
    fn made_with(_maker: ()) -> Step {
        Step {
            command: Command {
                class: 0,
                ins: 0,
                p1: 0,
                p2: 0,
                body: ArrayVec::new(),
                le: None,
            },
            outcome: Err(SlotFault),
        }
    }
}

/// The exchanges of a call in their order, at most sixteen, which take no memory. Contracts see the list.
#[derive(Drop)]
pub struct Trail {
    pub steps: ArrayVec<Step, 16>,
}

impl Model for Trail {
    ghost use Rattle.std.specs.Prelude.{List};
    ghost use Rattle.card_model.specs.declared.trail.Step.{Step};

    ghost Value = { List Step };

    ghost view = { λ t. t.steps.items };
}

impl Trail {
    pub fn new() -> Trail
        ensures { result ≡ [] }
    {
        Trail {
            steps: ArrayVec::new_in(()),
        }
    }

    pub fn len(&self) -> usize
        ensures value { result ≡ length self.now }
        ensures few { result ≤ 16 }
    {
        self.steps.len()
    }

    pub fn as_slice(&self) -> &[Step]
        ensures { result.now ≡ self.now }
    {
        self.steps.as_slice()
    }

    /// How many more steps there is room for.
    pub fn room(&self) -> usize
        ensures { result ≡ 16 - length self.now }
    {
        16 - self.steps.len()
    }

    /// The last step, where there is one.
    pub fn last(&self) -> Option<&Step>
        ensures { option_copied result ≡ slice_get self.now (length self.now - 1) }
    {
        self.steps
            .as_slice()
            .get(self.steps.len().saturating_sub(1))
    }

    /// Puts a step at the end.
    pub fn push(&mut self, step: Step)
        requires { length self.old < 16 }
        ensures { self.new ≡ self.old ++ step ∷ [] }
    {
        self.steps.push(step);
    }
}
