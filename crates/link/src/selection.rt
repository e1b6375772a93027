// What is current on the basic channel, as far as commands tell.
ghost use Rattle.std.specs.Prelude.{◌≡◌, None};
ghost use Rattle.std.specs.Option.{option_copied};
ghost use Rattle.link.specs.Commands as rule;
ghost use Rattle.link.specs.Exchanges.{selection_over, selection_by};

use crate::select::{is_basic_select, is_path_select, named_path};
use crate::status::has_more;
use apdu::{Command, Path, Response};
use card_model::Step;
use std::marker::Model;

/// The file or directory that is current on the basic channel, as far as known. Contracts see its
/// path, where one is known. The master file has none.
#[derive(Drop)]
pub struct Selection {
    current: Option<Path>,
}

impl Model for Selection {
    ghost use Rattle.std.specs.Prelude.{List, ℕ, Option};

    ghost Value = { Option (List ℕ) };

    ghost view = { λ s. s.current };
}

impl Selection {
    pub fn none() -> Selection
        ensures { result ≡ None }
    {
        Selection { current: None }
    }

    /// Whoever sees an epoch (a card session) begin or end calls it.
    pub fn clear(&mut self)
        ensures { self.new ≡ None }
    {
        self.current = None;
    }

    pub fn path(&self) -> Option<&Path>
        ensures { option_copied result ≡ self.now }
    {
        self.current.as_ref()
    }

    pub fn copy(&self) -> Selection
        ensures { result ≡ self.now }
    {
        Selection {
            current: self.current.as_ref().map(|path| path.copy()),
        }
    }

    /// Whether this path is current.
    pub fn is_at(&self, path: &Path) -> bool
        ensures { result ≡ rule.is_at self.now path.now }
    {
        match &self.current {
            Some(current) => path.equals(current),
            None => false,
        }
    }

    /// Follows a command that was answered.
    pub fn follow(&mut self, command: &Command, response: &Response)
        ensures { self.new ≡ rule.selection_after command.now response.now self.old }
    {
        let selects = response.sw.is_success() || has_more(response.sw);
        if is_basic_select(command) && selects {
            self.current = if is_path_select(command) {
                named_path(command)
            } else {
                None
            };
        }
    }

    /// Follows the exchanges of a call. Behind one that failed nothing is known.
    pub fn follow_steps(&mut self, steps: &[Step])
        ensures { self.new ≡ selection_over steps.now self.old }
    {
        for step in steps {
            self.follow_step(step);
        }
    }

    fn follow_step(&mut self, step: &Step)
        ensures { self.new ≡ selection_by step.now self.old }
    {
        match &step.outcome {
            Ok(response) => self.follow(&step.command, response),
            Err(_) => self.clear(),
        }
    }
}
