// The words for parts and rules, as they are printed.
ghost use Rattle.std.specs.Prelude.{◌≡◌, Some};
ghost use Rattle.script_reader.specs.Words.{part_word, why_word};

use crate::{Part, Why};
use std::fmt;

impl Part {
    /// The word for the part.
    pub fn word(self) -> &'static str
        ensures { result.now ≡ part_word self }
    {
        match self {
            Part::Json => "json",
            Part::Version => "version",
            Part::Cards => "cards",
            Part::Changes => "changes",
            Part::Actors => "actors",
            Part::Schedule => "schedule",
            Part::Faults => "faults",
            Part::Budget => "budget",
            Part::Other => "other",
        }
    }
}

impl fmt::Display for Part {
    ghost use Rattle.script_reader.specs.Words.{part_word};

    ghost output = { λ p. Some (part_word p) };

    fn fmt<W: fmt::Write>(&self, f: &mut fmt::Formatter<W>) -> fmt::Result {
        f.write_str(self.word())
    }
}

impl Why {
    /// The word for the rule.
    pub fn word(self) -> &'static str
        ensures { result.now ≡ why_word self }
    {
        match self {
            Why::Json => "json",
            Why::Form => "form",
            Why::Limit => "limit",
            Why::Path => "path",
            Why::Shape => "shape",
            Why::Honest => "honest",
            Why::Target => "target",
            Why::Pairing => "pairing",
        }
    }
}

impl fmt::Display for Why {
    ghost use Rattle.script_reader.specs.Words.{why_word};

    ghost output = { λ w. Some (why_word w) };

    fn fmt<W: fmt::Write>(&self, f: &mut fmt::Formatter<W>) -> fmt::Result {
        f.write_str(self.word())
    }
}
