// Laws of reading, each the contract of a function that does nothing; and a report that is read back.
ghost use Rattle.std.specs.Prelude.{◌≡◌, true, Ok, IfOk};
ghost use Rattle.script_reader.specs.Rules.{keeps_rules};
ghost use Rattle.report.specs.Texts.{report_text};
ghost use Rattle.report_reader.specs.Forms.{AreLines};
ghost use Rattle.report_reader.specs.Laws.{AreReadBack, HaveOneSpelling, NamesFirst};
ghost use Rattle.report_reader.specs.Reports.{report_of};

use apdu::{Bytes, Memory};
use report::{Report, write_report};
use script::write_script;
use std::alloc::Global;

/// The text of a report is read as that report.
pub fn reports_are_read_back()
    ensures { AreReadBack }
{}

/// The bytes that are read as a report are its text.
pub fn reports_have_one_spelling()
    ensures { HaveOneSpelling }
{}

/// Where the bytes are no report's text, the line that is named is the first one up to which no report's text
/// begins as they do.
pub fn first_line_without_place_is_named()
    ensures { NamesFirst }
{}

/// The bytes of a report, from which it is read back where its script keeps the rules and its lines are those of a
/// run of it.
pub fn write_read_back(alloc: Global, report: &Report) -> Result<Bytes, Memory>
    ensures text { IfOk result (λ bytes. bytes ≡ report_text report.now) }
    ensures read_back { IfOk result (λ bytes. keeps_rules report.now.script ≡ true
        → AreLines report.now.script report.now.lines → report_of bytes ≡ Ok report.now) }
{
    write_script(alloc, &report.script)?;
    write_report(alloc, report)
}
