// What is written but reports: the lines that tell why bytes are not replayed to their end, and a generated script.
ghost use Rattle.std.specs.Prelude.{◌≡◌, ◌≤◌, ◌++◌, decimal, OnOk, IfOk};
ghost use Rattle.report.specs.Texts.{Puts};
ghost use Rattle.script_reader.specs.Reading.{refusal};
ghost use Rattle.uicc_replay.specs.Top.{refused_line, budget_line, generated_text};

use apdu::{Bytes, Memory, Text};
use script::{Part, Why, write_script};
use script_generator::generate;
use std::alloc::Global;

pub fn put(out: &mut String, text: &str) -> Result<(), Memory>
    ensures { OnOk result (Puts out.old out.new text.now) }
{
    out.push_str(text)?;
    Ok(())
}

pub fn put_numbered(alloc: Global, out: &mut String, word: &str, number: u64) -> Result<(), Memory>
    ensures { OnOk result (Puts out.old out.new (word.now ++ decimal number)) }
{
    put(out, word)?;
    put(out, number.to_string(alloc)?.as_str())
}

/// How it is told that bytes are no script: the part, the index of its item, and the rule that it
/// breaks.
pub fn refused_text(alloc: Global, part: Part, index: u32, why: Why) -> Result<Text, Memory>
    ensures { IfOk result (λ text. text ≡ refused_line (refusal part index why)) }
{
    let mut out = String::new(alloc);
    put(&mut out, "refused ")?;
    put(&mut out, part.word())?;
    put_numbered(alloc, &mut out, " ", u64::from(index))?;
    put(&mut out, " ")?;
    put(&mut out, why.word())?;
    put(&mut out, "\n")?;
    Ok(Text::from_string(out))
}

/// How it is told that the budget is spent, and by how many events.
pub fn budget_text(alloc: Global, events: u64) -> Result<Text, Memory>
    ensures { IfOk result (λ text. text ≡ budget_line events) }
{
    let mut out = String::new(alloc);
    put_numbered(alloc, &mut out, "budget ", events)?;
    put(&mut out, "\n")?;
    Ok(Text::from_string(out))
}

/// The script of a seed and a size, and a newline.
#[tactic(auto, unfolding(crate::specs::Top::generated_text))]
pub fn generated_text(alloc: Global, seed: u32, size: u16) -> Result<Bytes, Memory>
    requires some { 1 ≤ size }
    requires few { size ≤ 250 }
    ensures { IfOk result (λ text. text ≡ generated_text seed size) }
{
    let script = generate(alloc, seed, size)?;
    let text = write_script(alloc, &script)?;
    let mut out = Bytes::from_slice(alloc, text.as_str().as_bytes())?;
    out.extend_from_slice(b"\n")?;
    Ok(out)
}
