// The rule of snapshots: a publication has the next number, names the epoch that lives and its point, and its text is what the card's
// files show at that point.
ghost use Rattle.std.specs.Prelude.{◌≡◌, ◌+◌, ◌<◌, ◌^◌, ◌==◌, ◌&&◌, IfOk};
ghost use Rattle.rules.specs.Rules as rules;
ghost use Rattle.rules.specs.State as state;

use crate::card::text_shown;
use crate::same::shows;
use apdu::{Memory, Text};
use card_model::World;
use report::Line;
use rules::Kept;
use std::alloc::Global;

/// Whether the publication has the next number, and names the living epoch and its point.
fn is_numbered_right(kept: &Kept, number: u64, epoch: u64, point: u64) -> bool
    requires { kept.now.publications + 1 < 2 ^ 64 }
    ensures { result ≡ ((number == kept.now.publications + 1) && kept.now.history.living
        && (epoch == kept.now.history.epoch) && (point == kept.now.history.events)) }
{
    number == kept.publications + 1
        && kept.history.living
        && epoch == kept.history.epoch
        && point == kept.history.events
}

/// Whether the card in the slot shows this text of a family.
fn is_shown(alloc: Global, world: &World, family: u8, text: &Text) -> Result<bool, Memory>
    ensures { IfOk result (λ b. b ≡ state.same_shown (state.shown_in world.now family)
        (Some text.now)) }
{
    let shown = text_shown(alloc, family, world)?;
    Ok(shows(&shown, text))
}

/// The rule of snapshots at a line.
pub fn has_right_snapshot(
    alloc: Global,
    world: &World,
    kept: &Kept,
    line: &Line,
) -> Result<bool, Memory>
    requires { kept.now.publications + 1 < 2 ^ 64 }
    ensures { IfOk result (λ right. right
        ≡ rules.has_right_snapshot world.now kept.now line.now) }
{
    match line {
        Line::Published {
            number,
            family,
            epoch,
            point,
            content,
        } => {
            let shown = is_shown(alloc, world, *family, content)?;
            Ok(is_numbered_right(kept, *number, *epoch, *point) && shown)
        }
        _ => Ok(true),
    }
}
