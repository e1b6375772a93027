// The rule of rest: at the end of a turn, where nothing is open, the board shows of each family what the card shows, or a reading of the
// family was refused that began behind the last event that made it stale or changed what the card shows of it.
ghost use Rattle.std.specs.Prelude.{◌≡◌};
ghost use Rattle.trace_check.specs.Displays as spec;

use crate::displays::{Display, Displays};
use crate::same::shows;
use planner::is_quiet;
use rules::{Kept, Standing};

fn is_refusal_known(standing: &Standing, changed: u64) -> bool
    ensures { result ≡ spec.is_refusal_known standing.now changed }
{
    match standing.refused {
        None => false,
        Some(began) => standing.renewed.max(changed) < began,
    }
}

fn is_standing_right(standing: &Standing, display: &Display) -> bool
    ensures { result ≡ spec.is_standing_right standing.now display.now }
{
    match standing.shown {
        None => true,
        Some(_) => {
            shows(&display.shown, &display.told) || is_refusal_known(standing, display.changed)
        }
    }
}

fn are_standings_right(standings: &[Standing; 3], displays: &Displays) -> bool
    ensures { result ≡ spec.are_standings_right standings.now displays.now }
{
    let [records, phonebook, fixed] = standings;
    is_standing_right(records, &displays.records)
        && is_standing_right(phonebook, &displays.phonebook)
        && is_standing_right(fixed, &displays.fixed)
}

/// The rule of rest at the end of a turn.
pub fn is_rest_right(kept: &Kept, displays: &Displays) -> bool
    ensures { result ≡ spec.is_rest_right kept.now displays.now }
{
    if is_quiet(kept) {
        are_standings_right(&kept.standings, displays)
    } else {
        true
    }
}
