// What the card shows of each family, kept along the lines.
ghost use Rattle.std.specs.Prelude.{◌≡◌, IfOk, OnOk};
ghost use Rattle.trace_check.specs.Displays as spec;

use crate::card::text_shown;
use crate::same::same_shown;
use apdu::{Memory, Text};
use card_model::World;
use std::alloc::Global;

/// What the card shows of a family, and what the board shows of it.
#[derive(Drop)]
pub struct Display {
    /// What the card in the slot shows; none without a card.
    pub shown: Option<Text>,
    /// The last event that changed that, or 0.
    pub changed: u64,
    /// The text of the last publication of the family.
    pub told: Text,
}

/// Of each family.
#[derive(Drop)]
pub struct Displays {
    pub records: Display,
    pub phonebook: Display,
    pub fixed: Display,
}

fn first_display(alloc: Global, family: u8, world: &World) -> Result<Display, Memory>
    ensures { IfOk result (λ d. d ≡ spec.first_display world.now family) }
{
    Ok(Display {
        shown: text_shown(alloc, family, world)?,
        changed: 0,
        told: Text::from_str(alloc, "")?,
    })
}

/// Before the first line.
pub fn first_displays(alloc: Global, world: &World) -> Result<Displays, Memory>
    ensures { IfOk result (λ displays. displays ≡ spec.first_displays world.now) }
{
    Ok(Displays {
        records: first_display(alloc, 0, world)?,
        phonebook: first_display(alloc, 1, world)?,
        fixed: first_display(alloc, 2, world)?,
    })
}

/// Behind an event of this number, which left this world.
fn refresh(
    alloc: Global,
    family: u8,
    event: u64,
    world: &World,
    display: &mut Display,
) -> Result<(), Memory>
    ensures { OnOk result (display.new ≡ spec.refreshed family event world.now display.old) }
{
    let shown = text_shown(alloc, family, world)?;
    if !same_shown(&display.shown, &shown) {
        display.changed = event;
    }
    display.shown = shown;
    Ok(())
}

/// Behind the publication of a family with this text.
fn tell(
    alloc: Global,
    family: u8,
    published: u8,
    text: &Text,
    display: &mut Display,
) -> Result<(), Memory>
    ensures { OnOk result (display.new ≡ spec.told family published text.now display.old) }
{
    if published == family {
        display.told = Text::from_str(alloc, text.as_str())?;
    }
    Ok(())
}

/// Behind an event of this number, which left this world.
pub fn refresh_all(
    alloc: Global,
    event: u64,
    world: &World,
    displays: &mut Displays,
) -> Result<(), Memory>
    ensures { OnOk result (displays.new ≡ spec.all_refreshed event world.now displays.old) }
{
    refresh(alloc, 0, event, world, &mut displays.records)?;
    refresh(alloc, 1, event, world, &mut displays.phonebook)?;
    refresh(alloc, 2, event, world, &mut displays.fixed)
}

/// Behind the publication of a family with this text.
pub fn tell_all(
    alloc: Global,
    published: u8,
    text: &Text,
    displays: &mut Displays,
) -> Result<(), Memory>
    ensures { OnOk result (displays.new ≡ spec.all_told published text.now displays.old) }
{
    tell(alloc, 0, published, text, &mut displays.records)?;
    tell(alloc, 1, published, text, &mut displays.phonebook)?;
    tell(alloc, 2, published, text, &mut displays.fixed)
}
