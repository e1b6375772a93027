// A command on a card that has spares: the files of a change that is fetched are written into them.
ghost use Rattle.std.specs.Prelude.{◌≡◌, All};
ghost use Rattle.card_model.specs.Step as table;
ghost use Rattle.card_model.specs.Limits.{IsFittingCard, IsFittingChange};
ghost use Rattle.sim_card.specs.Spares.{IsStocked};

use crate::spares::put_files;
use apdu::{Command, Response};
use card_model::{CardState, Changes, FileList};
use card_rows::on_card;

/// A command on a card.
pub fn on_stocked_card(
    changes: &Changes,
    card: &mut CardState,
    spares: &mut FileList,
    command: &Command,
) -> Response
    requires changes { All IsFittingChange changes.now }
    requires card { IsFittingCard card.old }
    requires stocked { IsStocked changes.now card.old.files spares.old }
    ensures fits { IsFittingCard card.new }
    ensures stocked { IsStocked changes.now card.new.files spares.new }
    ensures value { (card.new, result) ≡ table.on_card changes.now card.old command.now }
{
    let outcome = on_card(changes, card, command);
    if let Some(change) = outcome.fetched {
        put_files(&mut card.files, spares, change.files.as_slice());
    }
    outcome.response
}
