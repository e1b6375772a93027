// Laws of the card's step, each the contract of a function that does nothing.
ghost use Rattle.card_effects.specs.Laws.{HasEffect, HasBasicEffect, HasNumbersEffect};
ghost use Rattle.card_effects.specs.Laws.{SparesOthers, KeepsApplications, KeepsFine};

/// What a command does to a card, and how the card answers, is one of eleven effects.
pub fn command_has_effect()
    ensures { HasEffect }
{}

/// A SELECT on the basic channel that was done changes it; nothing else does, be it refused or on another channel.
pub fn basic_channel_is_selected()
    ensures { HasBasicEffect }
{}

/// A MANAGE CHANNEL that was done opens or closes a channel, never the basic one, and nothing else does. No number
/// comes to be open twice.
pub fn channels_are_managed()
    ensures { HasNumbersEffect }
{}

/// An UPDATE that was done changes the current file of its channel, a FETCH the files of the change that it hands over,
/// and nothing else a file.
pub fn untouched_files_stay()
    ensures { SparesOthers }
{}

/// No command changes the applications.
pub fn applications_stay()
    ensures { KeepsApplications }
{}

/// Files that are well formed stay so, where those of the changes are.
pub fn files_stay_well_formed()
    ensures { KeepsFine }
{}
