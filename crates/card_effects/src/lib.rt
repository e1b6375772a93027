//! What a command does to a card of `card_model`, as laws that are used by one case split: each is the contract of a function that does nothing.
#![tactic(auto)]

mod laws;

pub use laws::{
    applications_stay, basic_channel_is_selected, channels_are_managed, command_has_effect,
    files_stay_well_formed, untouched_files_stay,
};
