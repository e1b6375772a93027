//! The exchanges of a command with a card: what follows a response 61XX or 6CXX, and what is
//! selected on the basic channel.
#![tactic(auto)]

mod chain;
mod exchanges;
mod file;
mod select;
mod selection;
mod status;

pub use card_model::{Step, Trail};
pub use chain::{Chain, Final, asks_more, follow_up, get_response_for, same_command};
pub use exchanges::{LinkError, transmit};
pub use file::{FileAnswer, file_command, select_fcp};
pub use select::{
    is_basic_select, is_path_select, is_reading_select, named_path, select_for_reading, select_only,
};
pub use selection::Selection;
pub use status::{has_more, is_refusal, wants_more};
