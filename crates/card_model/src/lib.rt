//! The world of a simulated card as plain values, what a command does to it, and the slot that it sits in.
#![tactic(auto)]

mod copies;
mod instruction;
mod lists;
mod slot;
mod trail;
mod world;

pub use instruction::{Instruction, Part};
pub use lists::{ArmedList, CardFiles, ChannelList, FixedList};
pub use slot::{ScriptedSlot, Slot, SlotFault, WorldRefusal};
pub use trail::{Step, Trail};
pub use world::{
    AidList, CardState, Change, Changes, ChannelState, Fault, Faults, FileList, FileState, Images,
    KeyList, PathList, PinState, Waiting, World, WorldEvent,
};
