//! Commands and responses between a terminal and a UICC (ETSI TS 102 221 clause 10), and what every
//! other crate stands on: paths, status words, lists that contracts see as lists, bytes, text, and
//! the streams of the outside.
#![tactic(auto)]

mod adapters;
mod class;
mod command;
mod make;
mod memory;
mod memory_stream;
mod path;
mod reserved;
mod response;
mod sequence;
mod status;
mod stream;
mod texts;

pub use adapters::{ReaderSource, WriterSink};
pub use class::{ClassKind, channel_of, class_for};
pub use command::{ApduError, Command};
pub use make::Make;
pub use memory::Memory;
pub use memory_stream::{MemorySink, MemorySource};
pub use path::Path;
pub use reserved::Reserved;
pub use response::Response;
pub use sequence::Sequence;
pub use status::Sw;
pub use stream::{Failed, Sink, Source};
pub use texts::{Bytes, Text};
