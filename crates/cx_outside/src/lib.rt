//! The outside as the program sees it: words, files to read and sinks to write to, in memory and real.
#![tactic(auto)]

mod counts;
mod memory_files;
mod memory_sink;
mod reading;
mod real_files;
mod real_sink;
mod unread;
mod words;
mod writing;

pub use memory_files::MemFiles;
pub use memory_sink::MemSink;
pub use reading::{FileAnswer, Files};
pub use real_files::RealFiles;
pub use real_sink::RealSink;
pub use words::Word;
pub use writing::{Failed, Sink, write_all};
