//! What bytes are read from and written to, in memory or over std, with faults counted.
#![tactic(auto)]

mod history;
mod memory;
mod memory_sink;
mod memory_source;
mod reading;
mod refusal;
mod sink;
mod source;
mod std_sink;
mod std_source;
mod writing;

pub use memory::NoMemory;
pub use memory_sink::MemSink;
pub use memory_source::MemSource;
pub use reading::{MOST_ASKED, read_whole};
pub use refusal::ReadRefusal;
pub use sink::Sink;
pub use source::{Failed, Source};
pub use std_sink::StdSink;
pub use std_source::StdSource;
pub use writing::{WriteFault, write_all};

#[cfg(test)]
mod tests;
