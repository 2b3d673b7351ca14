// Sources and sinks of bytes, with counts of their faults, and whole reads and writes over them.
#![tactic(auto)]

pub mod memory_sink;
pub mod memory_source;
pub mod null_sink;
mod planned;
pub mod reading;
pub mod sink;
pub mod source;
pub mod standard;
pub mod sure_source;
mod unread;
pub mod writing;

pub use memory_sink::MemSink;
pub use memory_source::MemSource;
pub use null_sink::NullSink;
pub use reading::{ReadErr, read_all};
pub use sink::Sink;
pub use source::{Failed, Source};
pub use standard::{StdSink, StdSource};
pub use sure_source::SureSource;
pub use writing::write_all;

#[cfg(test)]
mod tests;
