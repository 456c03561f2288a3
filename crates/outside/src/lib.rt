//! What the engine reads from and writes to: files by name, and sinks of bytes. Each trait has ghost
//! meanings that contracts above it speak of, and each has an implementation in memory, which tells
//! what it holds, and one over the system, which tells nothing.
#![tactic(auto)]

pub mod files;
pub mod folder_files;
pub mod hold;
pub mod memory_files;
pub mod memory_sink;
pub mod sink;
pub mod writer_sink;

pub use files::{Fetch, Files};
pub use folder_files::FolderFiles;
pub use hold::{Hold, HoldPoint, NoHold};
pub use memory_files::MemFiles;
pub use memory_sink::MemSink;
pub use sink::{Sink, SinkFailed, write_whole};
pub use writer_sink::WriterSink;
