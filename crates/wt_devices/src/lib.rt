//! The devices that a program is handed: sources of bytes, sinks of bytes and folders of pages.
//!
//! Each has a count of its faults, and what it holds can be named or not. The layers above speak
//! to devices through the three traits alone, so that every promise about a device is one about the trait.
#![tactic(auto)]

mod bytes;
mod calls;
mod device;
mod directory;
mod memory;
mod shelf;
mod streams;
mod write;

pub use bytes::{push, push_count, push_number};
pub use device::{Failed, FetchRefusal, Fetched, Folder, Sink, Source};
pub use directory::DirFolder;
pub use memory::{MemSink, MemSource, NeverFailsSource};
pub use shelf::{MemFolder, NeverFailsFolder};
pub use streams::{StdSink, StdSource};
pub use write::write_all;
