//! The outside: sources, sinks and shelves, in memory and over std's readers, writers and files. And, under
//! this name too, the types that all readers of GRIB messages share.
#![tactic(auto)]

mod adapters;
mod calls;
mod calm;
mod feed;
mod file_shelf;
mod folder;
mod memory_shelf;
mod memory_sink;
mod memory_source;
mod outside;
mod reading;
mod storage;
mod system_folder;

pub use adapters::{ReadSource, WriteSink};
pub use calm::{CalmSink, CalmSource};
pub use file_shelf::FileShelf;
pub use folder::{Folder, OpenedFile};
pub use grib_base::{Code, Fault, List, ReadFault as UnpackFault, Reason, Refusal, Section};
pub use memory_shelf::MemoryShelf;
pub use memory_sink::MemorySink;
pub use memory_source::MemorySource;
pub use outside::{Failed, Shelf, ShelfStop, Sink, Source, Stop};
pub use reading::{ReadStop, octets_under};
pub use system_folder::{SystemFile, SystemFolder};
