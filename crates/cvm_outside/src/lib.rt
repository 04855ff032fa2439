// The outside: named files, a sink of bytes and a disk of sectors, each as a trait with a version in
// memory, one in memory where no call fails, and one over the system.
#![tactic(auto)]

pub(crate) mod calls;
pub mod file_sectors;
pub mod file_shelf;
pub(crate) mod mem_file;
pub mod mem_sectors;
pub mod mem_shelf;
pub mod mem_sink;
pub mod out_sink;
pub mod script;
pub mod sectors;
pub mod shelf;
pub mod single_calls;
pub mod sink;
pub mod sure_sectors;
pub mod sure_shelf;
pub mod sure_sink;

pub use file_sectors::FileSectors;
pub use file_shelf::FileShelf;
pub use mem_sectors::MemSectors;
pub use mem_shelf::MemShelf;
pub use mem_sink::MemSink;
pub use out_sink::OutSink;
pub use sectors::{DiskFault, Sectors};
pub use shelf::{Shelf, ShelfFault};
pub use sink::{Sink, SinkFault};
pub use sure_sectors::SureSectors;
pub use sure_shelf::SureShelf;
pub use sure_sink::SureSink;
