//! A spool: records of messages in the files of one folder, with a bound on their bytes.
#![tactic(auto)]

mod alone;
mod batch_head;
mod calls;
mod consumer_name;
pub mod consumers;
mod dir;
mod dir_files;
mod dir_names;
mod end;
mod entry;
mod floor;
mod folder;
mod head;
mod journal;
pub mod laws;
mod links;
mod names;
mod position;
mod scanning;
mod segments;
mod spool;
mod start;
mod sum;
mod waiting;

pub use batch_head::{BATCH_HEAD, BatchHead};
pub use calls::{Call, run};
pub use consumer_name::ConsumerName;
pub use dir::{Dir, MOST_SEGMENTS, OpenError, reserve_for};
pub use dir_files::{DirFiles, Exclusive, Refusal};
pub use dir_names::FileName;
pub use end::{END, End};
pub use entry::{
    Entries, Entry, Introduction, Record, holds_entries, next_entry, put_introduction, put_record,
};
pub use floor::{FLOOR, Floor};
pub use folder::{Folder, FolderFault};
pub use head::{HEAD, Head};
pub use journal::{Journal, JournalFault};
pub use links::{Link, Links, OpenFault};
pub use names::{Names, ReadFault};
pub use position::{POSITION, Position, is_name};
pub use scanning::{Scanned, next_batch, scan};
pub use segments::Named;
pub use spool::Spool;
pub use waiting::{PutFault, Waiting};
