//! Files of records, as `recv` writes them, printed for people and for tools.
//!
//! Begin reading at [`print_records`] (`printer`): it reads pieces from a `Device`, writes what is wanted of each
//! whole record (`record`), and reads again. `summary` makes a line for people, `json` one for tools, both of the
//! sections of the message (`section`). `line` and `ascii` pass nothing but printable ASCII. See
//! `specs/Records.antt`, `Lines.antt` and `Printing.antt`.
//!
//! A file that many connections share is made of blocks of their records. [`Blocks`] makes them, [`whole_blocks`]
//! says how far a file of them is whole, and [`print_blocks`] prints one. See `specs/Blocks.antt` and
//! `BlockPrinting.antt`. The tests are in `test_records_rows`.
#![tactic(auto)]

mod ascii;
mod block_file;
mod block_printer;
mod blocks;
mod faults;
mod json;
pub mod laws;
mod line;
mod printer;
mod record;
mod section;
mod summary;
mod value;

pub use ascii::put_ascii;
pub use block_file::{Whole, whole_blocks};
pub use block_printer::print_blocks;
pub use blocks::{BLOCK_MOST, Blocks};
pub use faults::{BlocksFault, RecordsFault};
pub use printer::{Output, Scratch, print_records, put_line_of, put_object_of};
pub use record::HEAD;
pub use value::{Binaries, binary, json_in, object_with, whole};
