// Requests: commands out of a stream of bytes. Arrays and inline lines have a file each, and `feeder` puts them together.

mod array;
mod feeder;
mod inline;
mod laws;
mod number_line;
mod state;
mod write;

pub use feeder::Feeder;
pub use laws::{one_reading, piece_by_piece, written_is_read};
pub use write::write_request;
