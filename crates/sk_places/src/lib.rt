//! Where the store's jobs stand: the rows of its queues and of its sets of jobs, as one list; and which jobs are live.
#![tactic(auto)]

mod copies;
mod ending;
mod find;
mod gone_rows;
mod job_key;
mod job_numbers;
mod job_record;
mod job_records;
mod job_sets;
mod listed_rows;
mod names;
mod origin;
mod place_order;
mod places;
mod private_lists;
mod removals;
mod removed;
mod row;
mod row_filter;
mod row_lists;
mod rows;
mod search;
mod set_rows;
mod spare;
mod tagged_payload;
mod text_index;
mod text_key;
mod totals;

pub use ending::Ending;
pub use origin::Origin;
pub use places::Places;
pub use removed::RemovedRows;
pub use row::{Place, Row};
use rows::Rows;
pub use std::alloc::AllocError as Memory;
pub use totals::Totals;
