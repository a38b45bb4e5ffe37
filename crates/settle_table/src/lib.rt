//! Settling of all connections, in the order of the table: what one event releases, and whether a
//! checkpoint starts.
#![tactic(auto)]

mod causes;
mod progress_table;
mod scene;
mod settling;

pub use causes::{Need, need_of};
pub use progress_table::{add_progress, clear_ages, set_progress};
pub use scene::{Scene, tuple_at};
pub use settling::settle_all;
