//! What a stop of the primary joins, as the sentences on splicing say it, of every log of the
//! pair's definitions. A crate of laws: its functions do nothing.
#![tactic(auto)]

mod fronts;
mod pauses;
mod splices;

pub use fronts::fronts_of_each_log;
pub use pauses::pauses_of_each_log;
pub use splices::known_splices_each_log;
