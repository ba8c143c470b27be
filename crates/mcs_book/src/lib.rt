//! The book of all accepted entries, and the definitions of its meaning.
#![tactic(auto)]

mod book;
mod broken;
mod changes;
mod cores;
mod laws;
mod limits;
mod lookup;
mod whole;

pub use book::{Book, Line};
pub use broken::{answered_is_fair, each_law_refuses, taken_in_turn_is_fair};
pub use changes::{none_made, slots_stay};
pub use cores::{core_lines, known_cores, own_core};
pub use laws::{
    answered_once, answered_whole, by_priority, chain_kept, fair, found_named, made_once,
    none_beside, not_cancelled, not_deleted, open_found, queue_in_order, replayed, sent_in_order,
    serials_counted, sound, taken_once, word_joined,
};
pub use limits::{answered_plain, entry_short, lines_short};
pub use lookup::{capability_lookup, one_path, slot_lookup};
pub use whole::messages_whole;
