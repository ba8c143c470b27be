//! Records, entries and answers in at most 16 bytes each; the words that they refer to are in one
//! list that only grows.
#![tactic(auto)]

mod addresses;
mod arena;
mod entries;
mod heads;
mod kept;
mod laws;
mod lent;
mod packed;
mod unpacking;

pub use addresses::{PackedAddress, address_at};
pub use arena::Arena;
pub use entries::{OverAddress, OverPair, OverPlace, PackedEntry, Sending, place_at, unpack_entry};
pub use heads::{AnswerForm, Head, PackedAnswer, unpack_answer};
pub use kept::{KeptAnswer, KeptRecord, KeptStep};
pub use laws::{answers_kept, entries_kept, records_kept};
pub use lent::Lent;
pub use packed::{Packed, Side};
pub use unpacking::{guarded, id_of, plain, queue_of, serial_behind, thread_id, unpack};
