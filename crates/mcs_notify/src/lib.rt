//! Operations on notifications: signals, waits and bindings. Each call adds the records of its row
//! of the table, or of a part of one, and gives that row's answer (manual: Notifications).
#![tactic(auto)]

mod binding;
mod signals;
mod waits;

pub use binding::{bind, unbind};
pub use signals::{signal, signal_at};
pub use waits::{may_wait, take_bound, wait};
