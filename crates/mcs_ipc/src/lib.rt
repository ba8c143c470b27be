//! Sending, calling and receiving on endpoints and notifications, replies to callers, and binding
//! contexts to threads. Each call adds the records of its row of the table, and gives that row's
//! answer (manual: Message Passing; Notifications; Threads and Execution).
#![tactic(auto)]

mod checks;
mod contexts;
mod exchanges;
mod receives;
mod replies;
mod sends;
mod transfer;

pub use contexts::{bind_context, unbind_context};
pub use exchanges::{Ends, exchange};
pub use receives::{receive, reply_receive};
pub use replies::pay;
pub use sends::{call, send};
