//! Tables.

mod chains;
mod contexts;
mod lookups;
mod names;
mod notifications;
mod objects;
mod queues;
mod replies;
mod rows;
mod slots;
mod threads;
