//! Whole scripts.

mod failures;
mod faults;
mod limits;
mod pieces;
mod slow_writer;
mod users;
