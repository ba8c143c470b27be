//! Machines that run, that settle and that do not, and scripts of users.

mod held_core;
mod overlap;
mod runs;
mod scripts;
mod settlement;
