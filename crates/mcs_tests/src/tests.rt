//! The tests.

mod kernels;
mod machines;
mod replays;
mod streams;
mod tables;
mod texts;
