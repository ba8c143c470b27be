//! Books, boots and the kernel.

mod books;
mod entries;
mod queries;
