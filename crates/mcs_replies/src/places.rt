//! The places of reply objects in their table.

/// The place of a reply object in its table, counted from 0.
#[derive(Clone, Copy)]
pub struct PlaceNo(pub u16);
