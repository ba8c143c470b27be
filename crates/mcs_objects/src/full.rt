//! The fault if no object can be added.
use thiserror::Error;

/// There is no room for another object, or the last serial was given (own). The value is handed
/// back.
#[derive(Debug, Drop, Error)]
#[error("no room for another object")]
pub struct NoRoom<T> {
    pub value: T,
}
