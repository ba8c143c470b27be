//! The names that a script gives, as a picture asks for them.
use crate::labels::Naming;
use mcs_lab_check::Labels;
use mcs_types::ObjId;
use std::str;

/// The names that a script gave by its lines `#@`.
#[derive(Drop)]
pub struct ScriptNames<'a>(pub &'a Labels);

impl<'a> Naming for ScriptNames<'a> {
    fn name(&self, object: ObjId) -> Option<&str> {
        match self.0.of(object) {
            Some(name) => str::from_utf8(name).ok(),
            None => None,
        }
    }
}
