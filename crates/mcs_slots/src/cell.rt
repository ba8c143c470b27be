//! What a slot holds.
ghost use Rattle.std.specs.Prelude.{◌≡◌, None};

use mcs_types::{Badge, Cap, Guard, Kind, ObjId, Rights};
use std::marker::Model;

/// The fields of a capability, or none.
#[derive(Clone, Copy)]
enum Fields {
    Empty,
    Filled {
        kind: Kind,
        rights: Rights,
        bits: u8,
        serial: u32,
        badge: Badge,
        value: u64,
    },
}

/// A capability, or none, with its fields side by side: half the size of an `Option<Cap>`, so that
/// twice as many slots fit the processor's caches.
#[derive(Clone, Copy)]
pub(crate) struct Cell {
    fields: Fields,
}

impl Model for Cell {
    ghost use Rattle.std.specs.Prelude.{Option};
    ghost use Rattle.mcs_types.specs.declared.cap.Cap.{Cap};
    ghost use Rattle.mcs_slots.specs.Cells.{cap_in, fields_again, fields_of};

    ghost Value = { Option Cap };

    ghost view = { λ c. cap_in c.fields };

    ghost inverse = { λ held. record { fields = fields_of held } };

    ghost inverse_ok = { λ c h i. record { fields = fields_again c.fields i } };
}

impl Cell {
    /// A slot that holds nothing.
    #[inline(always)]
    pub(crate) fn empty() -> Cell
        ensures { result ≡ None }
    {
        Cell {
            fields: Fields::Empty,
        }
    }

    /// A slot that holds this.
    #[inline(always)]
    pub(crate) fn of(held: Option<Cap>) -> Cell
        ensures { result ≡ held }
    {
        let fields = match held {
            None => Fields::Empty,
            Some(cap) => Fields::Filled {
                kind: cap.obj.kind,
                rights: cap.rights,
                bits: cap.guard.bits,
                serial: cap.obj.serial,
                badge: cap.badge,
                value: cap.guard.value,
            },
        };
        Cell { fields }
    }

    /// Returns what the slot holds.
    #[inline(always)]
    pub(crate) fn cap(&self) -> Option<Cap>
        ensures { result ≡ self.now }
    {
        match &self.fields {
            Fields::Empty => None,
            Fields::Filled {
                kind,
                rights,
                bits,
                serial,
                badge,
                value,
            } => Some(Cap {
                obj: ObjId {
                    kind: *kind,
                    serial: *serial,
                },
                rights: *rights,
                badge: *badge,
                guard: Guard {
                    bits: *bits,
                    value: *value,
                },
            }),
        }
    }
}
