//! The capabilities that copies and mints make.
ghost use Rattle.std.specs.Prelude.{◌≡◌};
ghost use Rattle.mcs_book.specs.Rights.{can_badge};
ghost use Rattle.mcs_slots.specs.Masks.{masked, badged};

use mcs_types::{Badge, Cap, Guard, Kind, ObjId, Rights};

/// Returns an equal capability, built field by field, so that the compiler need not copy the
/// padding.
#[inline(always)]
pub fn by_fields(cap: &Cap) -> Cap
    ensures { result ≡ cap.now }
{
    Cap {
        obj: ObjId {
            kind: cap.obj.kind,
            serial: cap.obj.serial,
        },
        rights: cap.rights,
        badge: cap.badge,
        guard: Guard {
            bits: cap.guard.bits,
            value: cap.guard.value,
        },
    }
}

/// Returns a capability with those of its rights that are asked for (manual: Capability Spaces).
pub fn with_mask(cap: &Cap, mask: Rights) -> Cap
    ensures { result ≡ masked cap.now mask }
{
    Cap {
        rights: cap.rights.masked(&mask),
        ..by_fields(cap)
    }
}

/// A capability with those of its rights that are asked for, and with this badge.
pub fn with_badge(cap: &Cap, mask: Rights, badge: Badge) -> Cap
    ensures { result ≡ badged cap.now mask badge }
{
    Cap {
        rights: cap.rights.masked(&mask),
        badge,
        ..by_fields(cap)
    }
}

/// Returns whether a capability is of a kind that carries a badge: to an endpoint or a
/// notification.
pub fn takes_badge(cap: &Cap) -> bool
    ensures { result ≡ can_badge cap.now }
{
    matches!(cap.obj.kind, Kind::Endpoint | Kind::Notification)
}
