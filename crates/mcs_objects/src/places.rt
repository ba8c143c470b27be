//! A table with an item for each object of a kind, indexed by its serial.
ghost use Rattle.std.specs.Prelude.{◌≡◌, IfOk, None, length, option_copied, vec_len, vec_capacity};
ghost use Rattle.mcs_types.specs.declared.id.Kind.{Kind};
ghost use Rattle.mcs_types.specs.declared.id.ObjId.{ObjId};
ghost use Rattle.mcs_objects.specs.Places.{kept_at, HasPlace, AreEmpty, KeepsAt};

use mcs_types::{Kind, ObjId};
use std::alloc::{AllocError, Global};

/// Returns `count` empty places.
fn blank<T: Drop>(alloc: Global, count: u16) -> Result<Vec<Option<T>>, AllocError>
    ensures length { IfOk result (λ v. vec_len v ≡ count) }
    ensures empty { IfOk result (λ v. AreEmpty v.items) }
{
    let mut places = Vec::with_capacity(alloc, count as usize)?;
    for _ in 0..count {
        places.push(None)?;
    }
    Ok(places)
}

/// Returns `count` empty places (own).
pub fn empty_places<T: Drop>(alloc: Global, count: u16) -> Result<Vec<Option<T>>, AllocError>
    ensures length { IfOk result (λ v. length v.items ≡ count) }
    ensures nothing { IfOk result (λ v. (kind : Kind) (x : ObjId) → kept_at kind v.items x ≡ None) }
{
    let places = blank(alloc, count)?;
    Ok(places)
}

/// Returns what is kept of an object of a kind, at index serial - 1. None if nothing is kept, or
/// for an object of another kind or beyond the places (own).
pub fn kept_at<T: Drop>(kind: Kind, places: &[Option<T>], id: ObjId) -> Option<&T>
    ensures { option_copied result ≡ kept_at kind places.now id }
{
    places.get(id.place(kind)?)?.as_ref()
}

/// Sets or clears what is kept of an object of a kind, which must have a place (own).
pub fn keep<T: Drop>(kind: Kind, places: &mut Vec<Option<T>>, id: ObjId, kept: Option<T>)
    requires { HasPlace kind places.old.items id }
    ensures kept { KeepsAt kind places.old.items places.new.items id kept }
    ensures length { vec_len places.new ≡ vec_len places.old }
    ensures places { length places.new.items ≡ length places.old.items }
    ensures capacity { vec_capacity places.new ≡ vec_capacity places.old }
{
    // it has a place, so no test is needed
    places[(id.serial - 1) as usize] = kept;
}

/// Removes and returns what is kept of an object of a kind. Returns None, and changes nothing, if
/// nothing is kept, or for an object of another kind or beyond the places (own).
pub fn take<T: Drop>(kind: Kind, places: &mut Vec<Option<T>>, id: ObjId) -> Option<T>
    ensures value { result ≡ kept_at kind places.old.items id }
    ensures kept { KeepsAt kind places.old.items places.new.items id None }
    ensures length { vec_len places.new ≡ vec_len places.old }
    ensures places { length places.new.items ≡ length places.old.items }
    ensures capacity { vec_capacity places.new ≡ vec_capacity places.old }
{
    let place = id.place(kind)?;
    places.get_mut(place)?.take()
}
