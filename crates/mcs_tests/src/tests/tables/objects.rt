//! Stores of objects.
use super::names::object;
use mcs_objects::Store;
use mcs_types::{Kind, ObjId, OutOfMemory};
use std::alloc::Global;
use std::test::Fail;

fn endpoint(serial: u32) -> ObjId {
    object(Kind::Endpoint, serial)
}

/// Returns a full store with room for two.
fn two(alloc: Global) -> Result<Store<u64>, OutOfMemory> {
    let mut store = Store::with_room(alloc, Kind::Endpoint, 2)?;
    for value in [10, 20] {
        if !store.is_full() {
            store.add(value);
        }
    }
    Ok(store)
}

/// A call on a store; objects are named by their serials.
#[derive(Clone, Copy)]
enum Call {
    /// Adds a value: it becomes an object with this serial, or is handed back.
    Make(u64, Option<u32>),
    Write(u32, u64),
    Remove(u32, Option<u64>),
}

fn make(store: &mut Store<u64>, value: u64, made: Option<u32>) -> bool {
    match (store.make(value), made) {
        (Ok(id), Some(serial)) => id == endpoint(serial),
        (Err(full), None) => full.value == value,
        _ => false,
    }
}

fn write(store: &mut Store<u64>, serial: u32, value: u64) -> bool {
    match store.get_mut(endpoint(serial)) {
        Some(kept) => {
            *kept = value;
            true
        }
        None => false,
    }
}

impl Call {
    /// Returns whether the call has the result that it names.
    fn answers(self, store: &mut Store<u64>) -> bool {
        match self {
            Call::Make(value, made) => make(store, value, made),
            Call::Write(serial, value) => write(store, serial, value),
            Call::Remove(serial, value) => store.remove(endpoint(serial)) == value,
        }
    }
}

/// The value and the place of an object.
type Kept = Option<(u64, u16)>;

/// Returns the value and the place of an object; the place must lead to the same value.
fn kept(store: &Store<u64>, serial: u32) -> Kept {
    let id = endpoint(serial);
    let place = store.place(id)?;
    let value = *store.get(id)?;
    if *store.get_at(id, place)? == value {
        Some((value, place))
    } else {
        None
    }
}

/// Calls on the full store; after each, the values and places of the first three objects, and how
/// many were made and exist.
const CALLS: &[(Call, (Kept, Kept, Kept), (u32, usize))] = &[
    (
        Call::Write(2, 21),
        (Some((10, 0)), Some((21, 1)), None),
        (2, 2),
    ),
    (
        Call::Make(30, None),
        (Some((10, 0)), Some((21, 1)), None),
        (2, 2),
    ),
    (
        Call::Remove(1, Some(10)),
        (None, Some((21, 1)), None),
        (2, 1),
    ),
    (Call::Remove(1, None), (None, Some((21, 1)), None), (2, 1)),
    // The place is reused, and the serial is not.
    (
        Call::Make(30, Some(3)),
        (None, Some((21, 1)), Some((30, 0))),
        (3, 2),
    ),
];

#[test]
fn objects_are_made_found_and_removed(rt: HostRuntime) -> Result<(), Fail> {
    let mut store = two(rt.alloc())?;
    store.are_apart();
    assert!(rt; store.is_full());
    for (i, &(call, objects, counts)) in CALLS.iter().enumerate() {
        assert!(rt; call.answers(&mut store), "the answer of call {i}");
        let observed = (kept(&store, 1), kept(&store, 2), kept(&store, 3));
        assert!(rt; observed == objects, "the objects after call {i}");
        assert!(rt;
            (store.given(), store.len()) == counts,
            "the counts after call {i}"
        );
    }
    assert!(rt; store.get(object(Kind::Thread, 2)).is_none());
    Ok(())
}
