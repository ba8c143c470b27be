//! The operands of entries.
ghost use Rattle.std.specs.Prelude.{◌≡◌};
ghost use Rattle.mcs_plan_compile.specs.Fields.{address_if, addresses, sends, address_count, send_count, placing, fields_of};

/// An operand of an entry: one word or more.
#[derive(Clone, Copy)]
pub enum Field {
    /// A capability.
    Address,
    /// A slot.
    Place,
    Priority,
    Rights,
    Badge,
    /// The kind of object that is made.
    Kind,
    /// A label and words, to the end of the line.
    Message,
    /// Nothing.
    End,
}

/// Up to four operands.
pub type Fields = [Field; 4];

/// Returns an address, if there are this many.
fn address_if(place: u8, count: u8) -> Field
    ensures { result ≡ address_if place count }
{
    if place < count {
        Field::Address
    } else {
        Field::End
    }
}

/// Returns up to three addresses.
fn addresses(count: u8) -> Fields
    ensures { result ≡ addresses count }
{
    [
        Field::Address,
        address_if(1, count),
        address_if(2, count),
        Field::End,
    ]
}

/// Returns up to three addresses, and a message.
fn sends(count: u8) -> Fields
    ensures { result ≡ sends count }
{
    [
        Field::Address,
        address_if(1, count),
        address_if(2, count),
        Field::Message,
    ]
}

/// Returns how many addresses follow the word of an entry with no other operands; None for other
/// words.
fn address_count(key: &str) -> Option<u8>
    ensures { result ≡ address_count key.now }
{
    match key {
        "wait" | "nbwait" | "signal" | "suspend" | "resume" => Some(1),
        "unbindntfn" | "unbind" | "cancel" => Some(1),
        "recv" | "nbrecv" | "bindntfn" | "bind" => Some(2),
        _ => None,
    }
}

/// Returns how many addresses follow the word of an entry that sends a message; None for other
/// words.
fn send_count(key: &str) -> Option<u8>
    ensures { result ≡ send_count key.now }
{
    match key {
        "send" | "nbsend" | "call" => Some(1),
        "replyrecv" | "nbsendwait" => Some(2),
        "nbsendrecv" => Some(3),
        _ => None,
    }
}

/// Returns the operands of an entry that names places, or sets a priority; None for other words.
fn placing(key: &str) -> Option<Fields>
    ensures { result ≡ placing key.now }
{
    match key {
        "setprio" => Some([Field::Address, Field::Address, Field::Priority, Field::End]),
        "copy" => Some([Field::Place, Field::Place, Field::Rights, Field::End]),
        "mint" => Some([Field::Place, Field::Place, Field::Rights, Field::Badge]),
        "move" => Some([Field::Place, Field::Place, Field::End, Field::End]),
        "delete" => Some([Field::Place, Field::End, Field::End, Field::End]),
        "make" => Some([Field::Kind, Field::Place, Field::End, Field::End]),
        _ => None,
    }
}

/// Returns the operands of an entry by its word; None if the word is no entry.
pub fn fields_of(key: &str) -> Option<Fields>
    ensures { result ≡ fields_of key.now }
{
    if let Some(count) = address_count(key) {
        return Some(addresses(count));
    }
    if let Some(count) = send_count(key) {
        return Some(sends(count));
    }
    placing(key)
}
