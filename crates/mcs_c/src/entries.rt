//! Entries as C has them, and their lines.
ghost use Rattle.std.specs.Prelude.{◌≡◌, ◌≤◌, ◌+◌, length, nat_lt, OnErr};
ghost use Rattle.mcs_types.specs.declared.entry.Entry.TheVariants as entry;
ghost use Rattle.mcs_packing.specs.Entries.{place_of};
ghost use Rattle.mcs_trace.specs.Room.{HasRoom};
ghost use Rattle.mcs_c.specs.Entering.{Gives, addressed, entry_after, copied, entrant_of, entry_said, exchanged, fits_entrant, fits_message, is_byte, minted, moved, paired, placed, prioritized, ranged, replied, sent, shape_in, shape_of, step_after, step_said};

use mcs_packing::{OverAddress, OverPair, OverPlace, Sending};
use mcs_text::{Entrant, Key};
use mcs_trace::{LINE, Line};
use mcs_types::{
    Badge, CORES, CoreId, Kind, LABEL_BITS, MESSAGE_WORDS, OBJECTS, ObjId, Place, Prio, Rights,
};

/// Why an entry encodes no step.
#[derive(Clone, Copy)]
pub enum EntryFault {
    /// No form has this key and so many words.
    Form,
    /// A number is out of its range.
    Range,
}

/// The shapes of entries, with what distinguishes entries of one shape.
#[derive(Clone, Copy)]
pub enum Shape {
    Sends(Sending),
    Pair(OverPair),
    Address(OverAddress),
    AtPlace(OverPlace),
    ReplyRecv,
    NbSendRecv,
    NbSendWait,
    SetPriority,
    CopyCap,
    MintCap,
    MoveCap,
}

/// How many words an entry may have: up to three addresses, a label, and the words of a message.
pub const ENTRY_WORDS: usize = 4 + MESSAGE_WORDS;

/// An entry of a thread on a core, as C has it (`mcs_entry` of `mcs.h`).
#[repr(C)]
#[derive(Clone, Copy)]
pub struct McsEntry {
    /// From 0 on.
    pub core: u32,
    /// Its serial, from 1 on.
    pub thread: u32,
    /// Which form it has, from 1 on.
    pub key: u32,
    /// How many of the words count.
    pub count: u32,
    /// The numbers after the key, as the form has them: addresses, indices, depths, the bits of
    /// rights, a badge, a label, words.
    pub words: [u64; ENTRY_WORDS],
}

/// The shapes of the entries, in the order of their keys from 1 on.
const SHAPES: [Shape; 27] = [
    Shape::Sends(Sending::Send),
    Shape::Sends(Sending::NbSend),
    Shape::Sends(Sending::Call),
    Shape::Pair(OverPair::Recv),
    Shape::Pair(OverPair::NbRecv),
    Shape::Address(OverAddress::Wait),
    Shape::Address(OverAddress::NbWait),
    Shape::ReplyRecv,
    Shape::Address(OverAddress::Signal),
    Shape::SetPriority,
    Shape::Address(OverAddress::Suspend),
    Shape::Address(OverAddress::Resume),
    Shape::Pair(OverPair::BindNtfn),
    Shape::Address(OverAddress::UnbindNtfn),
    Shape::Pair(OverPair::BindCtx),
    Shape::Address(OverAddress::UnbindCtx),
    Shape::Address(OverAddress::CancelBadged),
    Shape::CopyCap,
    Shape::MintCap,
    Shape::MoveCap,
    Shape::AtPlace(OverPlace::DeleteCap),
    Shape::AtPlace(OverPlace::MakeEndpoint),
    Shape::AtPlace(OverPlace::MakeNotification),
    Shape::AtPlace(OverPlace::MakeReply),
    Shape::AtPlace(OverPlace::MakeContext),
    Shape::NbSendRecv,
    Shape::NbSendWait,
];

/// Returns the shape of the entries with this key in a table of shapes.
fn shape_in(shapes: &[Shape], key: u32) -> Option<Shape>
    ensures { result ≡ shape_in shapes.now key }
{
    if key == 0 {
        return None;
    }
    match shapes.get(key as usize - 1) {
        Some(shape) => Some(*shape),
        None => None,
    }
}

/// Returns the shape of the entries with this key, and which of them it is.
#[tactic(auto, unfolding(crate::specs::Entering::shape_of))]
fn shape_of(key: u32) -> Option<Shape>
    ensures { result ≡ shape_of key }
{
    shape_in(&SHAPES, key)
}

/// Returns whether a message may have this label and so many words.
fn fits_message(label: u64, words: &[u64]) -> bool
    ensures { result ≡ fits_message label words.now }
{
    label < 1 << LABEL_BITS && words.len() <= MESSAGE_WORDS
}

/// Returns the number of a byte.
fn byte_of(number: u64) -> Result<u8, EntryFault>
    ensures { Gives (λ b. b) result (ranged (is_byte number) number) }
{
    u8::try_from(number).map_err(|_| EntryFault::Range)
}

/// Returns the place of an index and a depth.
fn place_of(index: u64, depth: u64) -> Result<Place, EntryFault>
    ensures { Gives (λ p. p) result (ranged (is_byte depth) (place_of index depth)) }
{
    Ok(Place {
        index,
        depth: byte_of(depth)?,
    })
}

/// Returns the rights of these bits.
fn rights_of(bits: u64) -> Result<Rights, EntryFault>
    ensures { Gives (λ r. r) result (ranged (nat_lt bits 16) bits) }
{
    Rights::new(byte_of(bits)?).ok_or(EntryFault::Range)
}

/// Appends the line of an entry that sends a message.
fn write_sent(
    line: &mut Line,
    from: Entrant,
    form: Sending,
    numbers: &[u64],
) -> Result<(), EntryFault>
    requires room { HasRoom line.old LINE }
    ensures writes { Gives (λ u. line.new) result
        (entry_after line.old from (sent form numbers.now)) }
    ensures unchanged { OnErr result (line.new ≡ line.old) }
{
    let [cap, label, words @ ..] = numbers else {
        return Err(EntryFault::Form);
    };
    if !fits_message(*label, words) {
        return Err(EntryFault::Range);
    }
    match form {
        Sending::Send => line.send(from, Key::Send, *cap, *label, words),
        Sending::NbSend => line.send(from, Key::NbSend, *cap, *label, words),
        Sending::Call => line.send(from, Key::Call, *cap, *label, words),
    }
    Ok(())
}

/// Appends the line of ReplyRecv.
fn write_replied(line: &mut Line, from: Entrant, numbers: &[u64]) -> Result<(), EntryFault>
    requires room { HasRoom line.old LINE }
    ensures writes { Gives (λ u. line.new) result
        (entry_after line.old from (replied entry.ReplyRecv numbers.now)) }
    ensures unchanged { OnErr result (line.new ≡ line.old) }
{
    let [cap, reply, label, words @ ..] = numbers else {
        return Err(EntryFault::Form);
    };
    if !fits_message(*label, words) {
        return Err(EntryFault::Range);
    }
    line.send_receive(from, Key::ReplyRecv, *cap, *reply, *label, words);
    Ok(())
}

/// Appends the line of an entry `NBSendWait`.
fn write_handed_on(line: &mut Line, from: Entrant, numbers: &[u64]) -> Result<(), EntryFault>
    requires room { HasRoom line.old LINE }
    ensures writes { Gives (λ u. line.new) result
        (entry_after line.old from (replied entry.NbSendWait numbers.now)) }
    ensures unchanged { OnErr result (line.new ≡ line.old) }
{
    let [cap, source, label, words @ ..] = numbers else {
        return Err(EntryFault::Form);
    };
    if !fits_message(*label, words) {
        return Err(EntryFault::Range);
    }
    line.send_receive(from, Key::NbSendWait, *cap, *source, *label, words);
    Ok(())
}

/// Appends the line of NBSendRecv.
fn write_exchanged(line: &mut Line, from: Entrant, numbers: &[u64]) -> Result<(), EntryFault>
    requires room { HasRoom line.old LINE }
    ensures writes { Gives (λ u. line.new) result
        (entry_after line.old from (exchanged numbers.now)) }
    ensures unchanged { OnErr result (line.new ≡ line.old) }
{
    let [cap, source, reply, label, words @ ..] = numbers else {
        return Err(EntryFault::Form);
    };
    if !fits_message(*label, words) {
        return Err(EntryFault::Range);
    }
    line.exchange(from, *cap, *source, *reply, *label, words);
    Ok(())
}

/// Appends the line of an entry of two addresses.
fn write_pair(
    line: &mut Line,
    from: Entrant,
    form: OverPair,
    numbers: &[u64],
) -> Result<(), EntryFault>
    requires room { HasRoom line.old LINE }
    ensures writes { Gives (λ u. line.new) result
        (entry_after line.old from (paired form numbers.now)) }
    ensures unchanged { OnErr result (line.new ≡ line.old) }
{
    let [first, second] = numbers else {
        return Err(EntryFault::Form);
    };
    match form {
        OverPair::Recv => line.addresses(from, Key::Recv, *first, *second),
        OverPair::NbRecv => line.addresses(from, Key::NbRecv, *first, *second),
        OverPair::BindNtfn => line.addresses(from, Key::BindNtfn, *first, *second),
        OverPair::BindCtx => line.addresses(from, Key::Bind, *first, *second),
    }
    Ok(())
}

/// Appends the line of an entry of one address.
fn write_address(
    line: &mut Line,
    from: Entrant,
    form: OverAddress,
    numbers: &[u64],
) -> Result<(), EntryFault>
    requires room { HasRoom line.old LINE }
    ensures writes { Gives (λ u. line.new) result
        (entry_after line.old from (addressed form numbers.now)) }
    ensures unchanged { OnErr result (line.new ≡ line.old) }
{
    let [address] = numbers else {
        return Err(EntryFault::Form);
    };
    match form {
        OverAddress::Wait => line.address(from, Key::Wait, *address),
        OverAddress::NbWait => line.address(from, Key::NbWait, *address),
        OverAddress::Signal => line.address(from, Key::Signal, *address),
        OverAddress::Suspend => line.address(from, Key::Suspend, *address),
        OverAddress::Resume => line.address(from, Key::Resume, *address),
        OverAddress::UnbindNtfn => line.address(from, Key::UnbindNtfn, *address),
        OverAddress::UnbindCtx => line.address(from, Key::Unbind, *address),
        OverAddress::CancelBadged => line.address(from, Key::Cancel, *address),
    }
    Ok(())
}

/// Appends the line of an entry of one place.
fn write_place(
    line: &mut Line,
    from: Entrant,
    form: OverPlace,
    numbers: &[u64],
) -> Result<(), EntryFault>
    requires room { HasRoom line.old LINE }
    ensures writes { Gives (λ u. line.new) result
        (entry_after line.old from (placed form numbers.now)) }
    ensures unchanged { OnErr result (line.new ≡ line.old) }
{
    let [index, depth] = numbers else {
        return Err(EntryFault::Form);
    };
    let place = place_of(*index, *depth)?;
    match form {
        OverPlace::DeleteCap => line.delete(from, place),
        OverPlace::MakeEndpoint => line.make(from, Key::Endpoint, place),
        OverPlace::MakeNotification => line.make(from, Key::Notification, place),
        OverPlace::MakeReply => line.make(from, Key::Reply, place),
        OverPlace::MakeContext => line.make(from, Key::Context, place),
    }
    Ok(())
}

/// Appends the line of SetPriority.
fn write_priority(line: &mut Line, from: Entrant, numbers: &[u64]) -> Result<(), EntryFault>
    requires room { HasRoom line.old LINE }
    ensures writes { Gives (λ u. line.new) result
        (entry_after line.old from (prioritized numbers.now)) }
    ensures unchanged { OnErr result (line.new ≡ line.old) }
{
    let [thread, authority, priority] = numbers else {
        return Err(EntryFault::Form);
    };
    let priority = Prio(byte_of(*priority)?);
    line.priority(from, *thread, *authority, priority);
    Ok(())
}

/// Appends the line of MoveCap.
fn write_move(line: &mut Line, from: Entrant, numbers: &[u64]) -> Result<(), EntryFault>
    requires room { HasRoom line.old LINE }
    ensures writes { Gives (λ u. line.new) result (entry_after line.old from (moved numbers.now)) }
    ensures unchanged { OnErr result (line.new ≡ line.old) }
{
    let [index, depth, to_index, to_depth] = numbers else {
        return Err(EntryFault::Form);
    };
    let source = place_of(*index, *depth)?;
    let dest = place_of(*to_index, *to_depth)?;
    line.move_cap(from, source, dest);
    Ok(())
}

/// Appends the line of CopyCap.
fn write_copy(line: &mut Line, from: Entrant, numbers: &[u64]) -> Result<(), EntryFault>
    requires room { HasRoom line.old LINE }
    ensures writes { Gives (λ u. line.new) result (entry_after line.old from (copied numbers.now)) }
    ensures unchanged { OnErr result (line.new ≡ line.old) }
{
    let [index, depth, to_index, to_depth, bits] = numbers else {
        return Err(EntryFault::Form);
    };
    let source = place_of(*index, *depth)?;
    let dest = place_of(*to_index, *to_depth)?;
    let rights = rights_of(*bits)?;
    line.copy(from, (source, dest), rights);
    Ok(())
}

/// Appends the line of MintCap.
fn write_mint(line: &mut Line, from: Entrant, numbers: &[u64]) -> Result<(), EntryFault>
    requires room { HasRoom line.old LINE }
    ensures writes { Gives (λ u. line.new) result (entry_after line.old from (minted numbers.now)) }
    ensures unchanged { OnErr result (line.new ≡ line.old) }
{
    let [index, depth, to_index, to_depth, bits, badge] = numbers else {
        return Err(EntryFault::Form);
    };
    let source = place_of(*index, *depth)?;
    let dest = place_of(*to_index, *to_depth)?;
    let rights = rights_of(*bits)?;
    line.mint(from, (source, dest), rights, Badge(*badge));
    Ok(())
}

/// Appends the line of an entry: a table, with an arm for each shape.
fn write_shape(
    line: &mut Line,
    from: Entrant,
    shape: Shape,
    numbers: &[u64],
) -> Result<(), EntryFault>
    requires room { HasRoom line.old LINE }
    ensures writes { Gives (λ u. line.new) result
        (entry_after line.old from (entry_said shape numbers.now)) }
    ensures unchanged { OnErr result (line.new ≡ line.old) }
{
    match shape {
        Shape::Sends(form) => write_sent(line, from, form, numbers),
        Shape::Pair(form) => write_pair(line, from, form, numbers),
        Shape::Address(form) => write_address(line, from, form, numbers),
        Shape::AtPlace(form) => write_place(line, from, form, numbers),
        Shape::ReplyRecv => write_replied(line, from, numbers),
        Shape::NbSendRecv => write_exchanged(line, from, numbers),
        Shape::NbSendWait => write_handed_on(line, from, numbers),
        Shape::SetPriority => write_priority(line, from, numbers),
        Shape::CopyCap => write_copy(line, from, numbers),
        Shape::MintCap => write_mint(line, from, numbers),
        Shape::MoveCap => write_move(line, from, numbers),
    }
}

/// Returns the core and the thread of an entry.
fn entrant_of(entry: &McsEntry) -> Result<Entrant, EntryFault>
    ensures { Gives (λ e. e) result (ranged (fits_entrant entry.now) (entrant_of entry.now)) }
{
    if entry.core >= u32::from(CORES) || entry.thread < 1 || entry.thread > u32::from(OBJECTS) {
        return Err(EntryFault::Range);
    }
    Ok(Entrant {
        core: CoreId(entry.core as u8),
        thread: ObjId {
            kind: Kind::Thread,
            serial: entry.thread,
        },
    })
}

/// Appends the line of the step that an entry encodes.
#[tactic(auto, unfolding(crate::specs::Entering::step_said))]
pub fn write_entry(line: &mut Line, entry: &McsEntry) -> Result<(), EntryFault>
    requires room { HasRoom line.old LINE }
    ensures writes { Gives (λ u. line.new) result (step_after line.old (step_said entry.now)) }
    ensures unchanged { OnErr result (line.new ≡ line.old) }
{
    let from = entrant_of(entry)?;
    let Some(shape) = shape_of(entry.key) else {
        return Err(EntryFault::Form);
    };
    let Some(numbers) = entry.words.get(..entry.count as usize) else {
        return Err(EntryFault::Form);
    };
    write_shape(line, from, shape, numbers)
}
