//! The checks before a message is sent or received.
ghost use Rattle.std.specs.Prelude.{◌≡◌};
ghost use Rattle.mcs_types.specs.declared.id.Kind.{Kind};
ghost use Rattle.mcs_book.specs.Sound.{IsThere};
ghost use Rattle.mcs_state.specs.Now.{so_far};
ghost use Rattle.mcs_ipc.specs.Sources.{reply_named, endpoint_source, notification_source, receivable, reply_to_pay, answerable, exchangeable};
ghost use Rattle.mcs_ipc.specs.Rows.{sendable, callable};

use mcs_notify::may_wait;
use mcs_object_queues::Waiting;
use mcs_slots::{by_fields, takes_badge};
use mcs_state::{State, find_object, object_at, of_kind, with_read, with_write};
use mcs_types::{Cap, Kind, ObjId, Refusal};

/// What a thread sends over: an endpoint or a notification, by this capability, or a reply object,
/// to which it replies.
#[derive(Clone, Copy)]
pub enum Target {
    Endpoint(Cap),
    Notification(Cap),
    Reply(ObjId),
}

/// The endpoint and the reply object, if there is one, with which a thread receives.
#[derive(Clone, Copy)]
pub struct Receiving {
    pub endpoint: ObjId,
    pub reply: Option<ObjId>,
}

/// What a thread receives from: an endpoint, with its reply object, or a notification, on which it
/// waits.
#[derive(Clone, Copy)]
pub enum Source {
    Endpoint(Receiving),
    Notification(ObjId),
}

/// The reply object to which a thread replies, and what it then receives from.
#[derive(Clone, Copy)]
pub struct Replying {
    pub reply: ObjId,
    pub source: Source,
}

/// What a thread sends over, and what it then receives from.
#[derive(Clone, Copy)]
pub struct Exchange {
    pub target: Target,
    pub source: Source,
}

/// Returns the reply object at an address; None if no address is given.
fn find_reply<W: Waiting>(
    state: &State<W>,
    thread: ObjId,
    reply: Option<u64>,
) -> Result<Option<ObjId>, Refusal>
    requires { IsThere (so_far state.now) Kind.Thread thread }
    ensures { result ≡ reply_named (so_far state.now) thread reply }
{
    match reply {
        None => Ok(None),
        Some(address) => {
            let reply = find_object(state, thread, Kind::Reply, address)?;
            Ok(Some(reply))
        }
    }
}

/// Returns what a thread sends over.
// inlined, so that the answer of 56 bytes is not stored and read again
#[inline(always)]
pub fn target_to_send<W: Waiting>(
    state: &State<W>,
    thread: ObjId,
    address: u64,
) -> Result<Target, Refusal>
    requires { IsThere (so_far state.now) Kind.Thread thread }
    ensures { result ≡ sendable (so_far state.now) thread address }
{
    let cap = state.capability(thread, address)?;
    match cap.obj.kind {
        Kind::Endpoint if !cap.rights.can_write() => Err(Refusal::NoRight),
        Kind::Endpoint => Ok(Target::Endpoint(by_fields(&cap))),
        Kind::Notification if !cap.rights.can_write() => Err(Refusal::NoRight),
        Kind::Notification => Ok(Target::Notification(by_fields(&cap))),
        Kind::Reply => Ok(Target::Reply(cap.obj)),
        _ => Err(Refusal::WrongKind),
    }
}

/// Returns the capability over which a thread calls.
pub fn cap_to_call<W: Waiting>(
    state: &State<W>,
    thread: ObjId,
    address: u64,
) -> Result<Cap, Refusal>
    requires { IsThere (so_far state.now) Kind.Thread thread }
    ensures { result ≡ callable (so_far state.now) thread address }
{
    let cap = with_write(of_kind(state.capability(thread, address), Kind::Endpoint))?;
    Ok(by_fields(&cap))
}

/// Returns the endpoint of a capability, and the reply object at an address, if one is given.
fn endpoint_source<W: Waiting>(
    state: &State<W>,
    thread: ObjId,
    cap: Cap,
    reply: Option<u64>,
) -> Result<Source, Refusal>
    requires { IsThere (so_far state.now) Kind.Thread thread }
    ensures { result ≡ endpoint_source cap (reply_named (so_far state.now) thread reply) }
{
    let cap = with_read(Ok(cap))?;
    let reply = find_reply(state, thread, reply)?;
    Ok(Source::Endpoint(Receiving {
        endpoint: cap.obj,
        reply,
    }))
}

/// Returns the notification of a capability, if the thread may wait on it.
fn notification_source<W: Waiting>(
    state: &State<W>,
    thread: ObjId,
    cap: Cap,
) -> Result<Source, Refusal>
    ensures { result ≡ notification_source (so_far state.now) thread cap }
{
    let cap = with_read(Ok(cap))?;
    if !may_wait(state, thread, cap.obj) {
        return Err(Refusal::AlreadyBound);
    }
    Ok(Source::Notification(cap.obj))
}

/// Returns what a thread receives from. A reply object is looked up for an endpoint only.
#[inline(always)]
pub fn source_to_receive<W: Waiting>(
    state: &State<W>,
    thread: ObjId,
    address: u64,
    reply: Option<u64>,
) -> Result<Source, Refusal>
    requires { IsThere (so_far state.now) Kind.Thread thread }
    ensures { result ≡ receivable (so_far state.now) thread address reply }
{
    let cap = state.capability(thread, address)?;
    match cap.obj.kind {
        Kind::Endpoint => endpoint_source(state, thread, cap, reply),
        Kind::Notification => notification_source(state, thread, cap),
        _ => Err(Refusal::WrongKind),
    }
}

/// Returns the reply object to which a thread replies before it receives over a capability.
fn reply_to_pay<W: Waiting>(
    state: &State<W>,
    thread: ObjId,
    cap: Cap,
    reply: u64,
) -> Result<ObjId, Refusal>
    requires { IsThere (so_far state.now) Kind.Thread thread }
    ensures { result ≡ reply_to_pay (so_far state.now) thread cap reply }
{
    with_read(Ok(cap))?;
    object_at(state, thread, Kind::Reply, reply)
}

/// Returns the reply object to which a thread replies, and what it then receives from.
pub fn source_to_reply<W: Waiting>(
    state: &State<W>,
    thread: ObjId,
    address: u64,
    reply: u64,
) -> Result<Replying, Refusal>
    requires { IsThere (so_far state.now) Kind.Thread thread }
    ensures { result ≡ answerable (so_far state.now) thread address reply }
{
    let cap = state.capability(thread, address)?;
    if !takes_badge(&cap) {
        return Err(Refusal::WrongKind);
    }
    let reply = reply_to_pay(state, thread, cap, reply)?;
    let source = match cap.obj.kind {
        Kind::Notification => notification_source(state, thread, cap)?,
        _ => Source::Endpoint(Receiving {
            endpoint: cap.obj,
            reply: Some(reply),
        }),
    };
    Ok(Replying { reply, source })
}

/// Returns what a thread sends over, and what it then receives from.
pub fn ends_of_exchange<W: Waiting>(
    state: &State<W>,
    thread: ObjId,
    address: u64,
    source: u64,
    reply: Option<u64>,
) -> Result<Exchange, Refusal>
    requires { IsThere (so_far state.now) Kind.Thread thread }
    ensures { result ≡ exchangeable (so_far state.now) thread address source reply }
{
    let target = target_to_send(state, thread, address)?;
    let source = source_to_receive(state, thread, source, reply)?;
    Ok(Exchange { target, source })
}
