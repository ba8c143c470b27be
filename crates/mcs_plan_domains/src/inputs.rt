//! The entries by which a domain receives: those of libmicrokit's loop.
ghost use Rattle.std.specs.Prelude.{◌≡◌, OnOk};
ghost use Rattle.mcs_plan_domains.specs.Pages.{page_of};
ghost use Rattle.mcs_plan_domains.specs.Inputs.{capability_put, input_put, receive_put, receive_word, reply_put, send_receive_put, send_receive_word, source_put};

use crate::lowered::Lowered;
use crate::system::Domain;
use std::alloc::AllocError;

/// The position of an entry that receives: its depth in blocks, and its number among those of its
/// domain.
#[derive(Clone, Copy)]
pub struct Input {
    pub depth: usize,
    pub number: u64,
}

/// Returns the word of an entry that receives.
fn receive_word(is_called: bool) -> &'static str
    ensures { result.now ≡ receive_word is_called }
{
    if is_called { "recv" } else { "wait" }
}

/// Returns the word of an entry that notifies and receives.
fn send_receive_word(is_called: bool) -> &'static str
    ensures { result.now ≡ send_receive_word is_called }
{
    if is_called {
        "nbsendrecv "
    } else {
        "nbsendwait "
    }
}

/// Appends the name of an entry that receives.
fn put_input(out: &mut Lowered, input: Input) -> Result<(), AllocError>
    ensures { OnOk result (page_of out.new ≡ input_put (page_of out.old) input) }
{
    out.indent(input.depth)?;
    out.counted("input", input.number)?;
    out.put(": ")
}

/// Appends what a domain receives from: its endpoint with its reply object, or its notification.
fn put_source(out: &mut Lowered, domain: &Domain<'_>) -> Result<(), AllocError>
    ensures { OnOk result (page_of out.new ≡ source_put (page_of out.old) domain.now) }
{
    out.put(" ")?;
    out.put(domain.name)?;
    if !domain.is_called {
        return out.put(".ntfn");
    }
    out.put(".ep ")?;
    out.put(domain.name)?;
    out.put(".reply")
}

/// Appends an entry that only receives.
pub fn put_receive(
    out: &mut Lowered,
    input: Input,
    domain: &Domain<'_>,
    line: u64,
) -> Result<(), AllocError>
    ensures { OnOk result
        (page_of out.new ≡ receive_put (page_of out.old) input domain.now line) }
{
    put_input(out, input)?;
    out.put(receive_word(domain.is_called))?;
    put_source(out, domain)?;
    out.end(line)
}

/// Appends the name of a capability of a domain, with its channel if it has one.
fn put_capability(
    out: &mut Lowered,
    capability: &str,
    channel: Option<u64>,
) -> Result<(), AllocError>
    ensures { OnOk result
        (page_of out.new ≡ capability_put (page_of out.old) capability.now channel) }
{
    out.put(capability)?;
    match channel {
        Some(channel) => out.number(channel),
        None => Ok(()),
    }
}

/// Appends an entry that notifies with a capability, and receives.
pub fn put_send_receive(
    out: &mut Lowered,
    input: Input,
    domain: &Domain<'_>,
    line: u64,
    capability: &str,
    channel: Option<u64>,
) -> Result<(), AllocError>
    ensures { OnOk result (page_of out.new
        ≡ send_receive_put (page_of out.old) input domain.now line capability.now channel) }
{
    put_input(out, input)?;
    out.put(send_receive_word(domain.is_called))?;
    put_capability(out, capability, channel)?;
    put_source(out, domain)?;
    out.last(line, " 0")
}

/// Appends an entry that replies with these words, and receives.
pub fn put_reply(
    out: &mut Lowered,
    input: Input,
    domain: &Domain<'_>,
    line: u64,
    words: &[&str],
) -> Result<(), AllocError>
    ensures { OnOk result
        (page_of out.new ≡ reply_put (page_of out.old) input domain.now line words.now) }
{
    put_input(out, input)?;
    out.put("replyrecv")?;
    put_source(out, domain)?;
    out.words(words)?;
    out.end(line)
}
