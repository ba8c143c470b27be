//! Reads the lines of a plan before its first step.
ghost use Rattle.std.specs.Prelude.{◌≡◌, ◌++◌, true, false, Ok, IfOk, IfErr, OnOk, OnErr, length, slice_get, string_bytes, option_map};
ghost use Rattle.mcs_types.specs.declared.id.Kind.TheVariants.{CNode, Context};
ghost use Rattle.mcs_types.specs.declared.id.Kind.TheVariants as of_kind;
ghost use Rattle.mcs_types.specs.Limits.{core_limit};
ghost use Rattle.mcs_plan_source.specs.Naming.{next_of, texts};
ghost use Rattle.mcs_plan_source.specs.Lines.{object_more, objects_line, held_by, says_as, has_slot, usual_name, given_name, slot_name, slot_added, slot_more, slot_kept, slots_more, has_line, tie_line, cores_line};
ghost use Rattle.mcs_plan_source.specs.Order.{IsInOrder, IsWhole};
ghost use Rattle.mcs_plan_source.specs.Parts.{with_last_space, in_then, passive_then, form_added, tie_added};
ghost use Rattle.mcs_plan_source.specs.Refusals.{Refuses, TellsOfLine};
ghost use Rattle.mcs_plan_source.specs.Saying.{said, with_thread};
ghost use Rattle.mcs_plan_source.specs.ThreadLines.{core_then, receiving_then, without_then, part_then, next_part, parts_then, plain_form, form_said, form_of, said_receiving, context_more, space_more, own_context, with_own_context, with_own_space, thread_more, with_passive, thread_said, thread_line, on_then, context_line, radix_then, cnode_line, line_begun, says_has, ReadsLine, RefusesLine};
ghost use Rattle.mcs_plan_source.specs.Threads.{space_named, is_thread_bound, is_notification_bound};
ghost use Rattle.mcs_plan_source.specs.Words.{number_then};

use crate::capabilities::{cap_of, parts_of, written_as};
use crate::plan::{Passive, Plan, Slot, Space, Thread, Tie};
use crate::{PlanError, Symbols, Tokens, is_name, not};
use mcs_types::{CORES, Cap, CoreId, Kind, ObjId, Prio, RADIX};
use std::alloc::{AllocError, Global};

/// The parts of a thread's line.
#[derive(Drop)]
struct ThreadForm {
    priority: Option<u8>,
    maximum: u8,
    core: u8,
    runs: bool,
    has_context: bool,
    space: Option<String>,
    passive: Option<Receiving>,
}

/// The capabilities with which a passive thread receives.
#[derive(Drop)]
struct Receiving {
    endpoint: String,
    reply: String,
}

/// Returns a name with a suffix.
fn with_end(alloc: Global, name: &str, end: &str) -> Result<String, AllocError>
    ensures { IfOk result (λ whole. string_bytes whole ≡ name.now ++ end.now) }
{
    let mut whole = String::from_str(alloc, name)?;
    whole.push_str(end)?;
    Ok(whole)
}

/// Reads a number of 8 bits, up to a limit.
fn byte(
    alloc: Global,
    words: &mut Tokens<'_>,
    wanted: &'static str,
    limit: u8,
) -> Result<u8, PlanError>
    ensures value { IfOk result (λ n. number_then limit words.old ≡ Ok (n, words.new)) }
    ensures error { IfErr result (Refuses (number_then limit words.old)) }
{
    let n = words.number(alloc, wanted, limit as u64)?;
    Ok(n.min(255) as u8)
}

/// Returns whether the next word is `as`.
fn says_as(words: &Tokens<'_>) -> bool
    ensures { result ≡ says_as words.now }
{
    match words.peek() {
        Some(word) => word == "as",
        None => false,
    }
}

/// Reads the name after `as`.
fn given_name(alloc: Global, words: &mut Tokens<'_>) -> Result<String, PlanError>
    ensures name { IfOk result (λ n. given_name words.old ≡ Ok (string_bytes n, words.new)) }
    ensures error { IfErr result (Refuses (given_name words.old)) }
{
    words.next();
    let name = words.need("a name")?;
    if !is_name(name) {
        return Err(not(alloc, name, "a name"));
    }
    Ok(String::from_str(alloc, name)?)
}

/// Returns what a word puts into a slot: a capability, or nothing.
fn held_by(alloc: Global, names: &Symbols, word: &str) -> Result<Option<Cap>, PlanError>
    ensures held { IfOk result (λ cap. held_by names.now word.now ≡ Ok cap) }
    ensures error { IfErr result (Refuses (held_by names.now word.now)) }
{
    if word == "-" {
        return Ok(None);
    }
    Ok(Some(cap_of(alloc, names, word)?))
}

/// Reads the radix of a CNode, if the line says one.
fn read_radix(alloc: Global, words: &mut Tokens<'_>) -> Result<Option<u8>, PlanError>
    ensures radix { IfOk result (λ r. radix_then words.old ≡ Ok (r, words.new)) }
    ensures error { IfErr result (Refuses (radix_then words.old)) }
{
    if words.peek().is_none() {
        return Ok(None);
    }
    let n = byte(alloc, words, "a radix, 1 to 8", RADIX)?;
    if n == 0 {
        return Err(not(alloc, "0", "a radix, 1 to 8"));
    }
    Ok(Some(n))
}

/// Reads `without context`, if the line says it. Returns whether the thread has a context.
fn read_without(alloc: Global, words: &mut Tokens<'_>) -> Result<bool, PlanError>
    ensures none { IfOk result (λ has. without_then words.old ≡ Ok (has, words.new)) }
    ensures error { IfErr result (Refuses (without_then words.old)) }
{
    words.expect(alloc, "context")?;
    Ok(false)
}

/// Returns the defaults of a thread's line.
fn new_form() -> ThreadForm
    ensures { form_of result ≡ plain_form }
{
    ThreadForm {
        priority: None,
        maximum: 255,
        core: 0,
        runs: true,
        has_context: true,
        space: None,
        passive: None,
    }
}

/// Reads the words of `on EP with REPLY`. Returns the two names.
fn receiving_words<'a>(
    alloc: Global,
    words: &mut Tokens<'a>,
) -> Result<(&'a str, &'a str), PlanError>
    ensures said { IfOk result (λ r. receiving_then words.old
        ≡ Ok (record { endpoint = r.0.now; reply = r.1.now }, words.new)) }
    ensures error { IfErr result (Refuses (receiving_then words.old)) }
{
    words.expect(alloc, "on")?;
    let endpoint = words.need("the name of a capability")?;
    words.expect(alloc, "with")?;
    let reply = words.need("the name of a capability")?;
    Ok((endpoint, reply))
}

/// Returns copies of the names of two capabilities.
fn receiving_of(alloc: Global, endpoint: &str, reply: &str) -> Result<Receiving, AllocError>
    ensures { IfOk result (λ r.
        said_receiving r ≡ record { endpoint = endpoint.now; reply = reply.now }) }
{
    Ok(Receiving {
        endpoint: String::from_str(alloc, endpoint)?,
        reply: String::from_str(alloc, reply)?,
    })
}

/// Reads what a passive thread receives with: `on EP with REPLY`.
fn read_receiving(alloc: Global, words: &mut Tokens<'_>) -> Result<Receiving, PlanError>
    ensures said { IfOk result (λ r. receiving_then words.old ≡ Ok (said_receiving r, words.new)) }
    ensures error { IfErr result (Refuses (receiving_then words.old)) }
{
    let (endpoint, reply) = receiving_words(alloc, words)?;
    Ok(receiving_of(alloc, endpoint, reply)?)
}

/// Reads `passive on EP with REPLY`, after its first word.
fn read_passive(
    alloc: Global,
    words: &mut Tokens<'_>,
    form: &mut ThreadForm,
) -> Result<(), PlanError>
    ensures said { OnOk result
        (passive_then words.old (form_of form.old) ≡ Ok (form_of form.new, words.new)) }
    ensures error { IfErr result (Refuses (passive_then words.old (form_of form.old))) }
{
    form.passive = Some(read_receiving(alloc, words)?);
    Ok(())
}

/// Reads `in SPACE`, after its first word.
fn read_in(alloc: Global, words: &mut Tokens<'_>, form: &mut ThreadForm) -> Result<(), PlanError>
    ensures said { OnOk result
        (in_then words.old (form_of form.old) ≡ Ok (form_of form.new, words.new)) }
    ensures error { IfErr result (Refuses (in_then words.old (form_of form.old))) }
{
    let space = words.need("the name of a space")?;
    form.space = Some(String::from_str(alloc, space)?);
    Ok(())
}

/// Returns whether the next word is `has`.
fn says_has(words: &Tokens<'_>) -> bool
    ensures { result ≡ says_has words.now }
{
    match words.peek() {
        Some(word) => word == "has",
        None => false,
    }
}

impl Plan {
    /// Adds an object.
    fn add_object(&mut self, alloc: Global, kind: Kind, name: &str) -> Result<ObjId, PlanError>
        ensures object { IfOk result (λ o. o ≡ next_of kind self.old.names) }
        ensures added { OnOk result
            (object_more kind name.now (said self.old) ≡ Ok (said self.new)) }
        ensures error { IfErr result (Refuses (object_more kind name.now (said self.old))) }
        ensures unchanged { OnErr result (said self.new ≡ said self.old) }
    {
        let object = self.names.add(alloc, kind, name)?;
        Ok(object)
    }

    /// Reads objects of a kind, each with a name.
    fn read_objects(
        &mut self,
        alloc: Global,
        words: &mut Tokens<'_>,
        kind: Kind,
    ) -> Result<(), PlanError>
        ensures added { OnOk result
            (objects_line kind words.old (said self.old) ≡ Ok (said self.new)) }
        ensures error { IfErr result (Refuses (objects_line kind words.old (said self.old))) }
    {
        if words.peek().is_none() {
            return Err(PlanError::Missing { wanted: "a name" });
        }
        for _ in 0..words.len() {
            if let Some(name) = words.next() {
                self.add_object(alloc, kind, name)?;
            }
        }
        Ok(())
    }

    /// Reads the number of a core. `Not` if the machine has fewer cores.
    fn read_core(&self, alloc: Global, words: &mut Tokens<'_>) -> Result<u8, PlanError>
        ensures core { IfOk result (λ n. core_then self.now.cores words.old ≡ Ok (n, words.new)) }
        ensures error { IfErr result (Refuses (core_then self.now.cores words.old)) }
    {
        words.expect(alloc, "core")?;
        let cores = self.cores.unwrap_or(CORES);
        byte(
            alloc,
            words,
            "the number of a core",
            cores.saturating_sub(1),
        )
    }

    /// Adds a context.
    fn add_context(&mut self, alloc: Global, name: &str, core: u8) -> Result<ObjId, PlanError>
        ensures context { IfOk result (λ o. o ≡ next_of Context self.old.names) }
        ensures added { OnOk result
            (context_more name.now (record { 0 = core }) (said self.old) ≡ Ok (said self.new)) }
        ensures error { IfErr result
            (Refuses (context_more name.now (record { 0 = core }) (said self.old))) }
    {
        let context = self.names.add(alloc, Kind::Context, name)?;
        self.contexts.push(CoreId(core))?;
        self.keeps_limit(Kind::Context)?;
        Ok(context)
    }

    /// Adds a space without slots after the others.
    fn push_space(&mut self, alloc: Global, radix: Option<u8>) -> Result<(), AllocError>
        ensures added { OnOk result (said self.new ≡ with_last_space radix (said self.old)) }
    {
        self.spaces.push(Space::new(alloc, radix))?;
        Ok(())
    }

    /// Adds a space.
    fn add_space(
        &mut self,
        alloc: Global,
        name: &str,
        radix: Option<u8>,
    ) -> Result<usize, PlanError>
        ensures place { IfOk result (λ place. place ≡ length self.old.spaces.items) }
        ensures added { OnOk result
            (space_more name.now radix (said self.old) ≡ Ok (said self.new)) }
        ensures error { IfErr result (Refuses (space_more name.now radix (said self.old))) }
    {
        self.names.add(alloc, Kind::CNode, name)?;
        let place = self.spaces.len();
        self.push_space(alloc, radix)?;
        self.keeps_limit(Kind::CNode)?;
        Ok(place)
    }

    /// Reads the core of a context: 0 if the line says none.
    fn read_on(&self, alloc: Global, words: &mut Tokens<'_>) -> Result<u8, PlanError>
        ensures core { IfOk result (λ n. on_then self.now.cores words.old ≡ Ok (n, words.new)) }
        ensures error { IfErr result (Refuses (on_then self.now.cores words.old)) }
    {
        if words.peek().is_none() {
            return Ok(0);
        }
        words.expect(alloc, "on")?;
        self.read_core(alloc, words)
    }

    /// Reads the line of a context: `context NAME` or `context NAME on core N`.
    fn read_context(&mut self, alloc: Global, words: &mut Tokens<'_>) -> Result<(), PlanError>
        ensures added { OnOk result (context_line words.old (said self.old) ≡ Ok (said self.new)) }
        ensures error { IfErr result (Refuses (context_line words.old (said self.old))) }
    {
        let name = words.need("a name")?;
        let core = self.read_on(alloc, words)?;
        words.end(alloc)?;
        self.add_context(alloc, name, core)?;
        Ok(())
    }

    /// Reads the line of a CNode: `cnode NAME` or `cnode NAME RADIX`.
    fn read_cnode(&mut self, alloc: Global, words: &mut Tokens<'_>) -> Result<(), PlanError>
        ensures added { OnOk result (cnode_line words.old (said self.old) ≡ Ok (said self.new)) }
        ensures error { IfErr result (Refuses (cnode_line words.old (said self.old))) }
    {
        let name = words.need("a name")?;
        let radix = read_radix(alloc, words)?;
        words.end(alloc)?;
        self.add_space(alloc, name, radix)?;
        Ok(())
    }

    /// Reads a part of a thread's line.
    fn read_part(
        &self,
        alloc: Global,
        words: &mut Tokens<'_>,
        part: &str,
        form: &mut ThreadForm,
    ) -> Result<(), PlanError>
        ensures said { OnOk result
            (part_then self.now.cores part.now words.old (form_of form.old)
            ≡ Ok (form_of form.new, words.new)) }
        ensures error { IfErr result
            (Refuses (part_then self.now.cores part.now words.old (form_of form.old))) }
    {
        match part {
            "prio" => {
                form.priority = Some(byte(alloc, words, "a priority, 0 to 255", 255)?);
                Ok(())
            }
            "max" => {
                form.maximum = byte(alloc, words, "a priority, 0 to 255", 255)?;
                Ok(())
            }
            "on" => {
                form.core = self.read_core(alloc, words)?;
                Ok(())
            }
            "stopped" => {
                form.runs = false;
                Ok(())
            }
            "without" => {
                form.has_context = read_without(alloc, words)?;
                Ok(())
            }
            "in" => read_in(alloc, words, form),
            "passive" => read_passive(alloc, words, form),
            _ => {
                let wanted = "prio, max, on, stopped, without, in or passive";
                Err(not(alloc, part, wanted))
            }
        }
    }

    /// Reads the next part of a thread's line, if there is one.
    fn read_next(
        &self,
        alloc: Global,
        words: &mut Tokens<'_>,
        form: &mut ThreadForm,
    ) -> Result<(), PlanError>
        ensures said { OnOk result
            (next_part self.now.cores words.old (form_of form.old)
            ≡ Ok (form_of form.new, words.new)) }
        ensures error { IfErr result
            (Refuses (next_part self.now.cores words.old (form_of form.old))) }
    {
        match words.next() {
            Some(part) => self.read_part(alloc, words, part, form),
            None => Ok(()),
        }
    }

    /// Reads the parts of a thread's line, to its end.
    #[tactic(auto, using(crate::proofs::Turns::parts_turn, crate::proofs::Turns::parts_last))]
    fn read_parts(
        &self,
        alloc: Global,
        words: &mut Tokens<'_>,
        form: &mut ThreadForm,
    ) -> Result<(), PlanError>
        ensures said { OnOk result
            (parts_then (length words.old) self.now.cores words.old (form_of form.old)
            ≡ Ok (form_of form.new)) }
        ensures error { IfErr result (Refuses
            (parts_then (length words.old) self.now.cores words.old (form_of form.old))) }
    {
        for _ in 0..words.len() {
            self.read_next(alloc, words, form)?;
        }
        Ok(())
    }

    /// Reads a thread's line after the name.
    fn read_form(&self, alloc: Global, words: &mut Tokens<'_>) -> Result<ThreadForm, PlanError>
        ensures said { IfOk result (λ f. form_said self.now.cores words.old ≡ Ok (form_of f)) }
        ensures error { IfErr result (Refuses (form_said self.now.cores words.old)) }
    {
        let mut form = new_form();
        self.read_parts(alloc, words, &mut form)?;
        if form.passive.is_some() && !form.has_context {
            return Err(not(alloc, "without", "a part of a passive thread"));
        }
        Ok(form)
    }

    /// Finds or makes the space of a thread: one by hand, or its own.
    fn read_space(
        &mut self,
        alloc: Global,
        name: &str,
        form: &ThreadForm,
    ) -> Result<usize, PlanError>
        ensures added { IfOk result (λ place.
            with_own_space name.now (form_of form.now).space (said self.old)
            ≡ Ok (place, said self.new)) }
        ensures error { IfErr result
            (Refuses (with_own_space name.now (form_of form.now).space (said self.old))) }
    {
        match &form.space {
            None => {
                let own = with_end(alloc, name, ".space")?;
                self.add_space(alloc, own.as_str(), None)
            }
            Some(space) => {
                let cnode = self.names.of_kind(alloc, Kind::CNode, space.as_str())?;
                Ok(cnode.place(Kind::CNode).unwrap_or(0))
            }
        }
    }

    /// Makes the context of a thread, if it has one.
    fn read_own_context(
        &mut self,
        alloc: Global,
        name: &str,
        form: &ThreadForm,
    ) -> Result<Option<ObjId>, PlanError>
        ensures context { IfOk result (λ o. o ≡ own_context (form_of form.now) (said self.old)) }
        ensures added { OnOk result
            (with_own_context name.now (form_of form.now) (said self.old) ≡ Ok (said self.new)) }
        ensures error { IfErr result
            (Refuses (with_own_context name.now (form_of form.now) (said self.old))) }
    {
        if !form.has_context {
            return Ok(None);
        }
        let own = with_end(alloc, name, ".context")?;
        let context = self.add_context(alloc, own.as_str(), form.core)?;
        Ok(Some(context))
    }

    /// Adds a thread after the others.
    fn push_thread(&mut self, thread: Thread) -> Result<(), AllocError>
        ensures added { OnOk result (said self.new ≡ with_thread thread (said self.old)) }
        ensures unchanged { OnErr result (said self.new ≡ said self.old) }
    {
        self.threads.push(thread)?;
        Ok(())
    }

    /// Adds a thread, with its context and its space.
    fn add_thread(
        &mut self,
        alloc: Global,
        name: &str,
        priority: u8,
        form: &ThreadForm,
    ) -> Result<ObjId, PlanError>
        ensures thread { IfOk result (λ o. o ≡ next_of of_kind.Thread self.old.names) }
        ensures added { OnOk result
            (thread_more name.now priority (form_of form.now) (said self.old)
            ≡ Ok (said self.new)) }
        ensures error { IfErr result
            (Refuses (thread_more name.now priority (form_of form.now) (said self.old))) }
    {
        let thread = self.add_object(alloc, Kind::Thread, name)?;
        let context = self.read_own_context(alloc, name, form)?;
        let space = self.read_space(alloc, name, form)?;
        self.push_thread(Thread {
            priority: Prio(priority),
            maximum: Prio(form.maximum),
            space,
            runs: form.runs,
            context,
            core: CoreId(form.core),
        })?;
        Ok(thread)
    }

    /// Adds a passive thread, if the thread is one.
    fn add_passive(
        &mut self,
        line: u64,
        thread: ObjId,
        passive: &Option<Receiving>,
    ) -> Result<(), AllocError>
        ensures added { OnOk result (said self.new
            ≡ with_passive line thread (option_map said_receiving passive.now) (said self.old)) }
        ensures unchanged { OnErr result (said self.new ≡ said self.old) }
    {
        let Some(receiving) = passive else {
            return Ok(());
        };
        self.passives.push(Passive {
            line,
            thread,
            endpoint: receiving.endpoint.clone()?,
            reply: receiving.reply.clone()?,
        })?;
        Ok(())
    }

    /// Adds a thread with this name and these parts of its line. `Missing` if it has no priority.
    fn put_form(
        &mut self,
        alloc: Global,
        line: u64,
        name: &str,
        form: &ThreadForm,
    ) -> Result<(), PlanError>
        ensures added { OnOk result
            (form_added line name.now (form_of form.now) (said self.old) ≡ Ok (said self.new)) }
        ensures error { IfErr result
            (Refuses (form_added line name.now (form_of form.now) (said self.old))) }
    {
        let Some(priority) = form.priority else {
            return Err(PlanError::Missing { wanted: "prio" });
        };
        let thread = self.add_thread(alloc, name, priority, form)?;
        self.add_passive(line, thread, &form.passive)?;
        Ok(())
    }

    /// Adds the thread of a line.
    fn put_thread(
        &mut self,
        alloc: Global,
        line: u64,
        words: &mut Tokens<'_>,
    ) -> Result<(), PlanError>
        ensures added { OnOk result
            (thread_said line words.old (said self.old) ≡ Ok (said self.new)) }
        ensures error { IfErr result (Refuses (thread_said line words.old (said self.old))) }
    {
        let name = words.need("a name")?;
        let form = self.read_form(alloc, words)?;
        self.put_form(alloc, line, name, &form)
    }

    /// Reads the line of a thread.
    fn read_thread(
        &mut self,
        alloc: Global,
        line: u64,
        words: &mut Tokens<'_>,
    ) -> Result<(), PlanError>
        ensures added { OnOk result
            (thread_line line words.old (said self.old) ≡ Ok (said self.new)) }
        ensures error { IfErr result (Refuses (thread_line line words.old (said self.old))) }
    {
        self.put_thread(alloc, line, words)?;
        self.keeps_limit(Kind::Thread)?;
        self.keeps_limit(Kind::Context)?;
        self.keeps_limit(Kind::CNode)
    }

    /// Returns whether a thread is bound.
    fn is_thread_bound(&self, thread: ObjId) -> bool
        ensures { result ≡ is_thread_bound self.now.ties.items thread }
    {
        self.ties.iter().any(|tie| tie.thread.is_same(thread))
    }

    /// Returns whether a notification is bound.
    fn is_notification_bound(&self, notification: ObjId) -> bool
        ensures { result ≡ is_notification_bound self.now.ties.items notification }
    {
        self.ties
            .iter()
            .any(|tie| tie.notification.is_same(notification))
    }

    /// Adds a binding of a thread and a notification that the line names. `Bound` if one of them is
    /// bound already.
    fn add_tie(
        &mut self,
        alloc: Global,
        thread_word: &str,
        thread: ObjId,
        word: &str,
        notification: ObjId,
    ) -> Result<(), PlanError>
        ensures added { OnOk result
            (tie_added thread_word.now thread word.now notification (said self.old)
            ≡ Ok (said self.new)) }
        ensures error { IfErr result
            (Refuses (tie_added thread_word.now thread word.now notification (said self.old))) }
        ensures unchanged { OnErr result (said self.new ≡ said self.old) }
    {
        if self.is_thread_bound(thread) {
            return Err(PlanError::Bound {
                word: String::from_str(alloc, thread_word)?,
            });
        }
        if self.is_notification_bound(notification) {
            return Err(PlanError::Bound {
                word: String::from_str(alloc, word)?,
            });
        }
        self.ties.push(Tie {
            thread,
            notification,
        })?;
        Ok(())
    }

    /// Reads the line of a binding: `tie THREAD NOTIFICATION`. `Bound` if one of the two is bound
    /// already.
    fn read_tie(&mut self, alloc: Global, words: &mut Tokens<'_>) -> Result<(), PlanError>
        ensures added { OnOk result (tie_line words.old (said self.old) ≡ Ok (said self.new)) }
        ensures error { IfErr result (Refuses (tie_line words.old (said self.old))) }
        ensures unchanged { OnErr result (said self.new ≡ said self.old) }
    {
        let thread_word = words.need("the name of a thread")?;
        let thread = self.names.of_kind(alloc, Kind::Thread, thread_word)?;
        let word = words.need("the name of a notification")?;
        let notification = self.names.of_kind(alloc, Kind::Notification, word)?;
        words.end(alloc)?;
        self.add_tie(alloc, thread_word, thread, word, notification)
    }

    /// Reads the line of the number of cores, which comes first. `Late` after a context was made.
    fn read_cores(&mut self, alloc: Global, words: &mut Tokens<'_>) -> Result<(), PlanError>
        ensures added { OnOk result (cores_line words.old (said self.old) ≡ Ok (said self.new)) }
        ensures error { IfErr result (Refuses (cores_line words.old (said self.old))) }
        ensures unchanged { OnErr result (said self.new ≡ said self.old) }
    {
        let cores = byte(alloc, words, "a number of cores, 1 to 16", CORES)?;
        words.end(alloc)?;
        if cores == 0 {
            return Err(not(alloc, "0", "a number of cores, 1 to 16"));
        }
        if self.cores.is_some() {
            return Err(PlanError::Twice {
                word: String::from_str(alloc, "cores")?,
            });
        }
        if !self.contexts.is_empty() || !self.threads.is_empty() {
            return Err(PlanError::LateCores);
        }
        self.cores = Some(cores);
        Ok(())
    }

    /// The place of the space that a name stands for: a thread's, or one by hand.
    fn space_named(&self, alloc: Global, name: &str) -> Result<usize, PlanError>
        ensures place { IfOk result (λ place. space_named name.now (said self.now) ≡ Ok place) }
        ensures error { IfErr result (Refuses (space_named name.now (said self.now))) }
    {
        if let Some(object) = self.names.find(name) {
            if object.kind.is_same(Kind::CNode) {
                return Ok(object.place(Kind::CNode).unwrap_or(0));
            }
        }
        let thread = self.names.of_kind(alloc, Kind::Thread, name)?;
        Ok(self.space_of(thread))
    }

    /// Returns whether the space at this index has a slot of this name; false if there is no such
    /// space.
    #[tactic(auto, using(crate::proofs::Places::slot_there, crate::proofs::Places::no_slot_there))]
    fn has_slot(&self, place: usize, name: &str) -> bool
        ensures { result ≡ has_slot (slice_get (said self.now).spaces place) name.now }
    {
        match self.spaces.get(place) {
            Some(space) => space.has(name),
            None => false,
        }
    }

    /// Returns the default name of a slot: that of its object, or the whole word if that name is
    /// taken. `Missing` for an empty slot.
    fn usual_name(&self, alloc: Global, place: usize, word: &str) -> Result<String, PlanError>
        ensures name { IfOk result (λ n.
            usual_name (slice_get (said self.now).spaces place) word.now ≡ Ok (string_bytes n)) }
        ensures error { IfErr result
            (Refuses (usual_name (slice_get (said self.now).spaces place) word.now)) }
    {
        if word == "-" {
            return Err(PlanError::Missing { wanted: "as" });
        }
        let (name, _, _) = parts_of(word);
        if self.has_slot(place, name) {
            return Ok(String::from_str(alloc, word)?);
        }
        Ok(String::from_str(alloc, name)?)
    }

    /// Reads the name of a slot: the word after `as`, or the default.
    fn slot_name(
        &self,
        alloc: Global,
        words: &mut Tokens<'_>,
        place: usize,
        word: &str,
    ) -> Result<String, PlanError>
        ensures name { IfOk result (λ n.
            slot_name (slice_get (said self.now).spaces place) word.now words.old
            ≡ Ok (string_bytes n, words.new)) }
        ensures error { IfErr result
            (Refuses (slot_name (slice_get (said self.now).spaces place) word.now words.old)) }
    {
        if !says_as(words) {
            return self.usual_name(alloc, place, word);
        }
        given_name(alloc, words)
    }

    /// Adds a slot to a space. `Twice` if its name exists, and `Limit` if the space is full.
    fn add_slot(
        &mut self,
        alloc: Global,
        place: usize,
        name: &str,
        slot: Slot,
    ) -> Result<(), PlanError>
        ensures added { OnOk result
            (slot_added place name.now slot.cap (said self.old) ≡ Ok (said self.new)) }
        ensures error { IfErr result
            (Refuses (slot_added place name.now slot.cap (said self.old))) }
        ensures unchanged { OnErr result (said self.new ≡ said self.old) }
    {
        let Some(space) = self.spaces.get_mut(place) else {
            return Ok(());
        };
        space.add(alloc, name, slot)
    }

    /// Adds a slot to the space at an index: with the capability that `word` spells, or empty for
    /// `-`, and with the name of `as NAME` if that follows. After a fault nothing has changed.
    fn put_slot(
        &mut self,
        alloc: Global,
        place: usize,
        word: &str,
        words: &mut Tokens<'_>,
    ) -> Result<(), PlanError>
        ensures added { OnOk result
            (slot_more place word.now words.old (said self.old) ≡ Ok (said self.new, words.new)) }
        ensures error { IfErr result
            (Refuses (slot_more place word.now words.old (said self.old))) }
        ensures unchanged { OnErr result (said self.new ≡ said self.old) }
    {
        let cap = held_by(alloc, &self.names, word)?;
        let name = self.slot_name(alloc, words, place, word)?;
        let written = written_as(alloc, word, name.as_str())?;
        self.add_slot(alloc, place, name.as_str(), Slot { cap, written })
    }

    /// Adds a slot as `put_slot` does, if the space then takes no more CNodes than there may be.
    fn read_slot(
        &mut self,
        alloc: Global,
        place: usize,
        word: &str,
        words: &mut Tokens<'_>,
    ) -> Result<(), PlanError>
        ensures added { OnOk result
            (slot_kept place word.now words.old (said self.old) ≡ Ok (said self.new, words.new)) }
        ensures error { IfErr result
            (Refuses (slot_kept place word.now words.old (said self.old))) }
    {
        self.put_slot(alloc, place, word, words)?;
        self.keeps_limit(Kind::CNode)
    }

    /// Reads capabilities of a space, as far as the line goes.
    fn read_slots(
        &mut self,
        alloc: Global,
        place: usize,
        words: &mut Tokens<'_>,
    ) -> Result<(), PlanError>
        ensures added { OnOk result
            (slots_more (length words.old) place words.old (said self.old) ≡ Ok (said self.new)) }
        ensures error { IfErr result
            (Refuses (slots_more (length words.old) place words.old (said self.old))) }
    {
        for _ in 0..words.len() {
            if let Some(word) = words.next() {
                self.read_slot(alloc, place, word, words)?;
            }
        }
        Ok(())
    }

    /// Reads the line of what a space has: `NAME has CAPABILITY ..`.
    fn read_has(
        &mut self,
        alloc: Global,
        name: &str,
        words: &mut Tokens<'_>,
    ) -> Result<(), PlanError>
        ensures added { OnOk result
            (has_line name.now words.old (said self.old) ≡ Ok (said self.new)) }
        ensures error { IfErr result (Refuses (has_line name.now words.old (said self.old))) }
    {
        let place = self.space_named(alloc, name)?;
        if words.peek().is_none() {
            return Err(PlanError::Missing {
                wanted: "a capability",
            });
        }
        self.read_slots(alloc, place, words)
    }

    /// Reads a line that begins with this word. `Unknown` if no line does.
    fn read_line(
        &mut self,
        alloc: Global,
        line: u64,
        first: &str,
        words: &mut Tokens<'_>,
    ) -> Result<(), PlanError>
        ensures added { OnOk result
            (line_begun line first.now words.old (said self.old) ≡ Ok (said self.new)) }
        ensures error { IfErr result
            (Refuses (line_begun line first.now words.old (said self.old))) }
    {
        match first {
            "cores" => self.read_cores(alloc, words),
            "endpoint" => self.read_objects(alloc, words, Kind::Endpoint),
            "notification" => self.read_objects(alloc, words, Kind::Notification),
            "reply" => self.read_objects(alloc, words, Kind::Reply),
            "context" => self.read_context(alloc, words),
            "cnode" => self.read_cnode(alloc, words),
            "thread" => self.read_thread(alloc, line, words),
            "tie" => self.read_tie(alloc, words),
            _ => Err(PlanError::Unknown {
                word: String::from_str(alloc, first)?,
            }),
        }
    }

    /// Reads a line before the first step. If it is refused, the first fault is returned. The
    /// contents of the plan are then unspecified: the caller drops it.
    pub fn read(&mut self, alloc: Global, line: u64, words: &[&str]) -> Result<(), PlanError>
        ensures taken { OnOk result (ReadsLine line (texts words.now) self.old (said self.new)) }
        ensures refused { IfErr result (RefusesLine line (texts words.now) self.old) }
        ensures fault { IfErr result TellsOfLine }
        ensures in_order { OnOk result (IsInOrder (said self.old) → IsInOrder (said self.new)) }
        ensures whole { OnOk result (IsWhole (said self.old) → IsWhole (said self.new)) }
    {
        let mut words = Tokens::new(words);
        let Some(first) = words.next() else {
            return Ok(());
        };
        if says_has(&words) {
            words.next();
            return self.read_has(alloc, first, &mut words);
        }
        self.read_line(alloc, line, first, &mut words)
    }
}
