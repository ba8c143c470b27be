//! Passive threads in a plan of users: one thread more waits until each of them receives, takes its
//! context away, and only then lets the other users begin.
ghost use Rattle.std.specs.Prelude.{◌≡◌, IfOk, IfSome, OnOk};
ghost use Rattle.mcs_plan_domains.specs.Lowered.{IsLowered, IsStarted, entry_put};
ghost use Rattle.mcs_plan_domains.specs.Pages.{page_of};

use crate::lowered::Lowered;
use crate::words::{has, is};
use mcs_plan_source::{PlanError, PlanFault, STARTER, split_comment, split_words};
use std::alloc::{AllocError, Global};

/// A passive thread, which receives on an endpoint with a reply object.
#[derive(Clone, Copy)]
struct Passive<'a> {
    name: &'a str,
    line: u64,
    /// How many passive threads are before it.
    place: usize,
    endpoint: &'a str,
    reply: &'a str,
}

/// A thread that runs from the beginning.
#[derive(Clone, Copy)]
struct Runner<'a> {
    name: &'a str,
    line: u64,
}

/// A line of a plan, and the line from which it came.
#[derive(Drop)]
struct Line<'a> {
    text: &'a str,
    words: Vec<&'a str>,
    origin: u64,
}

/// What a plan says of its threads.
#[derive(Drop)]
struct Threads<'a> {
    passives: Vec<Passive<'a>>,
    runners: Vec<Runner<'a>>,
    /// The threads with lines of a user or a program, in order.
    users: Vec<&'a str>,
}

/// Returns a thread's declaration as passive, if the line is one; `place` passive threads are
/// before it.
fn passive_of<'a>(words: &[&'a str], line: u64, place: usize) -> Option<Passive<'a>> {
    let name = thread_of(words)?;
    let from = words.iter().position(|word| *word == "passive")?;
    let [_, on, endpoint, with, reply, ..] = words.get(from..)? else {
        return None;
    };
    if *on != "on" || *with != "with" {
        return None;
    }
    Some(Passive {
        name,
        line,
        place,
        endpoint: *endpoint,
        reply: *reply,
    })
}

/// Returns the name of the thread that a line makes, if it makes one.
fn thread_of<'a>(words: &[&'a str]) -> Option<&'a str> {
    if !is(words.first(), "thread") {
        return None;
    }
    words.get(1).copied()
}

/// Returns the thread whose entries or program a line gives, if it does.
fn user_of<'a>(words: &[&'a str]) -> Option<&'a str> {
    match words {
        [first, name, ..] if *first == "program" => Some(*name),
        [first, name, ..] if *first == "user" => Some(name.strip_suffix(":").unwrap_or(*name)),
        _ => None,
    }
}

/// Returns whether a line begins a program.
fn is_program(words: &[&str]) -> bool {
    is(words.first(), "program")
}

/// Returns whether a thread's line lets it run from the beginning.
fn runs(words: &[&str]) -> bool {
    !has(words, "stopped") && !has(words, "without")
}

impl<'a> Threads<'a> {
    /// Adds what a line says.
    fn add(&mut self, line: &Line<'a>) -> Result<(), AllocError> {
        self.add_thread(line)?;
        self.add_user(line)
    }

    /// Adds the thread that a line makes, if it makes one that is passive or runs.
    fn add_thread(&mut self, line: &Line<'a>) -> Result<(), AllocError> {
        let place = self.passives.len();
        if let Some(passive) = passive_of(&line.words, line.origin, place) {
            self.passives.push(passive)?;
            return Ok(());
        }
        let Some(name) = thread_of(&line.words) else {
            return Ok(());
        };
        if runs(&line.words) {
            let line = line.origin;
            self.runners.push(Runner { name, line })?;
        }
        Ok(())
    }

    /// Adds the user of a line, if it has one that is new.
    fn add_user(&mut self, line: &Line<'a>) -> Result<(), AllocError> {
        let Some(user) = user_of(&line.words) else {
            return Ok(());
        };
        if !self.is_user(user) {
            self.users.push(user)?;
        }
        Ok(())
    }

    /// Returns whether a thread is a user.
    fn is_user(&self, name: &str) -> bool {
        has(&self.users, name)
    }

    /// Returns the passive thread with a name.
    fn passive(&self, name: &str) -> Option<Passive<'a>> {
        for passive in &self.passives {
            if passive.name == name {
                return Some(*passive);
            }
        }
        None
    }

    /// Returns the line of the first passive thread. None if no thread is a user, or none is
    /// passive.
    fn first_passive(&self) -> Option<u64> {
        if self.users.is_empty() {
            return None;
        }
        match self.passives.first() {
            Some(passive) => Some(passive.line),
            None => None,
        }
    }

    /// Returns whether the thread with a name must not begin before all passive threads wait.
    fn is_held(&self, name: &str) -> bool {
        self.is_user(name) && self.passive(name).is_none()
    }
}

/// Puts the name of the notification with which a passive thread signals that it has begun to
/// receive.
fn put_ready(out: &mut Lowered, passive: &Passive<'_>) -> Result<(), AllocError> {
    out.put(STARTER)?;
    out.counted(".ready", (passive.place as u64).saturating_add(1))
}

/// Appends the first entry of a passive thread: it signals that it has begun, and receives.
fn put_receive(out: &mut Lowered, passive: &Passive<'_>) -> Result<(), AllocError> {
    out.put("nbsendrecv ")?;
    put_ready(out, passive)?;
    put_receiving(out, passive)
}

/// Puts with what a passive thread receives, the last of an entry.
fn put_receiving(out: &mut Lowered, passive: &Passive<'_>) -> Result<(), AllocError> {
    out.put(" ")?;
    out.put(passive.endpoint)?;
    out.last_name(passive.line, " ", passive.reply, " 0")
}

/// Puts that a thread has the notification of a passive one, with these rights.
fn put_has_ready(
    out: &mut Lowered,
    holder: &str,
    passive: &Passive<'_>,
    rights: &str,
) -> Result<(), AllocError> {
    out.put(holder)?;
    out.put(" has ")?;
    put_ready(out, passive)?;
    out.last(passive.line, rights)
}

/// Appends the objects and capabilities for a passive thread, its own and the starter's.
fn put_needs(out: &mut Lowered, passive: &Passive<'_>) -> Result<(), AllocError> {
    put_has_ready(out, passive.name, passive, ":w")?;
    put_has_ready(out, STARTER, passive, ":r")?;
    out.put(STARTER)?;
    out.last_name(passive.line, " has ", passive.name, ".context")
}

/// Puts what all passive threads and the starter need for them.
fn put_all_needs(out: &mut Lowered, passives: &[Passive<'_>]) -> Result<(), AllocError> {
    for passive in passives {
        put_needs(out, passive)?;
    }
    Ok(())
}

/// Puts the notification of a passive thread.
fn put_notification(out: &mut Lowered, passive: &Passive<'_>) -> Result<(), AllocError> {
    out.put("notification ")?;
    put_ready(out, passive)?;
    out.end(passive.line)
}

/// Puts the notifications of all passive threads.
fn put_notifications(out: &mut Lowered, passives: &[Passive<'_>]) -> Result<(), AllocError> {
    for passive in passives {
        put_notification(out, passive)?;
    }
    Ok(())
}

/// Puts that the starter has each thread that it lets begin.
fn put_held(out: &mut Lowered, threads: &Threads<'_>) -> Result<(), AllocError> {
    for runner in &threads.runners {
        if threads.is_held(runner.name) {
            out.last_name(runner.line, STARTER, " has ", runner.name)?;
        }
    }
    Ok(())
}

/// Appends the thread that starts the others, and its capabilities.
fn put_starter(out: &mut Lowered, threads: &Threads<'_>, first: u64) -> Result<(), AllocError> {
    put_notifications(out, &threads.passives)?;
    out.last_name(first, "thread ", STARTER, " prio 255")?;
    out.last_name(first, STARTER, " has ", STARTER)?;
    put_all_needs(out, &threads.passives)?;
    put_held(out, threads)
}

/// Appends an entry of the starter.
fn put_entry(
    out: &mut Lowered,
    line: u64,
    entry: &str,
    name: &str,
    after: &str,
) -> Result<(), AllocError>
    ensures { OnOk result
        (page_of out.new ≡ entry_put (page_of out.old) line entry.now name.now after.now) }
{
    out.put("user ")?;
    out.put(STARTER)?;
    out.last_name(line, entry, name, after)
}

/// Puts that the starter waits until a passive thread receives.
fn put_wait(out: &mut Lowered, passive: &Passive<'_>) -> Result<(), AllocError> {
    out.put("user ")?;
    out.put(STARTER)?;
    out.put(": wait ")?;
    put_ready(out, passive)?;
    out.end(passive.line)
}

/// Puts that the starter waits until all passive threads receive.
fn put_waits(out: &mut Lowered, passives: &[Passive<'_>]) -> Result<(), AllocError> {
    for passive in passives {
        put_wait(out, passive)?;
    }
    Ok(())
}

/// Puts that the starter takes the contexts of all passive threads away.
fn put_unbinds(out: &mut Lowered, passives: &[Passive<'_>]) -> Result<(), AllocError> {
    for passive in passives {
        put_entry(out, passive.line, ": unbind ", passive.name, ".context")?;
    }
    Ok(())
}

/// Puts that the starter lets the other users begin.
fn put_resumes(out: &mut Lowered, threads: &Threads<'_>) -> Result<(), AllocError> {
    for runner in &threads.runners {
        if threads.is_held(runner.name) {
            put_entry(out, runner.line, ": resume ", runner.name, "")?;
        }
    }
    Ok(())
}

/// Puts the entries of the starter: it waits until all passive threads receive, takes their
/// contexts away, lets the other users begin, and suspends itself.
fn put_entries(out: &mut Lowered, threads: &Threads<'_>, first: u64) -> Result<(), AllocError>
    ensures { OnOk result (IsStarted (page_of out.new)) }
{
    put_waits(out, &threads.passives)?;
    put_unbinds(out, &threads.passives)?;
    put_resumes(out, threads)?;
    put_entry(out, first, ": suspend ", STARTER, "")
}

/// Appends the line of a passive thread without the words that make it passive.
fn put_passive(out: &mut Lowered, line: &Line<'_>) -> Result<(), AllocError> {
    let mut left: usize = 0;
    let mut between = "";
    for word in line.words.iter() {
        if *word == "passive" {
            left = 5;
        }
        if left == 0 {
            out.put(between)?;
            out.put(word)?;
            between = " ";
        }
        left = left.saturating_sub(1);
    }
    out.end(line.origin)
}

/// Returns whether a line makes a thread that is to begin only when all passive threads wait.
fn makes_held(threads: &Threads<'_>, line: &Line<'_>) -> bool {
    match thread_of(&line.words) {
        Some(name) => threads.is_held(name),
        None => false,
    }
}

/// Puts a line of a thread or of a user as it is where some threads are passive.
fn put_line(out: &mut Lowered, threads: &Threads<'_>, line: &Line<'_>) -> Result<(), AllocError> {
    if passive_of(&line.words, line.origin, 0).is_some() {
        return put_passive(out, line);
    }
    if makes_held(threads, line) && runs(&line.words) {
        let (code, _comment) = split_comment(line.text);
        out.put(code)?;
        return out.last(line.origin, " stopped");
    }
    out.last(line.origin, line.text)
}

/// Appends the first line of a program, and after it the first entry of the thread if it is
/// passive.
fn put_after(out: &mut Lowered, threads: &Threads<'_>, line: &Line<'_>) -> Result<(), AllocError> {
    if !is_program(&line.words) {
        return Ok(());
    }
    if let Some(name) = user_of(&line.words)
        && let Some(passive) = threads.passive(name)
    {
        out.put("  ")?;
        put_receive(out, &passive)?;
    }
    Ok(())
}

/// Appends the first entry of a passive thread as a line of a user.
fn put_first(out: &mut Lowered, passive: &Passive<'_>) -> Result<(), AllocError> {
    out.put("user ")?;
    out.put(passive.name)?;
    out.put(": ")?;
    put_receive(out, passive)
}

/// Returns whether one of these lines begins the program of a thread.
fn has_program(lines: &[Line<'_>], name: &str) -> bool {
    for line in lines {
        if is_program(&line.words) && user_of(&line.words) == Some(name) {
            return true;
        }
    }
    false
}

/// Puts the first entries of all passive threads without a program, and of the starter what its
/// boot needs.
fn put_front(
    out: &mut Lowered,
    threads: &Threads<'_>,
    lines: &[Line<'_>],
    first: u64,
) -> Result<(), AllocError> {
    put_starter(out, threads, first)?;
    for passive in &threads.passives {
        if !has_program(lines, passive.name) {
            put_first(out, passive)?;
        }
    }
    Ok(())
}

/// Puts a line, and after it the first entry of a passive thread if its program begins there.
fn put_with_entry(
    out: &mut Lowered,
    threads: &Threads<'_>,
    line: &Line<'_>,
) -> Result<(), AllocError> {
    put_line(out, threads, line)?;
    put_after(out, threads, line)
}

/// Puts all lines of a plan.
fn put_plan(
    out: &mut Lowered,
    threads: &Threads<'_>,
    lines: &[Line<'_>],
    first: u64,
) -> Result<(), AllocError>
    ensures { OnOk result (IsStarted (page_of out.new)) }
{
    let mut is_front = true;
    for line in lines {
        if is_front && user_of(&line.words).is_some() {
            put_front(out, threads, lines, first)?;
            is_front = false;
        }
        put_with_entry(out, threads, line)?;
    }
    put_entries(out, threads, first)
}

/// Returns the line from which one came that has so many before it.
fn origin_of(origins: &[u64], before: usize) -> u64 {
    match origins.get(before) {
        Some(origin) => *origin,
        None => (before as u64).saturating_add(1),
    }
}

/// Returns a line, which came from this one.
fn line_of<'a>(alloc: Global, text: &'a str, origin: u64) -> Result<Line<'a>, AllocError> {
    let (code, _comment) = split_comment(text);
    Ok(Line {
        text,
        words: split_words(alloc, code)?,
        origin,
    })
}

/// Returns the lines of a plan, each with the one of these from which it came, or its own number
/// where there are none.
fn lines_of<'a>(
    alloc: Global,
    plan: &'a str,
    origins: &[u64],
) -> Result<Vec<Line<'a>>, AllocError> {
    let mut lines = Vec::new(alloc);
    for (before, text) in plan.lines().enumerate() {
        lines.push(line_of(alloc, text, origin_of(origins, before))?)?;
    }
    Ok(lines)
}

/// Returns what the lines of a plan say of its threads.
fn threads_of<'a>(alloc: Global, lines: &[Line<'a>]) -> Result<Threads<'a>, AllocError> {
    let mut threads = Threads {
        passives: Vec::new(alloc),
        runners: Vec::new(alloc),
        users: Vec::new(alloc),
    };
    for line in lines {
        threads.add(line)?;
    }
    Ok(threads)
}

/// Returns the plan of these lines, in which each passive thread is one that a starter makes
/// passive.
#[tactic(auto, using(crate::proofs::Lowerings::with_starter))]
fn plan_of(
    alloc: Global,
    threads: &Threads<'_>,
    lines: &[Line<'_>],
    first: u64,
) -> Result<Lowered, AllocError>
    ensures { IfOk result (λ out. IsLowered (page_of out)) }
{
    let mut out = Lowered::new(alloc);
    put_plan(&mut out, threads, lines, first)?;
    Ok(out)
}

/// Returns such a plan of these lines. None where no thread is passive, or none is a user.
fn lowered_lines(alloc: Global, lines: &[Line<'_>]) -> Result<Option<Lowered>, AllocError>
    ensures { IfOk result (λ o. IfSome o (λ out. IsLowered (page_of out))) }
{
    let threads = threads_of(alloc, lines)?;
    match threads.first_passive() {
        Some(first) => Ok(Some(plan_of(alloc, &threads, lines, first)?)),
        None => Ok(None),
    }
}

/// Returns a plan in which each passive thread is one that a starter makes passive. None where no
/// thread is passive, or none is a user.
fn lowered_of(alloc: Global, plan: &str, origins: &[u64]) -> Result<Option<Lowered>, AllocError>
    ensures { IfOk result (λ o. IfSome o (λ out. IsLowered (page_of out))) }
{
    let lines = lines_of(alloc, plan, origins)?;
    lowered_lines(alloc, &lines)
}

/// Returns a plan in which a starter makes passive threads passive; `origins` says from which lines
/// its lines came. None if no thread is passive, or none is a user. `OutOfMemory` if an allocation
/// fails.
pub fn lower_passives(
    alloc: Global,
    plan: &str,
    origins: &[u64],
) -> Result<Option<Lowered>, PlanFault>
    ensures { IfOk result (λ o. IfSome o (λ out. IsLowered (page_of out))) }
{
    match lowered_of(alloc, plan, origins) {
        Ok(lowered) => Ok(lowered),
        Err(AllocError) => Err(PlanFault {
            line: 0,
            why: PlanError::OutOfMemory,
        }),
    }
}
