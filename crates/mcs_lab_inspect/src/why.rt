//! Why a step did nothing, in words.
use crate::hints::put_hints;
use crate::page::TextBuffer;
use crate::path::put_path;
use crate::stuck::{Waits, taker_of};
use mcs_kernel::{EnterFault, Kernel};
use mcs_lab_check::{
    Judge, LabFault, Labels, Last, LineResult, TakesLines, bare, entrant_of, flaw_of, take_lines,
};
use mcs_lab_forms::{Fields, LooksUp, form_of, number_of};
use mcs_queues::LinkedLines;
use mcs_sim::Source;
use mcs_text::{LineFault, Words};
use mcs_types::{
    Answer, CoreId, Ending, Entry, Kind, Mode, ObjId, OutOfMemory, Place, Rec, Refusal, SendMode,
    Status, Step,
};
use std::alloc::Global;
use std::io::{Read, Write};

/// A line of the book, in which easily overlooked effects are looked for.
#[derive(Drop)]
struct Entered {
    step: Step,
    answer: Answer,
    records: Vec<Rec>,
}

/// Returns the taker of a call and its caller, if no thread can reply: in a line that takes a
/// message, its caller becomes Inactive, and no debt to it ends.
fn unanswerable(records: &[Rec]) -> Option<(ObjId, ObjId)> {
    let mut taker = None;
    let mut ended = None;
    for record in records {
        match record {
            Rec::Took { thread, .. } => taker = Some(*thread),
            Rec::Void { caller, .. } => ended = Some(*caller),
            Rec::Turns {
                thread,
                mode: Mode::Inactive,
            } if ended != Some(*thread) => return Some((taker?, *thread)),
            _ => {}
        }
    }
    None
}

/// Returns whether lookup gave this refusal.
fn refuses<T: Drop>(found: Option<Result<T, Refusal>>, refusal: Refusal) -> bool {
    match found {
        Some(Err(why)) => why == refusal,
        _ => false,
    }
}

/// The thread of a step, and the refusal of lookup.
#[derive(Clone, Copy)]
struct Refused {
    thread: ObjId,
    refusal: Refusal,
}

/// Appends that lookup gives an address this refusal, and where the address leads. Returns false if
/// it does not.
fn put_address(
    page: &mut TextBuffer,
    names: &Labels,
    kernel: &Kernel<LinkedLines>,
    step: Refused,
    address: u64,
) -> bool {
    if !refuses(kernel.named(step.thread, address), step.refusal) {
        return false;
    }
    page.put(b"address ");
    page.number(address);
    if let Some(root) = kernel.root(step.thread) {
        put_path(page, kernel, names, root, address, 64);
    }
    true
}

/// Appends that lookup gives a place this refusal, and where the place leads. Returns false if it
/// does not.
fn put_place(
    page: &mut TextBuffer,
    names: &Labels,
    kernel: &Kernel<LinkedLines>,
    step: Refused,
    place: Place,
) -> bool {
    if !refuses(kernel.placed(step.thread, place), step.refusal) {
        return false;
    }
    let Place { index, depth } = place;
    page.put(b"index ");
    page.number(index);
    page.put(b" at depth ");
    page.number(depth as u64);
    if depth >= 1
        && depth <= 64
        && let Some(root) = kernel.root(step.thread)
    {
        put_path(page, kernel, names, root, index, depth as u32);
    }
    true
}

/// Reads the place of an index and the depth that follows it.
fn place_of(index: u64, fields: &mut Fields<'_>, words: &mut Words<'_>) -> Option<Place> {
    fields.next_field()?;
    let depth = u8::try_from(number_of(words.next_word()?)?).ok()?;
    Some(Place { index, depth })
}

/// Appends the first address or place of a step, from the words after its key, that lookup refuses
/// so, if any.
fn put_first_refused(
    page: &mut TextBuffer,
    names: &Labels,
    kernel: &Kernel<LinkedLines>,
    step: Refused,
    fields: &mut Fields<'_>,
    words: &mut Words<'_>,
    most: usize,
) -> bool {
    for _ in 0..most {
        let (Some(field), Some(word)) = (fields.next_field(), words.next_word()) else {
            return false;
        };
        let Some(number) = number_of(word) else {
            continue;
        };
        let is_put = match field.looks_up {
            LooksUp::Nothing => false,
            LooksUp::Address => put_address(page, names, kernel, step, number),
            LooksUp::Place => match place_of(number, fields, words) {
                Some(place) => put_place(page, names, kernel, step, place),
                None => false,
            },
        };
        if is_put {
            return true;
        }
    }
    false
}

/// Appends the address or place of a step that lookup refuses so, if any.
fn put_refused(
    page: &mut TextBuffer,
    names: &Labels,
    kernel: &Kernel<LinkedLines>,
    step: &[u8],
    refusal: Refusal,
) -> bool {
    let mut words = Words::new(step);
    let (Some(_), Some(_), Some(key)) = (words.next_word(), words.next_word(), words.next_word())
    else {
        return false;
    };
    let (Some((_, thread)), Some(mut fields)) = (entrant_of(step), form_of(None, key)) else {
        return false;
    };
    let refused = Refused { thread, refusal };
    put_first_refused(
        page,
        names,
        kernel,
        refused,
        &mut fields,
        &mut words,
        step.len(),
    )
}

/// Appends the thread that took the call for which a reply object owes a reply.
fn put_taker(
    alloc: Global,
    page: &mut TextBuffer,
    names: &Labels,
    kernel: &Kernel<LinkedLines>,
    reply: ObjId,
) {
    match taker_of(alloc, kernel.book(), reply) {
        Err(_) => page.cut(),
        Ok(None) => {}
        Ok(Some(taker)) => {
            page.put(b" (");
            page.object(names, taker);
            page.put(b" took its call)");
        }
    }
}

/// Appends a thread and why it does not run: its queue, the reply that it waits for and which
/// thread took its call, or that it is inactive or closed.
fn put_status(
    alloc: Global,
    page: &mut TextBuffer,
    names: &Labels,
    kernel: &Kernel<LinkedLines>,
    thread: ObjId,
) {
    page.object(names, thread);
    match kernel.status(thread) {
        Some(Status::Queued(queue)) => {
            page.put(b" stands in ");
            page.queue(names, queue);
        }
        Some(Status::OnReply(reply)) => {
            page.put(b" waits for the answer that ");
            page.object(names, reply);
            page.put(b" owes");
            put_taker(alloc, page, names, kernel, reply);
        }
        Some(Status::Inactive) => page.put(b" is inactive"),
        Some(Status::Closed) => page.put(b" is closed"),
        Some(Status::Running | Status::Restart) | None => page.put(b" does not run"),
    }
}

/// Appends of which core the context of a thread is.
fn put_other_core(
    page: &mut TextBuffer,
    names: &Labels,
    kernel: &Kernel<LinkedLines>,
    thread: ObjId,
) {
    page.object(names, thread);
    page.put(b" holds ");
    let Some(context) = kernel.context(thread) else {
        return page.put(b"-");
    };
    page.object(names, context);
    if let Some(core) = kernel.core(context) {
        page.put(b", which is of core ");
        page.number(core.0 as u64);
    }
}

/// Appends why a thread may not enter on a core.
fn put_reason(
    alloc: Global,
    page: &mut TextBuffer,
    names: &Labels,
    kernel: &Kernel<LinkedLines>,
    core: CoreId,
    thread: ObjId,
) {
    match kernel.fault(core, thread) {
        Some(EnterFault::NotRunning) => put_status(alloc, page, names, kernel, thread),
        Some(EnterFault::NoContext) => {
            page.object(names, thread);
            page.put(b" holds no scheduling context");
        }
        Some(EnterFault::WrongCore) => put_other_core(page, names, kernel, thread),
        _ => page.put(b"it may not enter"),
    }
}

/// Appends that a debt ended without an answer.
fn put_void(page: &mut TextBuffer, names: &Labels, reply: ObjId, caller: ObjId, ending: Ending) {
    page.object(names, reply);
    page.put(b" owed ");
    page.object(names, caller);
    match ending {
        Ending::Deleted => page.put(b" an answer, which never comes: it was deleted\n"),
        Ending::Cancelled => page.put(b" an answer, which never comes: the debt was cancelled\n"),
    }
}

/// Appends what a record means for the thread that waits for a reply.
fn put_record(page: &mut TextBuffer, names: &Labels, record: &Rec) {
    match record {
        Rec::Sent {
            sender,
            endpoint,
            mode: SendMode::Mute,
            ..
        } => {
            page.put(b"nobody can answer the call of ");
            page.object(names, *sender);
            page.put(b" on ");
            page.object(names, *endpoint);
            page.put(b": its capability has neither g nor p\n");
        }
        Rec::Void {
            reply,
            caller,
            ending,
        } => put_void(page, names, *reply, *caller, *ending),
        Rec::Dropped { message } => {
            page.put(b"m");
            page.number(*message as u64);
            page.put(b" was dropped: nobody receives it\n");
        }
        _ => {}
    }
}

/// Returns whether a record is reported.
fn is_reported(record: &Rec) -> bool {
    match record {
        Rec::Sent {
            mode: SendMode::Mute,
            ..
        }
        | Rec::Void { .. }
        | Rec::Dropped { .. } => true,
        Rec::Sent {
            mode: SendMode::Plain | SendMode::Call | SendMode::Give,
            ..
        }
        | Rec::Made { .. }
        | Rec::Closed { .. }
        | Rec::Slot { .. }
        | Rec::Prio { .. }
        | Rec::Turns { .. }
        | Rec::Joins { .. }
        | Rec::Parts { .. }
        | Rec::Took { .. }
        | Rec::Owes { .. }
        | Rec::Paid { .. }
        | Rec::Holds { .. }
        | Rec::Raised { .. }
        | Rec::Heard { .. }
        | Rec::Tied { .. }
        | Rec::Homed { .. } => false,
    }
}

/// Returns the address over which an entry sends without waiting, if no thread receives or is owed
/// a reply.
fn sends_once(entry: &Entry) -> Option<u64> {
    match entry {
        Entry::Send { cap, .. }
        | Entry::NbSend { cap, .. }
        | Entry::NbSendRecv { cap, .. }
        | Entry::NbSendWait { cap, .. } => Some(*cap),
        Entry::ReplyRecv { reply, .. } => Some(*reply),
        _ => None,
    }
}

/// Returns whether a record sends a message or a reply.
fn delivers(record: &Rec) -> bool {
    match record {
        Rec::Sent { .. } | Rec::Paid { .. } => true,
        Rec::Made { .. }
        | Rec::Closed { .. }
        | Rec::Slot { .. }
        | Rec::Prio { .. }
        | Rec::Turns { .. }
        | Rec::Joins { .. }
        | Rec::Parts { .. }
        | Rec::Took { .. }
        | Rec::Dropped { .. }
        | Rec::Owes { .. }
        | Rec::Void { .. }
        | Rec::Holds { .. }
        | Rec::Raised { .. }
        | Rec::Heard { .. }
        | Rec::Tied { .. }
        | Rec::Homed { .. } => false,
    }
}

/// Returns whether some record sends a message or a reply.
fn is_delivered(records: &[Rec]) -> bool {
    for record in records {
        if delivers(record) {
            return true;
        }
    }
    false
}

/// Returns whether an answer refuses.
fn is_refused(answer: &Answer) -> bool {
    match answer {
        Answer::Refused(_) => true,
        Answer::Done | Answer::Got { .. } | Answer::Heard { .. } | Answer::Empty | Answer::Waits =>
            false,
    }
}

/// Returns whether a message goes to an object of this kind.
fn takes_messages(kind: Kind) -> bool {
    match kind {
        Kind::Endpoint | Kind::Reply => true,
        Kind::CNode | Kind::Thread | Kind::Notification | Kind::Context => false,
    }
}

/// Returns the endpoint or reply object over which the message of a line was lost, if it was.
fn dropped_at(kernel: &Kernel<LinkedLines>, entered: &Entered) -> Option<ObjId> {
    let address = sends_once(&entered.step.entry)?;
    if is_refused(&entered.answer) || is_delivered(entered.records.as_slice()) {
        return None;
    }
    match kernel.named(entered.step.thread, address) {
        Some(Ok(cap)) if takes_messages(cap.obj.kind) => Some(cap.obj),
        _ => None,
    }
}

/// Explains a script, line by line.
#[derive(Drop)]
struct Teller {
    judge: Judge,
    names: Labels,
    page: TextBuffer,
}

impl Teller {
    /// Returns an explainer before the first line. The judge is made last, so that no fault has to
    /// drop it.
    fn new(alloc: Global) -> Result<Teller, LabFault> {
        let page = TextBuffer::new(alloc)?;
        let names = Labels::new(alloc);
        let judge = Judge::new(alloc)?;
        Ok(Teller { judge, names, page })
    }

    /// Appends the line of the last step, and a colon.
    fn put_step(&mut self) {
        let (number, step) = self.judge.step();
        self.page.put(b"line ");
        self.page.number(number);
        self.page.put(b": ");
        self.page.shown(bare(step));
        self.page.put(b": ");
    }

    /// Reports why the last step was skipped.
    fn tell_away(&mut self, alloc: Global) {
        self.put_step();
        self.page.put(b"skipped: ");
        let (_, step) = self.judge.step();
        if let (Some(kernel), Some((core, thread))) = (self.judge.kernel(), entrant_of(step)) {
            put_reason(alloc, &mut self.page, &self.names, kernel, core, thread);
        }
        self.page.put(b"\n");
    }

    /// Reports a fault of the script, and what may have been meant.
    fn tell_fault(&mut self, alloc: Global, line: &[u8], fault: LabFault) {
        let LabFault::Script { line: number, why } = fault else {
            return;
        };
        let page = &mut self.page;
        page.put(b"line ");
        page.number(number);
        page.put(b": fault ");
        page.number(why.number() as u64);
        page.put(b": ");
        page.made(why.to_string(alloc));
        page.put(b": ");
        page.shown(bare(line));
        page.put(b"\n");
        if let Some(flaw) = flaw_of(line) {
            page.put(b"  ");
            page.made(flaw.to_string(alloc));
            page.put(b"\n");
        } else if why == LineFault::Form || why == LineFault::Number {
            put_hints(page, bare(line));
        }
    }

    /// Reports why the last step was refused.
    fn tell_refused(&mut self, alloc: Global, refusal: Refusal) {
        self.put_step();
        self.page.put(b"refused ");
        self.page.number(refusal as u64);
        self.page.put(b": ");
        let (_, step) = self.judge.step();
        if let Some(kernel) = self.judge.kernel()
            && put_refused(&mut self.page, &self.names, kernel, bare(step), refusal)
        {
            self.page.put(b": ");
        }
        self.page.made(refusal.to_string(alloc));
        self.page.put(b"\n");
    }

    /// Returns the answer and the records of the last step, if it was accepted.
    fn entered(&self, alloc: Global) -> Result<Option<Entered>, OutOfMemory> {
        let Some((line, _)) = self.judge.entered() else {
            return Ok(None);
        };
        let mut records = Vec::new(alloc);
        for i in 0..line.record_count() {
            if let Some(record) = line.record(alloc, i)?
                && records.push(record).is_err()
            {
                return Err(OutOfMemory);
            }
        }
        Ok(Some(Entered {
            step: line.step(alloc)?,
            answer: line.answer(alloc)?,
            records,
        }))
    }

    /// Reports the taker of a call to which no thread can reply.
    fn tell_unanswerable(&mut self, taker: ObjId, caller: ObjId) {
        self.put_step();
        self.page.object(&self.names, taker);
        self.page.put(b" took the call of ");
        self.page.object(&self.names, caller);
        self.page.put(b", which nobody can answer: no reply object owes for it\n");
    }

    /// Reports records with easily overlooked effects.
    fn tell_records(&mut self, records: &[Rec]) {
        let mut tells = false;
        for record in records {
            if is_reported(record) {
                self.put_step();
                put_record(&mut self.page, &self.names, record);
                tells = true;
            }
        }
        if !tells && let Some((taker, caller)) = unanswerable(records) {
            self.tell_unanswerable(taker, caller);
        }
    }

    /// Reports that the message or the reply of the last step was lost, if it was.
    fn tell_dropped(&mut self, entered: &Entered) {
        let Some(kernel) = self.judge.kernel() else {
            return;
        };
        let Some(object) = dropped_at(kernel, entered) else {
            return;
        };
        self.put_step();
        if object.kind.is_same(Kind::Reply) {
            self.page.put(b"the answer was dropped: ");
            self.page.object(&self.names, object);
            self.page.put(b" owes nobody\n");
        } else {
            self.page
                .put(b"the message was dropped: nobody receives on ");
            self.page.object(&self.names, object);
            self.page.put(b"\n");
        }
    }

    /// Reports easily overlooked effects of the last step, which was accepted.
    fn tell_entered(&mut self, alloc: Global) {
        match self.entered(alloc) {
            Ok(None) => {}
            Err(OutOfMemory) => self.page.cut(),
            Ok(Some(entered)) => {
                if let Answer::Refused(refusal) = &entered.answer {
                    self.tell_refused(alloc, *refusal);
                }
                self.tell_dropped(&entered);
                self.tell_records(entered.records.as_slice());
            }
        }
    }

    /// Takes a line of the script.
    fn take(&mut self, alloc: Global, line: &[u8]) -> Result<(), LabFault> {
        let line_result = match self.judge.take(alloc, line) {
            Ok(line_result) => line_result,
            Err(fault) => {
                self.tell_fault(alloc, line, fault);
                return Err(fault);
            }
        };
        match (line_result, self.judge.last()) {
            (LineResult::Nothing, _) => return self.names.hear(alloc, self.judge.line(), line),
            (LineResult::Step, Last::Away) => self.tell_away(alloc),
            (LineResult::Step, Last::LetIn { .. }) => self.tell_entered(alloc),
            _ => {}
        }
        Ok(())
    }

    /// Reports what is stuck at the end. Returns true if nothing is.
    fn tell_stuck(&mut self, alloc: Global) -> Result<bool, LabFault> {
        self.judge.end(alloc)?;
        let Some(kernel) = self.judge.kernel() else {
            return Ok(true);
        };
        let waits = Waits::new(alloc, kernel)?;
        Ok(waits.put(&mut self.page, kernel, &self.names))
    }
}

/// A reader, with the explainer of its script.
#[derive(Drop)]
struct Explainer<W> {
    teller: Teller,
    to: W,
}

impl<W: Write> TakesLines for Explainer<W> {
    fn take_line(&mut self, alloc: Global, line: &[u8]) -> Result<(), LabFault> {
        let taken = self.teller.take(alloc, line);
        self.teller.page.write(&mut self.to)?;
        taken
    }

    fn taken(&self) -> u64 {
        self.teller.judge.line()
    }
}

/// Explains a script, and what is stuck at its end. Returns true if nothing is.
fn explain_all<R: Read, W: Write>(
    alloc: Global,
    from: &mut Source<R>,
    explainer: &mut Explainer<W>,
) -> Result<bool, LabFault> {
    take_lines(alloc, from, explainer)?;
    let is_free = explainer.teller.tell_stuck(alloc)?;
    explainer.teller.page.write(&mut explainer.to)?;
    Ok(is_free)
}

/// Explains a script: each skipped or refused step, each call to which no thread can reply, each
/// debt that became void, each lost message or reply, and at the end what is stuck. Returns true if
/// nothing is stuck.
pub fn explain<R: Read, W: Write + Drop>(
    alloc: Global,
    from: &mut Source<R>,
    to: W,
) -> Result<bool, LabFault> {
    let teller = Teller::new(alloc)?;
    let mut explainer = Explainer { teller, to };
    explain_all(alloc, from, &mut explainer)
}
