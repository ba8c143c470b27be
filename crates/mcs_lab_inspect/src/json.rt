//! The lines of a book as JSON, an object for each.
use crate::members::{Member, members_of, put_members, put_value, split_word};
use crate::named::NamesMember;
use crate::page::{Numbers, TextBuffer};
use mcs_lab_check::{
    Judge, LabFault, Labels, Last, LineResult, TakesLines, bare, object_of, queue_of, take_lines,
};
use mcs_lab_forms::{Fields, form_of};
use mcs_sim::Source;
use mcs_text::Words;
use mcs_trace::{Line, spell_answer, spell_record, spell_step};
use mcs_types::{ObjId, Queue};
use std::alloc::{AllocError, Global};
use std::io::{Read, Write};

/// Returns the form of a line; an empty one if there is none.
fn fields_of(sign: Option<u8>, key: &[u8]) -> Fields<'static> {
    match form_of(sign, key) {
        Some(fields) => fields,
        None => Fields::none(),
    }
}

/// Appends as an object the words after a key, if they are of the reported kind.
fn put_object<'a>(
    alloc: Global,
    page: &mut TextBuffer,
    fields: &mut Fields<'static>,
    kind: Option<Member<'a>>,
    text: Option<&'a [u8]>,
) {
    match members_of(alloc, kind, fields, text) {
        Some(members) => put_members(page, members.as_slice()),
        None => page.cut(),
    }
}

/// Appends a line as an object. The sign says whether the line is an answer or a record. Its key is
/// the member `kind`; the other words have the names that the form of the line gives them.
fn put_line(alloc: Global, page: &mut TextBuffer, sign: u8, line: &[u8]) {
    let (_, Some(after)) = split_word(line) else {
        return page.put(b"null");
    };
    let (key, text) = split_word(after);
    let kind = Member {
        name: b"kind".as_slice(),
        value: key,
        is_list: false,
        is_wide: false,
    };
    put_object(
        alloc,
        page,
        &mut fields_of(Some(sign), key),
        Some(kind),
        text,
    );
}

/// Appends the thread that entered, with its name if it has one.
fn put_thread(page: &mut TextBuffer, names: &Labels, thread: &[u8]) {
    page.put(b",\"thread\":");
    page.quoted(thread);
    if let Some(object) = object_of(thread) {
        page.name_member(names, object);
    }
}

/// Appends the words of the line of a step.
fn put_step(alloc: Global, page: &mut TextBuffer, names: &Labels, step: &[u8]) {
    let (core, Some(after)) = split_word(step) else {
        return;
    };
    let (thread, Some(after)) = split_word(after) else {
        return;
    };
    let (key, text) = split_word(after);
    page.put(b",\"core\":");
    put_value(page, core, false);
    put_thread(page, names, thread);
    page.put(b",\"entry\":");
    page.quoted(key);
    page.put(b",\"arguments\":");
    put_object(alloc, page, &mut fields_of(None, key), None, text);
}

/// Returns the object that a word names, directly or by one of its queues, if any.
fn object_in(word: &[u8]) -> Option<ObjId> {
    match queue_of(word) {
        Some(Queue::Senders(object) | Queue::Receivers(object) | Queue::Waiters(object)) => {
            Some(object)
        }
        None => object_of(word),
    }
}

/// The objects that a line of a book names, each once, in order.
#[derive(Drop)]
struct Mentioned {
    objects: Vec<ObjId>,
}

impl Mentioned {
    /// Adds an object, if it is not in the list yet.
    fn add(&mut self, object: ObjId) -> Result<(), AllocError> {
        for other in self.objects.iter() {
            if other.is_same(object) {
                return Ok(());
            }
        }
        self.objects.push(object)?;
        Ok(())
    }

    /// Adds the objects that the words of a text name.
    fn add_all(&mut self, text: &[u8]) -> Result<(), AllocError> {
        let mut words = Words::new(text);
        for _ in 0..text.len() {
            let Some(word) = words.next_word() else {
                break;
            };
            if let Some(object) = object_in(word) {
                self.add(object)?;
            }
        }
        Ok(())
    }

    /// Appends the names of the objects as the last member of an object, and empties the list.
    fn put_names(&mut self, page: &mut TextBuffer, names: &Labels) {
        let mut member = NamesMember::new(names, false);
        for object in self.objects.iter() {
            member.put(page, *object);
        }
        member.end(page);
        self.objects.clear();
    }
}

/// The state of writing a script's book as JSON.
#[derive(Drop)]
struct Teller {
    judge: Judge,
    names: Labels,
    mentioned: Mentioned,
    spelled: Box<Line>,
    page: TextBuffer,
}

/// Appends the records of a line of a book as JSON, and notes the objects that they name. `before`
/// is the number of messages sent before the line.
fn put_records(
    alloc: Global,
    page: &mut TextBuffer,
    mentioned: &mut Mentioned,
    spelled: &mut Line,
    line: mcs_book::Line<'_>,
    before: u128,
) {
    let mut sent = before;
    for i in 0..line.record_count() {
        let Some(fact) = line.kept_record(i) else {
            break;
        };
        spell_record(spelled, sent, &fact);
        if fact.is_sent() {
            sent = sent.saturating_add(1);
        }
        page.between(i == 0);
        put_line(alloc, page, b'+', bare(spelled.text()));
        if mentioned.add_all(bare(spelled.text())).is_err() {
            page.cut();
        }
    }
}

impl Teller {
    /// Returns the state before the first line. The judge is made last, so that no fault has to
    /// drop it.
    fn new(alloc: Global, numbers: Numbers) -> Result<Teller, LabFault> {
        let spelled = Box::new(alloc, Line::new())?;
        let mut page = TextBuffer::new(alloc)?;
        page.set_numbers(numbers);
        let names = Labels::new(alloc);
        let objects = Vec::new(alloc);
        let judge = Judge::new(alloc)?;
        Ok(Teller {
            judge,
            names,
            mentioned: Mentioned { objects },
            spelled,
            page,
        })
    }

    /// Appends the last step, which was accepted.
    fn tell(&mut self, alloc: Global) {
        let Some((line, before)) = self.judge.entered() else {
            return;
        };
        let page = &mut self.page;
        page.put(b"{\"line\":");
        page.number(self.judge.step().0);
        spell_step(&mut self.spelled, &line.kept_step());
        let step = bare(self.spelled.text());
        put_step(alloc, page, &self.names, step);
        if self.mentioned.add_all(step).is_err() {
            page.cut();
        }
        page.put(b",\"answer\":");
        spell_answer(&mut self.spelled, &line.kept_answer());
        put_line(alloc, page, b'=', bare(self.spelled.text()));
        page.put(b",\"records\":[");
        let mentioned = &mut self.mentioned;
        put_records(alloc, page, mentioned, &mut self.spelled, line, before);
        page.put(b"]");
        mentioned.put_names(page, &self.names);
        page.put(b"}\n");
    }

    /// Takes a line of a script.
    fn take(&mut self, alloc: Global, line: &[u8]) -> Result<(), LabFault> {
        match (self.judge.take(alloc, line)?, self.judge.last()) {
            (LineResult::Nothing, _) => self.names.hear(alloc, self.judge.line(), line),
            (LineResult::Step, Last::LetIn { .. }) => {
                self.tell(alloc);
                Ok(())
            }
            _ => Ok(()),
        }
    }
}

/// The reader of a script whose book is written as JSON.
#[derive(Drop)]
struct Writer<W> {
    teller: Teller,
    to: W,
}

impl<W: Write> TakesLines for Writer<W> {
    fn take_line(&mut self, alloc: Global, line: &[u8]) -> Result<(), LabFault> {
        self.teller.take(alloc, line)?;
        self.teller.page.write(&mut self.to)
    }

    fn taken(&self) -> u64 {
        self.teller.judge.line()
    }
}

/// Writes the JSON of a script to a writer.
fn write_all<R: Read, W: Write>(
    alloc: Global,
    from: &mut Source<R>,
    writer: &mut Writer<W>,
) -> Result<bool, LabFault> {
    take_lines(alloc, from, writer)?;
    writer.teller.judge.end(alloc)?;
    Ok(true)
}

/// Writes a JSON object for each line of a script's book, one a line; `numbers` says how it writes
/// numbers of up to 64 bits.
pub fn write_json<R: Read, W: Write + Drop>(
    alloc: Global,
    from: &mut Source<R>,
    to: W,
    numbers: Numbers,
) -> Result<bool, LabFault> {
    let teller = Teller::new(alloc, numbers)?;
    let mut writer = Writer { teller, to };
    write_all(alloc, from, &mut writer)
}
