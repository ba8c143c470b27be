//! The report of a search as text.
use crate::endings::{Ending, is_idle};
use crate::ends::Standing;
use crate::findings::{Answered, AnsweredEntry, Findings, Judged, KindOfEnd, entry_text};
use crate::header::put_head;
use crate::judgement::Sighting;
use crate::outcomes::Outcome;
use crate::report::{Explored, Report};
use crate::slots::Origin;
use crate::stuck_users::{StuckUsers, seen_at};
use crate::watcher::Progress;
use mcs_explore_questions::Event;
use mcs_explore_script::{AskedLine, UserScript};
use mcs_lab_check::{LabFault, Labels};
use mcs_lab_inspect::TextBuffer;
use mcs_text::Token;
use mcs_types::Status;
use std::io::Write;

/// Appends the slot that names an object, if a user made it.
fn put_origin(page: &mut TextBuffer, origin: Origin) {
    match origin {
        Origin::Boot => {}
        Origin::Slot(slot) => {
            page.put(b" (slot ");
            page.number(slot.index as u64);
            page.put(b" of ");
            page.word(&Token::Name(slot.cnode));
            page.put(b")");
        }
        Origin::NoSlot => page.put(b" (in no slot)"),
    }
}

/// Appends what a user is blocked on, or why it does not run.
fn put_status(page: &mut TextBuffer, names: &Labels, status: Option<Status>, origin: Origin) {
    match status {
        Some(Status::Queued(queue)) => {
            page.put(b" waits in ");
            page.queue(names, queue);
            put_origin(page, origin);
        }
        Some(Status::OnReply(reply)) => {
            page.put(b" waits for the answer that ");
            page.object(names, reply);
            put_origin(page, origin);
            page.put(b" owes");
        }
        Some(Status::Running) => page.put(b" runs on no core"),
        Some(Status::Restart) => page.put(b" restarts on no core"),
        Some(Status::Inactive) => page.put(b" is inactive"),
        Some(Status::Closed) | None => page.put(b" is closed"),
    }
}

/// Appends a user of an end, and its state.
pub fn put_standing(
    page: &mut TextBuffer,
    script: &UserScript,
    standing: &Standing,
    origin: Origin,
) {
    let names = &script.names;
    let number = standing.entry();
    let place = if standing.is_waiting() {
        "in"
    } else {
        "before"
    };
    page.object(names, standing.thread);
    put_status(page, names, standing.status, origin);
    page.put(b" ");
    page.put(place.as_bytes());
    page.put(b" entry ");
    page.count(number);
    page.put(b" (");
    page.escaped(entry_text(script, standing.thread, number));
    page.put(b")");
    if standing.has_entries {
        page.put(b", with entries left");
    }
    if is_idle(&script.asked, standing) {
        page.put(b" (idle)");
    }
    page.put(b"\n");
}

/// Appends the entry that is repeated after its answer on the way to what is seen, if any.
fn put_again<P: Progress>(
    page: &mut TextBuffer,
    findings: &Findings<'_, P>,
    seen: Sighting,
) -> Result<(), LabFault> {
    if let Some(event) = findings.given_again(seen)? {
        page.put(b"; ");
        page.object(&findings.script.names, event.thread);
        page.put(b" gives entry ");
        page.count(event.number);
        page.put(b" again after its answer");
    }
    Ok(())
}

/// Appends a kind of end, each line after a mark. `OutOfMemory` if an allocation fails.
pub fn put_end<P: Progress>(
    page: &mut TextBuffer,
    findings: &Findings<'_, P>,
    mark: &str,
    kind: &KindOfEnd<'_>,
) -> Result<(), LabFault> {
    let end = kind.end;
    page.put(mark.as_bytes());
    page.put(b"end ");
    page.count(kind.number);
    page.put(b": ");
    page.put(findings.ending(end).text().as_bytes());
    page.put(b", ");
    page.counted(end.count, "time");
    page.put(b", first after ");
    page.counted(findings.steps(seen_at(end.place)), "step");
    put_again(page, findings, seen_at(end.place))?;
    page.put(b"\n");
    for (place, standing) in end.standing.iter().enumerate() {
        page.put(mark.as_bytes());
        page.put(b"  ");
        put_standing(page, findings.script, standing, kind.origin(place));
    }
    Ok(())
}

/// Appends users that are stuck from one state on, after a mark. `OutOfMemory` if an allocation
/// fails.
pub fn put_stuck<P: Progress>(
    page: &mut TextBuffer,
    findings: &Findings<'_, P>,
    mark: &str,
    number: usize,
    stuck: &StuckUsers,
) -> Result<(), LabFault> {
    page.put(mark.as_bytes());
    page.put(b"stuck ");
    page.count(number);
    let mut between = ": ";
    for user in stuck.users.iter() {
        if let Some(list) = findings.script.users.at(*user) {
            page.put(between.as_bytes());
            page.object(&findings.script.names, list.thread);
            between = ", ";
        }
    }
    page.put(b", first after ");
    page.counted(findings.steps(seen_at(stuck.place)), "step");
    put_again(page, findings, seen_at(stuck.place))?;
    page.put(b"\n");
    Ok(())
}

/// Appends the result of a question.
fn put_outcome(page: &mut TextBuffer, judged: &Judged<'_>, is_whole: bool) {
    match judged.outcome {
        Outcome::Holds | Outcome::HoldsSince(_) => {
            page.put(b"holds");
            if !is_whole && judged.seen.is_none() {
                page.put(b" so far");
            }
        }
        Outcome::Fails => page.put(b"does not hold"),
        Outcome::NotSeen => page.put(b"not seen so far"),
    }
    if let Some(why) = judged.outcome.since() {
        page.put(b" (");
        page.put(why.text().as_bytes());
        page.put(b")");
    }
}

/// Appends a question and the number of its line.
pub fn put_asked(page: &mut TextBuffer, line: &AskedLine) {
    page.put(b"question at line ");
    page.number(line.line);
    page.put(b": ");
    page.escaped(line.text.as_slice());
}

/// Appends a question and its result, after a mark. `OutOfMemory` if an allocation fails.
pub fn put_question<P: Progress>(
    page: &mut TextBuffer,
    findings: &Findings<'_, P>,
    mark: &str,
    judged: &Judged<'_>,
) -> Result<(), LabFault> {
    page.put(mark.as_bytes());
    put_asked(page, judged.line);
    page.put(b": ");
    put_outcome(page, judged, findings.orders.is_whole());
    if let Some(seen) = judged.seen {
        page.put(b", seen after ");
        page.counted(findings.steps(seen), "step");
        put_again(page, findings, seen)?;
    }
    page.put(b"\n");
    Ok(())
}

/// Appends an answer of an entry as a comment.
pub fn put_answer(page: &mut TextBuffer, names: &Labels, event: Event, answer: &Answered) {
    page.put(b"# answer of ");
    page.object(names, event.thread);
    page.put(b" ");
    page.count(event.number);
    page.put(b": ");
    page.put(answer.text.as_slice());
    page.put(b"\n");
}

/// Appends an entry with its text in the script.
pub fn put_event(page: &mut TextBuffer, script: &UserScript, event: Event) {
    page.object(&script.names, event.thread);
    page.put(b" ");
    page.count(event.number);
    page.put(b": ");
    page.escaped(entry_text(script, event.thread, event.number));
}

/// Appends an entry with its text in the script, and its answers.
fn put_entry<P: Progress>(
    page: &mut TextBuffer,
    findings: &Findings<'_, P>,
    entry: &AnsweredEntry,
) {
    put_event(page, findings.script, entry.event);
    page.put(b" ->");
    let mut between = " ";
    for answer in entry.answers.iter() {
        page.put(between.as_bytes());
        page.put(answer.text.as_slice());
        between = " | ";
    }
    if let Some(why) = entry.unanswered {
        page.put(b" (");
        page.put(why.text().as_bytes());
        page.put(b")");
    }
    page.put(b"\n");
}

/// Appends a clause of the verdict, after a semicolon unless it is the first.
fn put_clause(page: &mut TextBuffer, is_first: bool, text: &str) {
    if !is_first {
        page.put(b"; ");
    }
    page.put(text.as_bytes());
}

/// Appends the questions with this result, a clause for each.
fn put_lines<P: Progress>(
    page: &mut TextBuffer,
    report: &Report<'_, P>,
    outcome: Outcome,
    is_first: bool,
    end: &str,
) {
    let mut is_first = is_first;
    for judged in report.judged.iter() {
        if judged.outcome == outcome {
            put_clause(page, is_first, "question at line ");
            page.number(judged.line.line);
            page.put(end.as_bytes());
            is_first = false;
        }
    }
}

/// Appends the threads of all stuck users, in the order of the users.
fn put_stuck_threads<P: Progress>(page: &mut TextBuffer, findings: &Findings<'_, P>) {
    for (user, list) in findings.script.users.lists().iter().enumerate() {
        if findings.is_stuck(user) {
            page.put(b" ");
            page.word(&Token::Name(list.thread));
        }
    }
}

/// Appends the verdict if something fails.
fn put_failure<P: Progress>(page: &mut TextBuffer, report: &Report<'_, P>) {
    page.put(b"FAILS: ");
    let mut is_first = true;
    if report.findings.has_ending(Ending::Deadlock) {
        put_clause(page, is_first, Ending::Deadlock.text());
        is_first = false;
    }
    if report.findings.has_ending(Ending::EntriesLeft) {
        put_clause(page, is_first, Ending::EntriesLeft.text());
        is_first = false;
    }
    if !report.findings.stuck.is_empty() {
        put_clause(page, is_first, "stuck");
        put_stuck_threads(page, &report.findings);
        is_first = false;
    }
    put_lines(page, report, Outcome::Fails, is_first, "");
}

/// Appends how many of the questions hold, if there are any.
fn put_counts<P: Progress>(page: &mut TextBuffer, report: &Report<'_, P>, end: &str) {
    if !report.judged.is_empty() {
        page.put(b"; ");
        page.count(report.count_held());
        page.put(b" of ");
        page.count(report.judged.len());
        page.put(b" questions hold");
        page.put(end.as_bytes());
    }
}

/// Appends the verdict, without a newline.
pub fn put_verdict<P: Progress>(page: &mut TextBuffer, report: &Report<'_, P>) {
    match report.explored() {
        Explored::Fails => put_failure(page, report),
        Explored::Holds => {
            page.put(b"no deadlock");
            put_counts(page, report, "");
        }
        Explored::Stopped => {
            page.put(b"stopped: no deadlock so far");
            put_counts(page, report, " so far");
            put_lines(page, report, Outcome::NotSeen, false, " not seen so far");
        }
    }
}

/// Appends all kinds of ends that are all done, or all others.
fn put_ends<P: Progress>(
    page: &mut TextBuffer,
    findings: &Findings<'_, P>,
    wanted: bool,
) -> Result<(), LabFault> {
    for index in 0..findings.ends.kinds().len() {
        let Some(kind) = findings.kind(index) else {
            break;
        };
        let is_done = findings.ending(kind.end) == Ending::AllDone;
        if is_done == wanted {
            put_end(page, findings, "", &kind)?;
        }
    }
    Ok(())
}

/// Appends all users that are stuck.
fn put_all_stuck<P: Progress>(
    page: &mut TextBuffer,
    findings: &Findings<'_, P>,
) -> Result<(), LabFault> {
    for (index, stuck) in findings.stuck.iter().enumerate() {
        put_stuck(page, findings, "", index.saturating_add(1), stuck)?;
    }
    Ok(())
}

/// Appends all questions that hold, or all others.
fn put_questions<P: Progress>(
    page: &mut TextBuffer,
    report: &Report<'_, P>,
    wanted: bool,
) -> Result<(), LabFault> {
    for judged in report.judged.iter() {
        if judged.outcome.holds() == wanted {
            put_question(page, &report.findings, "", judged)?;
        }
    }
    Ok(())
}

/// Appends all entries, in the order of users and entries.
fn put_entries<P: Progress>(page: &mut TextBuffer, report: &Report<'_, P>) {
    for entry in report.entries.iter() {
        put_entry(page, &report.findings, entry);
    }
}

/// Writes the report as text: failures first, and the verdict last.
pub fn write_text<P: Progress, W: Write>(
    to: &mut W,
    report: &Report<'_, P>,
) -> Result<(), LabFault> {
    let mut page = TextBuffer::new(report.findings.alloc)?;
    put_head(&mut page, report);
    put_ends(&mut page, &report.findings, false)?;
    put_all_stuck(&mut page, &report.findings)?;
    put_questions(&mut page, report, false)?;
    page.write(to)?;
    put_ends(&mut page, &report.findings, true)?;
    put_entries(&mut page, report);
    put_questions(&mut page, report, true)?;
    put_verdict(&mut page, report);
    page.put(b"\n");
    page.write(to)
}
