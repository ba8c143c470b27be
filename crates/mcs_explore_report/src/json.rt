//! The report of a search as one document of JSON.
use crate::endings::is_idle;
use crate::ends::Standing;
use crate::findings::{AnsweredEntry, Findings, Judged, KindOfEnd, entry_text};
use crate::frontier::count_of;
use crate::header::rule_set;
use crate::judgement::Sighting;
use crate::report::Report;
use crate::saver::ScriptName;
use crate::slots::Origin;
use crate::stuck_users::{StuckUsers, seen_at};
use crate::text::put_verdict;
use crate::watcher::Progress;
use mcs_explore_script::AskedLine;
use mcs_lab_check::{LabFault, Labels};
use mcs_lab_inspect::{KINDS, NamesMember, TextBuffer};
use mcs_text::Token;
use mcs_types::{ObjId, Status};
use std::alloc::Global;
use std::io::Write;

/// Appends the beginning of an object: a thread, and its name where it has one.
fn put_thread(page: &mut TextBuffer, names: &Labels, thread: ObjId) {
    page.put(b"{\"thread\":");
    page.quoted_word(&Token::Name(thread));
    page.name_member(names, thread);
}

/// Returns the word for the status of a user in an end.
fn status_text(status: Option<Status>) -> &'static str {
    match status {
        Some(Status::Queued(_) | Status::OnReply(_)) => "waits",
        Some(Status::Running) => "running",
        Some(Status::Restart) => "restart",
        Some(Status::Inactive) => "inactive",
        Some(Status::Closed) | None => "closed",
    }
}

/// Appends what a user waits in or for as a member, if it waits.
fn put_waits(page: &mut TextBuffer, names: &Labels, status: Option<Status>) {
    match status {
        Some(Status::Queued(queue)) => {
            page.key("in");
            page.put(b"\"");
            page.queue(names, queue);
            page.put(b"\"");
        }
        Some(Status::OnReply(reply)) => {
            page.key("in");
            page.put(b"\"");
            page.object(names, reply);
            page.put(b"\"");
        }
        Some(Status::Running | Status::Restart | Status::Inactive | Status::Closed) | None => {}
    }
}

/// Appends the slot that names an object as a member, if a user made it.
fn put_origin(page: &mut TextBuffer, origin: Origin) {
    match origin {
        Origin::Boot | Origin::NoSlot => {}
        Origin::Slot(slot) => {
            page.key("slot");
            page.put(b"{\"cnode\":");
            page.quoted_word(&Token::Name(slot.cnode));
            page.count_member("index", slot.index as usize);
            page.put(b"}");
        }
    }
}

/// Appends a user that is not done at an end, as a JSON object.
fn put_standing<P: Progress>(
    page: &mut TextBuffer,
    findings: &Findings<'_, P>,
    standing: &Standing,
    origin: Origin,
) {
    let names = &findings.script.names;
    let number = standing.entry();
    put_thread(page, names, standing.thread);
    page.text_member("status", status_text(standing.status).as_bytes());
    page.count_member("entry", number);
    page.text_member("text", entry_text(findings.script, standing.thread, number));
    page.flag_member("left", standing.has_entries);
    page.flag_member("idle", is_idle(&findings.script.asked, standing));
    put_waits(page, names, standing.status);
    put_origin(page, origin);
    page.put(b"}");
}

/// Appends the name of a script as a member.
fn put_script(page: &mut TextBuffer, alloc: Global, name: ScriptName) {
    page.key("script");
    page.put(b"\"");
    page.made(name.file_name(alloc));
    page.put(b"\"");
}

/// Appends the lines of steps of a script as a list.
fn put_lines(page: &mut TextBuffer, script: &[u8]) {
    let mut is_first = true;
    page.put(b"[");
    for line in script.split(|byte| *byte == b'\n') {
        if line.first().is_some_and(|byte| byte.is_ascii_digit()) {
            page.between(is_first);
            page.quoted(line);
            is_first = false;
        }
    }
    page.put(b"]");
}

/// Appends as a member the entry that is repeated after its answer on the way to what is seen, if
/// any.
fn put_again<P: Progress>(
    page: &mut TextBuffer,
    findings: &Findings<'_, P>,
    seen: Sighting,
) -> Result<(), LabFault> {
    if let Some(event) = findings.given_again(seen)? {
        page.key("again");
        put_thread(page, &findings.script.names, event.thread);
        page.count_member("entry", event.number);
        page.put(b"}");
    }
    Ok(())
}

/// Appends the script of what is seen and its number of turns as the last members of an object.
fn put_steps<P: Progress>(
    page: &mut TextBuffer,
    report: &Report<'_, P>,
    name: ScriptName,
    seen: Sighting,
) -> Result<(), LabFault> {
    let script = report.script_of(b"", seen)?;
    put_again(page, &report.findings, seen)?;
    put_script(page, report.findings.alloc, name);
    page.key("steps");
    put_lines(page, &script);
    page.put(b"}");
    Ok(())
}

/// Appends a kind of end.
fn put_end<P: Progress>(
    page: &mut TextBuffer,
    report: &Report<'_, P>,
    kind: &KindOfEnd<'_>,
) -> Result<(), LabFault> {
    let findings = &report.findings;
    let end = kind.end;
    page.put(b"{\"number\":");
    page.count(kind.number);
    page.text_member("kind", findings.ending(end).text().as_bytes());
    page.count_member("count", end.count);
    page.key("users");
    page.put(b"[");
    for (place, standing) in end.standing.iter().enumerate() {
        page.between(place == 0);
        put_standing(page, findings, standing, kind.origin(place));
    }
    page.put(b"]");
    put_steps(
        page,
        report,
        ScriptName::End(kind.number),
        seen_at(end.place),
    )
}

/// Appends all kinds of ends as a member, and writes each of them.
fn put_ends<P: Progress, W: Write>(
    to: &mut W,
    page: &mut TextBuffer,
    report: &Report<'_, P>,
) -> Result<(), LabFault> {
    page.key("kinds");
    page.put(b"[");
    for index in 0..report.findings.ends.kinds().len() {
        let Some(kind) = report.findings.kind(index) else {
            break;
        };
        page.between(index == 0);
        put_end(page, report, &kind)?;
        page.write(to)?;
    }
    page.put(b"]");
    Ok(())
}

/// Appends users that are stuck from the same state on.
fn put_stuck<P: Progress>(
    page: &mut TextBuffer,
    report: &Report<'_, P>,
    number: usize,
    stuck: &StuckUsers,
) -> Result<(), LabFault> {
    let script = report.findings.script;
    let mut is_first = true;
    page.put(b"{\"number\":");
    page.count(number);
    page.key("users");
    page.put(b"[");
    for user in stuck.users.iter() {
        if let Some(list) = script.users.at(*user) {
            page.between(is_first);
            put_thread(page, &script.names, list.thread);
            page.put(b"}");
            is_first = false;
        }
    }
    page.put(b"]");
    put_steps(
        page,
        report,
        ScriptName::Stuck(number),
        seen_at(stuck.place),
    )
}

/// Appends the member that lists all users that are stuck.
fn put_all_stuck<P: Progress>(
    page: &mut TextBuffer,
    report: &Report<'_, P>,
) -> Result<(), LabFault> {
    page.key("stuck");
    page.put(b"[");
    for (index, stuck) in report.findings.stuck.iter().enumerate() {
        page.between(index == 0);
        put_stuck(page, report, index.saturating_add(1), stuck)?;
    }
    page.put(b"]");
    Ok(())
}

/// Appends the answers of an entry as a member.
fn put_answers<P: Progress>(
    page: &mut TextBuffer,
    findings: &Findings<'_, P>,
    entry: &AnsweredEntry,
) {
    page.key("answers");
    page.put(b"[");
    for (index, answer) in entry.answers.iter().enumerate() {
        let name = ScriptName::Answer {
            event: entry.event,
            number: index.saturating_add(1),
        };
        page.between(index == 0);
        page.put(b"{\"answer\":");
        page.quoted(answer.text.as_slice());
        page.count_member("steps", findings.steps(answer.seen));
        put_script(page, findings.alloc, name);
        page.put(b"}");
    }
    page.put(b"]");
}

/// Appends an entry.
fn put_entry<P: Progress>(
    page: &mut TextBuffer,
    findings: &Findings<'_, P>,
    entry: &AnsweredEntry,
) {
    let event = entry.event;
    put_thread(page, &findings.script.names, event.thread);
    page.count_member("entry", event.number);
    let text = entry_text(findings.script, event.thread, event.number);
    page.text_member("text", text);
    if let Some(why) = entry.unanswered {
        page.text_member("unanswered", why.text().as_bytes());
    }
    put_answers(page, findings, entry);
    page.put(b"}");
}

/// Appends all entries as a member.
fn put_entries<P: Progress>(page: &mut TextBuffer, report: &Report<'_, P>) {
    page.key("entries");
    page.put(b"[");
    for (index, entry) in report.entries.iter().enumerate() {
        page.between(index == 0);
        put_entry(page, &report.findings, entry);
    }
    page.put(b"]");
}

/// Appends a question.
fn put_question<P: Progress>(
    page: &mut TextBuffer,
    findings: &Findings<'_, P>,
    judged: &Judged<'_>,
) -> Result<(), LabFault> {
    page.put(b"{\"line\":");
    page.number(judged.line.line);
    page.text_member("text", judged.line.text.as_slice());
    page.text_member("verdict", judged.outcome.text().as_bytes());
    if let Some(why) = judged.outcome.since() {
        page.text_member("since", why.text().as_bytes());
    }
    if let Some(seen) = judged.seen {
        page.count_member("steps", findings.steps(seen));
        put_again(page, findings, seen)?;
        put_script(page, findings.alloc, ScriptName::Question(judged.line.line));
    }
    page.put(b"}");
    Ok(())
}

/// Appends all questions as a member.
fn put_questions<P: Progress>(
    page: &mut TextBuffer,
    report: &Report<'_, P>,
) -> Result<(), LabFault> {
    page.key("questions");
    page.put(b"[");
    for (index, judged) in report.judged.iter().enumerate() {
        page.between(index == 0);
        put_question(page, &report.findings, judged)?;
    }
    page.put(b"]");
    Ok(())
}

/// Appends the rules of users that the lines of a script set as a member, if there are some.
fn put_rules_member(page: &mut TextBuffer, asked: &[AskedLine]) {
    if !asked.iter().any(|line| rule_set(line).is_some()) {
        return;
    }
    page.key("rules");
    page.put(b"[");
    for (index, rule) in asked.iter().filter_map(rule_set).enumerate() {
        page.between(index == 0);
        page.quoted(rule.as_bytes());
    }
    page.put(b"]");
}

/// Appends how much was found as the first members.
fn put_counts<P: Progress>(page: &mut TextBuffer, findings: &Findings<'_, P>) {
    let orders = findings.orders;
    page.put(b"{\"states\":");
    page.count(orders.states());
    page.count_member("turns", orders.turns());
    page.count_member("depth", orders.deepest());
    page.count_member("ends", count_of(findings.ends.kinds()));
    page.flag_member("whole", orders.is_whole());
    put_rules_member(page, &findings.script.asked);
}

/// Appends the names of the objects of the boot as a member, if there are some.
fn put_names<P: Progress>(page: &mut TextBuffer, findings: &Findings<'_, P>) {
    let script = findings.script;
    let mut member = NamesMember::new(&script.names, false);
    for kind in KINDS {
        member.put_kind(page, *kind, script.boot.made(*kind));
    }
    member.end(page);
}

/// Appends the verdict as the last members, in a word and as the text has it.
fn put_verdicts<P: Progress>(
    page: &mut TextBuffer,
    report: &Report<'_, P>,
) -> Result<(), LabFault> {
    let mut verdict = TextBuffer::new(report.findings.alloc)?;
    put_verdict(&mut verdict, report);
    page.text_member("verdict", report.explored().text().as_bytes());
    page.text_member("told", verdict.text()?);
    page.put(b"}\n");
    Ok(())
}

/// Writes the report as one document of JSON.
pub fn write_json<P: Progress, W: Write>(
    to: &mut W,
    report: &Report<'_, P>,
) -> Result<(), LabFault> {
    let mut page = TextBuffer::new(report.findings.alloc)?;
    put_counts(&mut page, &report.findings);
    put_ends(to, &mut page, report)?;
    put_all_stuck(&mut page, report)?;
    put_entries(&mut page, report);
    put_questions(&mut page, report)?;
    put_names(&mut page, &report.findings);
    put_verdicts(&mut page, report)?;
    page.write(to)
}
