//! The first line of a report: the rules of users, and how states were distinguished.
use crate::frontier::count_of;
use crate::modes::{Mode, make_objects, mode_of};
use crate::references::{names_later, names_message};
use crate::report::Report;
use crate::watcher::{Progress, Stop};
use mcs_explore_questions::{Asked, Rule};
use mcs_explore_script::{AskedLine, UserScript};
use mcs_lab_inspect::TextBuffer;
use mcs_turns::Schedule;

/// Returns the number of the first line that names a message.
fn line_of_message(script: &UserScript) -> u64 {
    for line in script.asked.iter() {
        if names_message(&line.asked) {
            return line.line;
        }
    }
    0
}

/// Returns the number of the first line that names an object which the boot did not make.
fn line_of_later(script: &UserScript) -> u64 {
    for line in script.asked.iter() {
        if names_later(&script.boot, &line.asked) {
            return line.line;
        }
    }
    0
}

/// Appends which line makes the search distinguish something, since it names one.
fn put_apart(page: &mut TextBuffer, what: &str, line: u64) {
    page.put(b"; ");
    page.put(what.as_bytes());
    page.put(b" are told apart: line ");
    page.number(line);
    page.put(b" names one");
}

/// Appends how states were distinguished, unless it is by all but message numbers.
fn put_mode(page: &mut TextBuffer, script: &UserScript, is_exact: bool) {
    if is_exact {
        return page.put(b"; exact");
    }
    match mode_of(&script.boot, &script.users, &script.asked, is_exact) {
        Mode::Canonical => page.put(b"; users make objects: merged by slots, tested only"),
        Mode::Proved { numbered: true } => {
            put_apart(page, "numbers of messages", line_of_message(script))
        }
        Mode::Proved { numbered: false } => {
            if make_objects(&script.users) {
                put_apart(page, "objects of users", line_of_later(script));
            }
        }
    }
}

/// Returns a rule as a line of a script sets it.
fn rule_text(rule: Rule) -> &'static str {
    match rule {
        Rule::By(Schedule::Serial) => "schedule serial",
        Rule::By(Schedule::Equal) => "schedule equal",
        Rule::By(Schedule::Any) => "schedule any",
        Rule::ResumedGoesOn => "resumed goes on",
    }
}

/// Returns the rule that a line sets, if any.
pub fn rule_set(line: &AskedLine) -> Option<&'static str> {
    match &line.asked {
        Asked::Ruled { rule } => Some(rule_text(*rule)),
        Asked::Idle { .. }
        | Asked::Live { .. }
        | Asked::Answer { .. }
        | Asked::AnswerIf { .. }
        | Asked::Some { .. }
        | Asked::Never { .. }
        | Asked::Apart { .. }
        | Asked::Before { .. }
        | Asked::Again { .. } => None,
    }
}

/// Appends the rules that the lines of a script set for users.
fn put_rules(page: &mut TextBuffer, asked: &[AskedLine]) {
    for rule in asked.iter().filter_map(rule_set) {
        page.put(b"; ");
        page.put(rule.as_bytes());
    }
}

/// Appends why a search was stopped; nothing if a budget of states or turns ended it.
fn put_stop(page: &mut TextBuffer, stop: Option<Stop>) {
    match stop {
        Some(Stop::Clock) => page.put(b"by the clock "),
        Some(Stop::Memory) => page.put(b"for lack of memory "),
        Some(Stop::MemoryLimit) => page.put(b"by the memory limit "),
        None => {}
    }
}

/// Appends the first line: how much was found, whether the search was whole, and by which rules.
pub fn put_head<P: Progress>(page: &mut TextBuffer, report: &Report<'_, P>) {
    let orders = report.findings.orders;
    if !orders.is_whole() {
        page.put(b"stopped ");
        put_stop(page, orders.watch().stop());
        page.put(b"at ");
    }
    page.count(orders.states());
    page.put(b" states, ");
    page.count(orders.turns());
    page.put(b" turns, depth ");
    page.count(orders.deepest());
    page.put(b", ");
    page.count(count_of(report.findings.ends.kinds()));
    page.put(b" ends");
    if orders.is_whole() {
        page.put(b", whole");
    }
    put_rules(page, &report.findings.script.asked);
    put_mode(page, report.findings.script, report.is_exact);
    page.put(b"\n");
}
