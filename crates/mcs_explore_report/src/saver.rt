//! Saves scripts: for each kind of end, for stuck users, questions and answers.
ghost use Rattle.mcs_explore_report.specs.Scripts.{IsRunScript};

use crate::judgement::Sighting;
use crate::report::Report;
use crate::stuck_users::seen_at;
use crate::text::{put_answer, put_end, put_question, put_stuck};
use crate::watcher::Progress;
use mcs_explore_questions::Event;
use mcs_explore_script::UserScript;
use mcs_lab_check::LabFault;
use mcs_lab_inspect::TextBuffer;
use std::alloc::{AllocError, Global};

/// The first line of each saved script.
pub const MARK: &[u8] = b"# by mcslab explore\n";

/// How the names of saved scripts begin.
const BEGINNINGS: &[&str] = &["end", "stuck", "question", "answer-"];

const ENDING: &str = ".mcs";

/// Returns whether a file name is one for a saved script.
pub fn is_script_name(name: &str) -> bool {
    name.ends_with(ENDING) && BEGINNINGS.iter().any(|start| name.starts_with(*start))
}

/// A place where scripts are saved.
pub trait Saves {
    /// Returns whether scripts are saved at all.
    fn wants(&self) -> bool;

    /// Saves the script of a run under a name.
    fn save(
        &mut self,
        alloc: Global,
        script: &UserScript,
        name: &str,
        text: &[u8],
    ) -> Result<(), LabFault>
        requires { IsRunScript script.now text.now };
}

/// What a saved script shows, which gives it its name.
#[derive(Clone, Copy)]
pub enum ScriptName {
    /// A kind of end, by its number, counted from 1.
    End(usize),
    /// Users that are stuck, by their number, counted from 1.
    Stuck(usize),
    /// A question, by its line.
    Question(u64),
    /// An answer of an entry, by its number, counted from 1.
    Answer { event: Event, number: usize },
}

impl ScriptName {
    /// Returns the name of the file. `AllocError` if an allocation fails.
    pub fn file_name(self, alloc: Global) -> Result<String, AllocError> {
        match self {
            ScriptName::End(number) => format!(in alloc; "end{number}.mcs"),
            ScriptName::Stuck(number) => format!(in alloc; "stuck{number}.mcs"),
            ScriptName::Question(line) => format!(in alloc; "question{line}.mcs"),
            ScriptName::Answer { event, number } => {
                let serial = event.thread.serial;
                let entry = event.number;
                format!(in alloc; "answer-t{serial}-{entry}-{number}.mcs")
            }
        }
    }
}

/// Returns a comment that has only the first line of saved scripts. `AllocError` if an allocation
/// fails.
fn new_comment(alloc: Global) -> Result<TextBuffer, AllocError> {
    let mut comment = TextBuffer::new(alloc)?;
    comment.put(MARK);
    Ok(comment)
}

/// Saves the script to what is seen, after a comment.
fn save<P: Progress, S: Saves>(
    report: &Report<'_, P>,
    saves: &mut S,
    name: ScriptName,
    comment: &TextBuffer,
    seen: Sighting,
) -> Result<(), LabFault> {
    let alloc = report.findings.alloc;
    let text = report.script_of(comment.text()?, seen)?;
    let name = name.file_name(alloc)?;
    saves.save(alloc, report.findings.script, name.as_str(), &text)
}

/// Saves the scripts of all kinds of ends.
fn save_ends<P: Progress, S: Saves>(report: &Report<'_, P>, saves: &mut S) -> Result<(), LabFault> {
    let findings = &report.findings;
    for index in 0..findings.ends.kinds().len() {
        let Some(kind) = findings.kind(index) else {
            break;
        };
        let mut comment = new_comment(findings.alloc)?;
        put_end(&mut comment, findings, "# ", &kind)?;
        let name = ScriptName::End(kind.number);
        let end = kind.end;
        save(report, saves, name, &comment, seen_at(end.place))?;
    }
    Ok(())
}

/// Saves the scripts of stuck users.
fn save_stuck<P: Progress, S: Saves>(
    report: &Report<'_, P>,
    saves: &mut S,
) -> Result<(), LabFault> {
    let findings = &report.findings;
    for (index, stuck) in findings.stuck.iter().enumerate() {
        let number = index.saturating_add(1);
        let mut comment = new_comment(findings.alloc)?;
        put_stuck(&mut comment, findings, "# ", number, stuck)?;
        let name = ScriptName::Stuck(number);
        save(report, saves, name, &comment, seen_at(stuck.place))?;
    }
    Ok(())
}

/// Saves the scripts of all questions for which something is seen.
fn save_questions<P: Progress, S: Saves>(
    report: &Report<'_, P>,
    saves: &mut S,
) -> Result<(), LabFault> {
    let findings = &report.findings;
    for judged in report.judged.iter() {
        if let Some(seen) = judged.seen {
            let mut comment = new_comment(findings.alloc)?;
            put_question(&mut comment, findings, "# ", judged)?;
            let name = ScriptName::Question(judged.line.line);
            save(report, saves, name, &comment, seen)?;
        }
    }
    Ok(())
}

/// Saves the scripts of all answers of all entries.
fn save_answers<P: Progress, S: Saves>(
    report: &Report<'_, P>,
    saves: &mut S,
) -> Result<(), LabFault> {
    let findings = &report.findings;
    for entry in report.entries.iter() {
        let event = entry.event;
        for (index, answer) in entry.answers.iter().enumerate() {
            let number = index.saturating_add(1);
            let mut comment = new_comment(findings.alloc)?;
            put_answer(&mut comment, &findings.script.names, event, answer);
            let name = ScriptName::Answer { event, number };
            save(report, saves, name, &comment, answer.seen)?;
        }
    }
    Ok(())
}

/// Saves all scripts, those of answers only on request.
pub fn save_all<P: Progress, S: Saves>(
    report: &Report<'_, P>,
    saves: &mut S,
    with_answers: bool,
) -> Result<(), LabFault> {
    if !saves.wants() {
        return Ok(());
    }
    save_ends(report, saves)?;
    save_stuck(report, saves)?;
    save_questions(report, saves)?;
    if with_answers {
        save_answers(report, saves)?;
    }
    Ok(())
}
