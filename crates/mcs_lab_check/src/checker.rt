//! Checks the expectations of a script, and writes the verdicts as TAP.
use crate::fault::{LabFault, Reason};
use crate::input::{TakesLines, take_lines};
use crate::judge::Judge;
use crate::last::{Last, LineResult};
use crate::names::Labels;
use crate::tap::{bare, is_plain, put_description, put_quoted};
use crate::text::Text;
use mcs_sim::Source;
use mcs_text::Token;
use mcs_trace::{Line, spell_answer, spell_record};
use std::alloc::Global;
use std::io::{self, Read, Write};

/// The check of a script: a judge, a writer, and how many expectations hold and fail.
#[derive(Drop)]
struct Checker<W> {
    judge: Judge,
    names: Labels,
    spelled: Box<Line>,
    verdict: Text,
    reported: u64,
    failed: u64,
    to: W,
}

/// What a verdict is about.
#[derive(Clone, Copy, PartialEq, Eq)]
enum About {
    Answer,
    Record,
    State,
}

/// Returns the text of a line `#?` or `#@` after its sign.
fn asked(line: &[u8]) -> &[u8] {
    match line {
        [b'#', b'?', b' ', rest @ ..] => rest,
        _ => line,
    }
}

/// What a checker allocates before it reads the first line.
#[derive(Drop)]
struct Parts {
    judge: Judge,
    spelled: Box<Line>,
    verdict: Text,
}

impl Parts {
    /// Returns the parts of a checker that has read nothing. `OutOfMemory` if an allocation fails.
    fn new(alloc: Global) -> Result<Parts, LabFault> {
        Ok(Parts {
            judge: Judge::new(alloc)?,
            spelled: Box::new(alloc, Line::new())?,
            verdict: Text::new(alloc)?,
        })
    }
}

/// Writes why the verdicts end here; nothing if a write failed.
fn put_bail<W: Write>(to: &mut W, fault: LabFault) -> io::Result<()> {
    if fault == LabFault::Write {
        return Ok(());
    }
    let reason = Reason(fault);
    writeln!(to, "Bail out! {reason}")
}

impl<W: Write + Drop> Checker<W> {
    /// Returns the checker before the first line.
    fn new(alloc: Global, parts: Parts, to: W) -> Checker<W> {
        let Parts {
            judge,
            spelled,
            verdict,
        } = parts;
        Checker {
            judge,
            names: Labels::new(alloc),
            spelled,
            verdict,
            reported: 0,
            failed: 0,
            to,
        }
    }

    /// Writes the first line of a verdict.
    fn put_verdict(&mut self, holds: bool, said: &[u8]) -> Result<(), LabFault> {
        self.reported = self.reported.saturating_add(1);
        self.verdict.clear();
        if !holds {
            self.failed = self.failed.saturating_add(1);
            self.verdict.put(b"not ")?;
        }
        self.verdict.put(b"ok ")?;
        self.verdict.word(&Token::Number(self.reported))?;
        self.verdict.put(b" - line ")?;
        self.verdict.word(&Token::Number(self.judge.line()))?;
        self.verdict.put(b": ")?;
        // A line that holds is spelled as in a trace, and most others need no escape: such a line
        // is written at once.
        if holds || is_plain(said) {
            self.verdict.put(said)?;
            self.verdict.put(b"\n")?;
            self.to.write_all(self.verdict.text())?;
            return Ok(());
        }
        self.to.write_all(self.verdict.text())?;
        put_description(&mut self.to, said)?;
        self.to.write_all(b"\n")?;
        Ok(())
    }

    /// Writes the answer of the last step, which was accepted.
    fn put_answer(&mut self) -> io::Result<()> {
        let Some((line, _)) = self.judge.entered() else {
            return self.to.write_all(b" ''\n");
        };
        spell_answer(&mut self.spelled, &line.kept_answer());
        self.to.write_all(b" ")?;
        put_quoted(&mut self.to, &self.names, bare(self.spelled.text()))
    }

    /// Writes the records of the last step, which was accepted.
    fn put_records(&mut self) -> io::Result<()> {
        let Some((line, before)) = self.judge.entered() else {
            return self.to.write_all(b" []\n");
        };
        self.to.write_all(b"\n")?;
        let mut sent = before;
        for i in 0..line.record_count() {
            let Some(fact) = line.kept_record(i) else {
                return Ok(());
            };
            spell_record(&mut self.spelled, sent, &fact);
            if fact.is_sent() {
                sent = sent.saturating_add(1);
            }
            self.to.write_all(b"    - ")?;
            put_quoted(&mut self.to, &self.names, bare(self.spelled.text()))?;
        }
        Ok(())
    }

    /// Writes what was seen instead of what was expected.
    fn put_seen(&mut self, about: About) -> io::Result<()> {
        self.to.write_all(b"  seen:")?;
        match (self.judge.last(), about) {
            (Last::NoStep, _) => self.to.write_all(b" 'no step stands before this line'\n"),
            (Last::Away, About::Answer | About::Record) => {
                self.to.write_all(b" 'the step was skipped'\n")
            }
            (Last::LetIn { .. }, About::Answer) => self.put_answer(),
            (Last::LetIn { .. }, About::Record) => self.put_records(),
            _ => {
                self.to.write_all(b" ")?;
                match bare(self.judge.seen()) {
                    b"" => self.to.write_all(b"'the step was let in'\n"),
                    seen => put_quoted(&mut self.to, &self.names, seen),
                }
            }
        }
    }

    /// Writes after which step it was seen.
    fn put_step(&mut self) -> io::Result<()> {
        let (line, step) = self.judge.step();
        if line == 0 {
            return Ok(());
        }
        write!(self.to, "  line: {line}\n  behind: ")?;
        put_quoted(&mut self.to, &self.names, bare(step))
    }

    /// Writes a verdict; if it fails, also what was expected, what was seen, and after which step.
    fn tell(&mut self, holds: bool, about: About, said: &[u8]) -> Result<(), LabFault> {
        self.put_verdict(holds, said)?;
        if holds {
            return Ok(());
        }
        self.to.write_all(b"  ---\n  wanted: ")?;
        put_quoted(&mut self.to, &self.names, said)?;
        self.put_seen(about)?;
        self.put_step()?;
        self.to.write_all(b"  ...\n")?;
        Ok(())
    }

    /// Writes how many verdicts there were, which TAP calls the plan.
    fn put_plan(&mut self) -> io::Result<()> {
        let reported = self.reported;
        if reported == 0 {
            return self
                .to
                .write_all(b"1..0 # SKIP nothing is said of any step\n");
        }
        writeln!(self.to, "1..{reported}")
    }

    /// Ends the input. Returns whether all expectations hold.
    fn end(&mut self, alloc: Global) -> Result<bool, LabFault> {
        self.judge.end(alloc)?;
        self.put_plan()?;
        Ok(self.failed == 0)
    }
}

impl<W: Write + Drop> TakesLines for Checker<W> {
    fn take_line(&mut self, alloc: Global, line: &[u8]) -> Result<(), LabFault> {
        let said = bare(line);
        match self.judge.take(alloc, line)? {
            LineResult::Step => {}
            LineResult::Nothing => self.names.hear(alloc, self.judge.line(), line)?,
            LineResult::Answer { holds } => self.tell(holds, About::Answer, said)?,
            LineResult::Record { holds } => self.tell(holds, About::Record, said)?,
            LineResult::Asked { holds } => self.tell(holds, About::State, asked(said))?,
            LineResult::NoQuestion => {
                return Err(LabFault::Form {
                    line: self.judge.line(),
                });
            }
        }
        Ok(())
    }

    fn taken(&self) -> u64 {
        self.judge.line()
    }

    fn pause(&mut self) -> Result<(), LabFault> {
        self.to.flush()?;
        Ok(())
    }
}

/// Checks a script, and writes a verdict for each expectation, as TAP, before it waits for more
/// input. Returns whether all hold. A fault, unless of a write, is reported as the last line, `Bail
/// out!`.
pub fn check<R: Read, W: Write + Drop>(
    alloc: Global,
    from: &mut Source<R>,
    mut to: W,
) -> Result<bool, LabFault> {
    let parts = match Parts::new(alloc) {
        Ok(parts) => parts,
        Err(fault) => {
            put_bail(&mut to, fault)?;
            return Err(fault);
        }
    };
    let mut checker = Checker::new(alloc, parts, to);
    let ended = match take_lines(alloc, from, &mut checker) {
        Ok(()) => checker.end(alloc),
        Err(fault) => Err(fault),
    };
    if let Err(fault) = ended {
        put_bail(&mut checker.to, fault)?;
        return Err(fault);
    }
    ended
}
