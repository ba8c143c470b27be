//! All orders of a script of users.
ghost use Rattle.std.specs.Prelude.{◌≡◌, ◌⊎◌, IfOk};
ghost use Rattle.mcs_c.specs.Handing.{IsRefused};
ghost use Rattle.mcs_c.specs.Explores.{Explores, IsExplored, explore_fault_ending, explored_ending};

use crate::checks::lab_ending;
use crate::output::{Ending, Handed, McsEnd, NO_MEMORY};
use mcs_explore_questions::ExploreFault;
use mcs_explore_report::{Explored, Output, Saves, UserScript, Wanted, explore_script};
use mcs_lab_check::LabFault;
use mcs_sim::Source;
use mcs_types::OutOfMemory;
use std::alloc::Global;
use std::io::Write;

/// The number of a question to all orders that is refused.
const QUESTION: u64 = 11;

/// The number of a line of a program that is refused.
const PROGRAM: u64 = 12;

/// Keeps no script.
#[derive(Drop)]
pub(crate) struct Nowhere;

impl Saves for Nowhere {
    fn wants(&self) -> bool {
        false
    }

    fn save(
        &mut self,
        _alloc: Global,
        _script: &UserScript,
        _name: &str,
        _text: &[u8],
    ) -> Result<(), LabFault> {
        Ok(())
    }
}

/// Returns how a call ends after this result of a search.
fn explored_ending(explored: Explored) -> Ending
    ensures { result ≡ explored_ending explored }
{
    match explored {
        Explored::Holds => Ending::of_status(0),
        Explored::Fails => Ending::of_status(1),
        Explored::Stopped => Ending::of_status(3),
    }
}

/// Returns how a call ends if a script cannot be explored to the end.
fn fault_ending(fault: &ExploreFault) -> Ending
    ensures { result ≡ explore_fault_ending fault.now }
{
    match fault {
        ExploreFault::Lab(fault) => lab_ending(*fault),
        ExploreFault::Question { line, .. } => Ending::of_line(*line, QUESTION),
        ExploreFault::Program { line, .. } => Ending::of_line(*line, PROGRAM),
    }
}

/// Returns a line that says why a script is not explored to the end, and how the C call ends.
fn refuse(alloc: Global, fault: &ExploreFault) -> Result<Handed, OutOfMemory>
    ensures ends { IfOk result (λ h. h.ending ≡ explore_fault_ending fault.now) }
    ensures granted { IfOk result (λ h. h.ending.status ≡ 6 → ⊥) }
{
    let ending = fault_ending(fault).granted()?;
    let mut text = Vec::new(alloc);
    match writeln!(text, "{fault}") {
        Ok(()) => Ok(Handed { text, ending }),
        Err(_) => Err(OutOfMemory),
    }
}

/// Keeps scripts as one text: before each a line `== NAME`, as no line of a script begins.
#[derive(Drop)]
pub(crate) struct Kept {
    text: Vec<u8>,
}

impl Kept {
    /// Returns a text that has no script.
    pub(crate) fn new(alloc: Global) -> Kept {
        Kept {
            text: Vec::new(alloc),
        }
    }

    /// Adds the scripts after a report.
    pub(crate) fn add_to(&self, report: Handed) -> Result<Handed, OutOfMemory>
        ensures { IfOk result (λ h. h.ending ≡ report.ending) }
    {
        let Handed { text, ending } = report;
        let mut text = text;
        text.extend_from_slice(&self.text)?;
        Ok(Handed { text, ending })
    }
}

impl Saves for Kept {
    fn wants(&self) -> bool {
        true
    }

    fn save(
        &mut self,
        _alloc: Global,
        _script: &UserScript,
        name: &str,
        text: &[u8],
    ) -> Result<(), LabFault> {
        self.text.extend_from_slice(b"== ")?;
        self.text.extend_from_slice(name.as_bytes())?;
        self.text.extend_from_slice(b"\n")?;
        self.text.extend_from_slice(text)?;
        Ok(())
    }
}

/// Searches all orders of a script, up to `states` states, and returns the report, or why there is
/// none, and how the C call ends.
pub(crate) fn explore_text<S: Saves>(
    alloc: Global,
    script: &[u8],
    states: u64,
    saves: &mut S,
) -> Result<Handed, OutOfMemory>
    ensures { IfOk result (λ h. IsExplored script.now h.ending) }
{
    let mut text = Vec::new(alloc);
    let wanted = Wanted {
        states: states as usize,
        depth: usize::MAX,
        is_exact: false,
    };
    let output = Output {
        with_answers: false,
        is_json: false,
    };
    let mut source = Source::new(script);
    match explore_script(alloc, &mut source, &mut text, wanted, output, saves) {
        Ok(explored) => Ok(Handed {
            text,
            ending: explored_ending(explored),
        }),
        Err(fault) => refuse(alloc, &fault),
    }
}

/// Searches as `explore_text` does, and appends the scripts of the findings to the report.
fn search_text(alloc: Global, script: &[u8], states: u64) -> Result<Handed, OutOfMemory>
    ensures { IfOk result (λ h. IsExplored script.now h.ending) }
{
    let mut kept = Kept::new(alloc);
    let report = explore_text(alloc, script, states, &mut kept)?;
    kept.add_to(report)
}

/// Searches all orders of the users of a script, up to `states` states, and writes as much of the
/// report as fits. Returns 0 if all questions hold, 1 if something fails, and 3 if the budget ended
/// the search and nothing failed so far; 2 if a line is refused and 5 if the book is full, and the
/// text says why; 6 if an allocation fails, and nothing is written.
#[unsafe(no_mangle)]
pub extern "C" fn mcs_explore(
    alloc: Global,
    script: &[u8],
    states: u64,
    out: &mut [u8],
    end: &mut McsEnd,
) -> u32
    ensures { IsRefused result out.old out.new end.old end.new
        ⊎ Explores script.now result out.old out.new end.new }
{
    match explore_text(alloc, script, states, &mut Nowhere) {
        Ok(handed) => handed.hand_over(out, end),
        Err(OutOfMemory) => NO_MEMORY,
    }
}

/// Searches as `mcs_explore` does, and appends to the report the shortest scripts to each kind of
/// end, to stuck users and to what a question asks, each after a line `== NAME`.
#[unsafe(no_mangle)]
pub extern "C" fn mcs_search(
    alloc: Global,
    script: &[u8],
    states: u64,
    out: &mut [u8],
    end: &mut McsEnd,
) -> u32
    ensures { IsRefused result out.old out.new end.old end.new
        ⊎ Explores script.now result out.old out.new end.new }
{
    match search_text(alloc, script, states) {
        Ok(handed) => handed.hand_over(out, end),
        Err(OutOfMemory) => NO_MEMORY,
    }
}
