//! Pages, texts and scripts with a flaw, and similar ones without.
use crate::forms::is_sequence;
use crate::places::is_clear;
use mcs_lab_check::{LabFault, check};
use mcs_lab_render::{Asked, Format, draw_script};
use mcs_sim::Source;
use std::alloc::Global;
use std::io::Write;

/// Pages: the baselines of a text and of another below it, and the position of an arrow's tip.
const PAGES: &[(u64, u64, u64)] = &[
    (43, 55, 106),
    (43, 54, 106),
    (42, 55, 106),
    (42, 55, 100),
    (24, 55, 106),
];

/// Writes for each page whether its texts touch nothing.
fn tell_pages<W: Write>(alloc: Global, to: &mut W) -> Result<(), LabFault> {
    for &(height, below, tip) in PAGES {
        let page = format!(in alloc;
            "<text class=\"note\" x=\"106\" y=\"{height}\">waits</text>\n<text class=\"mark\" x=\"106\" y=\"{below}\">bound</text>\n<path class=\"arrow word\" d=\"M20,5H40V20L{tip},30\">\n"
        )?;
        let clear = is_clear(alloc, page.as_str())?;
        writeln!(
            to,
            "# texts at {height} and {below}, tip at {tip}: clear {clear}"
        )?;
    }
    Ok(())
}

/// Second lines of sequence diagrams, some of them malformed.
const LINES: &[&str] = &[
    "    participant t1 as client (t1)",
    "    participant t1",
    "    t1->>t2: m0 call fs 10(4096) badge 7",
    "    t1-->>t2: fs.reply answers 0(#59; 5)",
    "    t1-)t2: irq heard: 3",
    "    t1=>t2: irq heard: 3",
    "    t1->>t2: one; two",
    "    Note over t1: on s1",
    "    Note over t1:",
];

/// Writes for each line whether it is well-formed.
fn tell_lines<W: Write>(alloc: Global, to: &mut W) -> Result<(), LabFault> {
    for &line in LINES {
        let text = format!(in alloc; "sequenceDiagram\n{line}\n")?;
        let has_form = is_sequence(text.as_str());
        writeln!(to, "# {line}: form {has_form}")?;
    }
    Ok(())
}

/// Scripts with names.
const NAMES: &[&str] = &[
    "#@ t1 client\ncores 1\n",
    "#@ t1 the client\ncores 1\n",
    "cores 1\n#@ q1 client\n",
    "cores 1\n#@ t01 client\nnonsense\n",
    "cores 1\n#@ t1 a/b",
];

/// Writes the fault, if there is one.
fn tell_fault<W: Write>(to: &mut W, verb: &str, fault: Option<LabFault>) -> Result<(), LabFault> {
    match fault {
        Some(fault) => writeln!(to, "# {verb}: {fault}")?,
        None => writeln!(to, "# {verb}: no fault")?,
    }
    Ok(())
}

/// Writes the faults of each script with names, for drawing and for checking.
fn tell_names<W: Write>(alloc: Global, to: &mut W) -> Result<(), LabFault> {
    for &script in NAMES {
        let mut source = Source::new(script.as_bytes());
        let asked = Asked::whole(Format::Svg);
        let drawn = draw_script(alloc, &mut source, &mut Vec::new(alloc), &asked);
        tell_fault(to, "drawn", drawn.err())?;
        let mut source = Source::new(script.as_bytes());
        let checked = check(alloc, &mut source, Vec::new(alloc));
        tell_fault(to, "checked", checked.err())?;
    }
    Ok(())
}

/// Writes what is found for all pages, lines and scripts.
pub fn tell_flaws<W: Write>(alloc: Global, to: &mut W) -> Result<(), LabFault> {
    tell_pages(alloc, to)?;
    tell_lines(alloc, to)?;
    tell_names(alloc, to)
}
