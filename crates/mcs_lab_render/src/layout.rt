//! Lays out a page: first its rows with texts and arrows, then the heights of the rows and the
//! positions of the lanes.
use crate::labels::{Naming, put_name};
use crate::notes::{FEW, has_note, marked, put_label, put_look, put_lost, put_mark};
use crate::numbers::put_words;
use crate::paper::LOST_TEXT;
use crate::plans::{
    CLEAR, COLUMN, Ends, HEAD, LEAST_WIDTH, Note, NoteKind, Plan, RULE, Row, RowKind, SLOT,
    STEPS_AT, Stroke,
};
use crate::scene::{Scene, place_of};
use crate::steps::Origin;
use crate::texts::{Words, columns, cut};
use mcs_book::Line as BookLine;
use mcs_kernel::EnterFault;
use mcs_lab_diagram::{Arrow, Away, Look, Point, is_dropped};
use mcs_trace::{Line, spell_answer, spell_step};
use mcs_types::{BootLine, CoreId, ObjId, Rec};
use std::alloc::{AllocError, Global};
use std::str;

/// The maximal columns of a text at a lane, of an arrow's text, and of a text in the left margin.
const NOTE_COLUMNS: u64 = 36;

const LABEL_COLUMNS: u64 = 72;

const STEP_COLUMNS: u64 = 48;

/// The minimal distance of two lanes.
const LANE_GAP: u64 = 84;

/// An arrow with one end in a thread without a lane, drawn at the lane of the other end.
#[derive(Drop)]
struct Stub {
    lane: usize,
    kind: NoteKind,
    text: String,
}

/// A step as a script spells it.
#[derive(Clone, Copy)]
struct Entered<'a> {
    core: CoreId,
    thread: ObjId,
    entry: &'a str,
}

/// A page under construction.
#[derive(Drop)]
struct Planner<'a, N> {
    alloc: Global,
    scene: &'a Scene<'a, N>,
    /// The row of each line, from the line before the first shown one on; for a line without a row,
    /// the next row.
    line_rows: Vec<usize>,
    word: Box<Line>,
    words: Words,
    marks: Vec<String>,
    stubs: Vec<Stub>,
    next_arrow: usize,
    next_away: usize,
    plan: Plan,
}

/// Returns the text of the buffer without the newline at its end.
fn spelled(line: &Line) -> &str {
    match str::from_utf8(line.text()) {
        Ok(text) => text.trim_end(),
        Err(_) => "",
    }
}

/// Returns a step's text after its core and thread.
fn entry_part(step: &str) -> &str {
    match step.splitn(3, ' ').nth(2) {
        Some(rest) => rest,
        None => step,
    }
}

/// Appends a step with the name of its thread, and with its core if the machine has several.
fn put_spelled<N: Naming>(
    alloc: Global,
    words: &mut Words,
    scene: &Scene<'_, N>,
    step: Entered<'_>,
) {
    if scene.drawing.book().cores() > 1 {
        words.page.number(step.core.0 as u64);
        words.page.put(b" ");
    }
    put_name(&mut words.page, scene.names, step.thread);
    words.page.put(b" ");
    put_words(alloc, &mut words.page, step.entry);
}

/// Returns the text of a step: from its file, or else as a script spells it.
fn step_text<N: Naming>(
    alloc: Global,
    words: &mut Words,
    scene: &Scene<'_, N>,
    origin: Option<&Origin>,
    step: Entered<'_>,
) -> Result<String, AllocError> {
    match origin {
        Some(origin) if !origin.text.is_empty() => words.page.put(origin.text.as_bytes()),
        _ => put_spelled(alloc, words, scene, step),
    }
    words.take_cut(STEP_COLUMNS)
}

/// Returns whether a record has an arrow.
fn has_arrow(fact: &Rec) -> bool {
    matches!(
        fact,
        Rec::Took { .. } | Rec::Paid { .. } | Rec::Heard { .. }
    )
}

/// Returns why a step was skipped.
fn why_away(why: EnterFault) -> &'static str {
    match why {
        EnterFault::NotRunning => "skipped: it does not run",
        EnterFault::NoContext => "skipped: it holds no context",
        EnterFault::WrongCore => "skipped: its context is of another core",
        _ => "skipped",
    }
}

impl<'a, N: Naming> Planner<'a, N> {
    /// Returns how the thread of a lane looks after a line.
    fn look(&self, number: usize, lane: usize) -> Look {
        match self.plan.threads.get(lane) {
            Some(thread) => self.scene.drawing.look(number, place_of(*thread)),
            None => Look {
                status: None,
                context: None,
            },
        }
    }

    /// The thread, if it has a lane.
    fn with_lane(&self, thread: ObjId) -> Option<ObjId> {
        match self.plan.lane_of(thread) {
            Some(_) => Some(thread),
            None => None,
        }
    }

    /// Adds a note to the current row, in the next slot of its lane.
    fn add_note(
        &mut self,
        row: &mut Row,
        used: &mut usize,
        lane: usize,
        kind: NoteKind,
        text: &str,
    ) -> Result<(), AllocError> {
        let most = match kind {
            NoteKind::State | NoteKind::Mark => NOTE_COLUMNS,
            NoteKind::Label | NoteKind::Lost | NoteKind::Comes(_) | NoteKind::Goes(_) =>
                LABEL_COLUMNS,
        };
        let slot = row.arrows.saturating_add(*used);
        *used = used.saturating_add(1);
        row.slots = row.slots.max(slot.saturating_add(1));
        self.plan.notes.push(Note {
            row: self.plan.rows.len(),
            lane,
            slot,
            kind,
            text: cut(self.alloc, text, most)?,
        })?;
        Ok(())
    }

    /// Adds the states of the threads before the first shown line.
    fn add_start(&mut self) -> Result<(), AllocError> {
        let at = self.plan.before;
        let mut row = Row::new(self.alloc, RowKind::Start, at);
        row.step.push_str(if at == 0 {
            "the boot"
        } else {
            "the lines before"
        })?;
        for lane in 0..self.plan.threads.len() {
            let look = self.look(at, lane);
            put_look(&mut self.words.page, self.scene.names, look);
            let text = self.words.take()?;
            let mut used = 0;
            self.add_note(&mut row, &mut used, lane, NoteKind::State, text.as_str())?;
        }
        self.end_line(row, true)
    }

    /// The row of a line.
    fn row_of_line(&self, line: usize) -> usize {
        let at = line.saturating_sub(self.plan.before);
        self.line_rows.get(at).copied().unwrap_or(0)
    }

    /// Takes the next arrow, that of the next record with one.
    fn take_arrow(&mut self) -> Option<Arrow> {
        let drawing = self.scene.drawing;
        let arrow = drawing.strokes.arrows().get(self.next_arrow).copied();
        self.next_arrow = self.next_arrow.saturating_add(1);
        arrow
    }

    /// Appends the text of an arrow, with at most `most` words of a message.
    fn say(&mut self, arrow: &Arrow, fact: &Rec, most: usize) {
        put_label(
            self.alloc,
            &mut self.words.page,
            self.scene.names,
            self.scene.drawing.book(),
            arrow,
            fact,
            most,
        );
    }

    /// Adds an arrow from one lane to another, or to its own.
    fn add_stroke(
        &mut self,
        row: &mut Row,
        arrow: Arrow,
        fact: &Rec,
        ends: Ends,
    ) -> Result<(), AllocError> {
        self.say(&arrow, fact, FEW);
        let label = self.words.take_cut(LABEL_COLUMNS)?;
        self.say(&arrow, fact, usize::MAX);
        let full = self.words.take()?;
        let here = self.plan.rows.len();
        let from_row = if arrow.from.row == arrow.to.row {
            here
        } else {
            self.row_of_line(arrow.from.row)
        };
        self.plan.strokes.push(Stroke {
            arrow,
            ends,
            from_row,
            row: here,
            slot: row.arrows,
            label,
            full,
        })?;
        row.arrows = row.arrows.saturating_add(1);
        row.slots = row.slots.max(row.arrows);
        Ok(())
    }

    /// Adds an arrow of which one end has no lane: a note beside the lane of the other end names
    /// the thread.
    fn add_stub(
        &mut self,
        arrow: Arrow,
        fact: &Rec,
        lane: usize,
        kind: NoteKind,
    ) -> Result<(), AllocError> {
        let (word, far) = match kind {
            NoteKind::Comes(_) => ("from ", arrow.from.thread),
            _ => ("to ", arrow.to.thread),
        };
        self.words.page.put(word.as_bytes());
        put_name(&mut self.words.page, self.scene.names, far);
        self.words.page.put(b": ");
        self.say(&arrow, fact, FEW);
        let text = self.words.take()?;
        self.stubs.push(Stub { lane, kind, text })?;
        Ok(())
    }

    /// Adds the arrow of a record, if it has one that touches a lane.
    fn add_arrow(&mut self, row: &mut Row, fact: &Rec) -> Result<(), AllocError> {
        if !has_arrow(fact) {
            return Ok(());
        }
        let Some(arrow) = self.take_arrow() else {
            return Ok(());
        };
        let from = self.plan.lane_of(arrow.from.thread);
        let to = self.plan.lane_of(arrow.to.thread);
        match (from, to) {
            (Some(from), Some(to)) => self.add_stroke(row, arrow, fact, Ends { from, to }),
            (Some(lane), None) => self.add_stub(arrow, fact, lane, NoteKind::Goes(arrow.shown)),
            (None, Some(lane)) => self.add_stub(arrow, fact, lane, NoteKind::Comes(arrow.shown)),
            (None, None) => Ok(()),
        }
    }

    /// Adds the mark of a record to its lane, if that exists.
    fn add_mark(&mut self, here: Point, fact: &Rec) -> Result<(), AllocError> {
        let Some(thread) = marked(&self.scene.drawing.strokes, here, fact) else {
            return Ok(());
        };
        let Some(lane) = self.plan.lane_of(thread) else {
            return Ok(());
        };
        if let Some(mark) = self.marks.get_mut(lane) {
            if !mark.is_empty() {
                mark.push_str("; ")?;
            }
            put_mark(self.alloc, &mut self.words.page, self.scene.names, fact);
            mark.push_str(self.words.take()?.as_str())?;
        }
        Ok(())
    }

    /// Adds the labels of a row's arrows that are not written above them, at the lanes where they
    /// end.
    fn add_labels(
        &mut self,
        row: &mut Row,
        lane: usize,
        used: &mut usize,
    ) -> Result<(), AllocError> {
        let first = self.plan.strokes.len().saturating_sub(row.arrows);
        for at in first..self.plan.strokes.len() {
            let mut label = String::new(self.alloc);
            match self.plan.strokes.get(at) {
                Some(stroke) if !stroke.is_straight() && stroke.ends.to == lane => {
                    label.push_str(stroke.label.as_str())?;
                }
                _ => continue,
            }
            self.add_note(row, used, lane, NoteKind::Label, label.as_str())?;
        }
        Ok(())
    }

    /// Adds the arrows of a row with one end at this lane and none at another.
    fn add_stubs(
        &mut self,
        row: &mut Row,
        lane: usize,
        used: &mut usize,
    ) -> Result<(), AllocError> {
        for at in 0..self.stubs.len() {
            let mut text = String::new(self.alloc);
            let kind = match self.stubs.get(at) {
                Some(stub) if stub.lane == lane => {
                    text.push_str(stub.text.as_str())?;
                    stub.kind
                }
                _ => continue,
            };
            self.add_note(row, used, lane, kind, text.as_str())?;
        }
        Ok(())
    }

    /// Adds what the entry of a line sent without reaching a thread, beside the lane of its sender.
    fn add_lost(
        &mut self,
        row: &mut Row,
        line: &BookLine<'_>,
        lane: usize,
        used: &mut usize,
    ) -> Result<(), AllocError> {
        if !is_dropped(self.alloc, line)? {
            return Ok(());
        }
        let Ok(step) = line.step(self.alloc) else {
            return Err(AllocError);
        };
        put_lost(self.alloc, &mut self.words.page, &step.entry);
        let text = self.words.take()?;
        self.add_note(row, used, lane, NoteKind::Lost, text.as_str())
    }

    /// Adds the state of a lane's thread after a line, if it has a note.
    fn add_state(
        &mut self,
        row: &mut Row,
        number: usize,
        lane: usize,
        used: &mut usize,
    ) -> Result<(), AllocError> {
        let before = self.look(number.saturating_sub(1), lane);
        let now = self.look(number, lane);
        if !has_note(before, now) {
            return Ok(());
        }
        put_look(&mut self.words.page, self.scene.names, now);
        let text = self.words.take()?;
        self.add_note(row, used, lane, NoteKind::State, text.as_str())
    }

    /// Adds the marks of a lane, if it has some.
    fn add_marks(
        &mut self,
        row: &mut Row,
        lane: usize,
        used: &mut usize,
    ) -> Result<(), AllocError> {
        let mut mark = String::new(self.alloc);
        if let Some(kept) = self.marks.get_mut(lane) {
            mark.push_str(kept.as_str())?;
            kept.clear();
        }
        if mark.is_empty() {
            return Ok(());
        }
        self.add_note(row, used, lane, NoteKind::Mark, mark.as_str())
    }

    /// Adds the notes beside a lane in the row of a line.
    fn add_lane(
        &mut self,
        row: &mut Row,
        line: &BookLine<'_>,
        here: Point,
        lane: usize,
    ) -> Result<(), AllocError> {
        let mut used = 0;
        self.add_labels(row, lane, &mut used)?;
        self.add_stubs(row, lane, &mut used)?;
        if self.plan.lane_of(here.thread) == Some(lane) {
            self.add_lost(row, line, lane, &mut used)?;
        }
        self.add_state(row, here.row, lane, &mut used)?;
        self.add_marks(row, lane, &mut used)
    }

    /// Adds the notes beside all lanes in the row of a line.
    fn add_lanes(
        &mut self,
        row: &mut Row,
        line: &BookLine<'_>,
        here: Point,
    ) -> Result<(), AllocError> {
        for lane in 0..self.plan.threads.len() {
            self.add_lane(row, line, here, lane)?;
        }
        self.stubs.clear();
        Ok(())
    }

    /// Returns the row of a line, with its step and its result.
    fn row_of(&mut self, line: &BookLine<'_>, here: Point) -> Result<Row, AllocError> {
        let scene = self.scene;
        let kept = line.kept_step();
        let mut row = Row::new(self.alloc, RowKind::Line, here.row);
        row.thread = self.with_lane(here.thread);
        let origin = scene.steps.of_line(here.row);
        row.line = origin.map(|origin| origin.line);
        spell_step(&mut self.word, &kept);
        let step = Entered {
            core: kept.core,
            thread: here.thread,
            entry: entry_part(spelled(&self.word)),
        };
        row.step = step_text(self.alloc, &mut self.words, scene, origin, step)?;
        spell_answer(&mut self.word, &line.kept_answer());
        let result = spelled(&self.word);
        if result.starts_with("= refused") {
            row.kind = RowKind::Refused;
        }
        put_words(self.alloc, &mut self.words.page, result);
        row.result = self.words.take_cut(STEP_COLUMNS)?;
        Ok(row)
    }

    /// Adds the arrow and the mark of a record.
    fn add_record(&mut self, row: &mut Row, fact: &Rec, here: Point) -> Result<(), AllocError> {
        self.add_arrow(row, fact)?;
        self.add_mark(here, fact)
    }

    /// Adds the arrow and the mark of a line's record.
    fn take_record(
        &mut self,
        row: &mut Row,
        line: &BookLine<'_>,
        i: usize,
        here: Point,
    ) -> Result<(), AllocError> {
        match line.record(self.alloc, i) {
            Ok(Some(fact)) => self.add_record(row, &fact, here),
            Ok(None) => Ok(()),
            Err(_) => Err(AllocError),
        }
    }

    /// Adds the arrows and the marks of a line's records.
    fn add_records(
        &mut self,
        row: &mut Row,
        line: &BookLine<'_>,
        here: Point,
    ) -> Result<(), AllocError> {
        for i in 0..line.record_count() {
            self.take_record(row, line, i, here)?;
        }
        Ok(())
    }

    /// Returns how many notes, arrows and marks there are.
    fn count(&self) -> usize {
        let notes = self.plan.notes.len();
        notes.saturating_add(self.plan.strokes.len())
    }

    /// Returns whether a line changes how a thread with a lane looks.
    fn changes_look(&self, number: usize) -> bool {
        for lane in 0..self.plan.threads.len() {
            if self.look(number.saturating_sub(1), lane) != self.look(number, lane) {
                return true;
            }
        }
        false
    }

    /// Ends the row of a line, which is on the page if something in it is seen.
    fn end_line(&mut self, row: Row, is_seen: bool) -> Result<(), AllocError> {
        self.line_rows.push(self.plan.rows.len())?;
        if is_seen {
            self.plan.rows.push(row)?;
        }
        Ok(())
    }

    /// Adds the row of a line in which a thread enters; no row if the thread has no lane and the
    /// line touches none.
    fn add_row(&mut self, line: &BookLine<'_>, here: Point) -> Result<(), AllocError> {
        let before = self.count();
        let mut row = self.row_of(line, here)?;
        self.add_records(&mut row, line, here)?;
        self.add_lanes(&mut row, line, here)?;
        let is_seen = row.thread.is_some() || self.count() > before || self.changes_look(here.row);
        self.end_line(row, is_seen)
    }

    /// Adds the row of a line.
    fn add_line(&mut self, number: usize) -> Result<(), AllocError> {
        let drawing = self.scene.drawing;
        let Some(line) = drawing.book().line(number) else {
            return Ok(());
        };
        let kept = line.kept_step();
        let thread = ObjId {
            kind: kept.kind,
            serial: kept.serial,
        };
        let here = Point {
            row: number,
            thread,
        };
        self.add_row(&line, here)
    }

    /// Adds the row of a skipped step, by its index among them.
    fn add_away(&mut self, away: &Away, place: usize) -> Result<(), AllocError> {
        let scene = self.scene;
        let mut row = Row::new(self.alloc, RowKind::Away, away.after);
        row.thread = Some(away.thread);
        let origin = scene.steps.of_skipped(place);
        row.line = origin.map(|origin| origin.line);
        let step = Entered {
            core: away.core,
            thread: away.thread,
            entry: entry_part(away.text.as_str()),
        };
        row.step = step_text(self.alloc, &mut self.words, scene, origin, step)?;
        row.result.push_str(why_away(away.why))?;
        self.plan.rows.push(row)?;
        Ok(())
    }

    /// Adds the rows of the steps skipped after a line, of threads with lanes; those after earlier
    /// lines are passed over.
    fn add_turned_away(&mut self, number: usize) -> Result<(), AllocError> {
        let drawing = self.scene.drawing;
        for at in self.next_away..drawing.away.len() {
            let Some(away) = drawing.away.get(at) else {
                return Ok(());
            };
            if away.after > number {
                return Ok(());
            }
            if away.after == number && self.plan.lane_of(away.thread).is_some() {
                self.add_away(away, at)?;
            }
            self.next_away = at.saturating_add(1);
        }
        Ok(())
    }

    /// Skips the arrows of the lines before the first shown one.
    fn pass_arrows(&mut self, first: usize) {
        let drawing = self.scene.drawing;
        for arrow in drawing.strokes.arrows() {
            if arrow.to.row >= first {
                return;
            }
            self.next_arrow = self.next_arrow.saturating_add(1);
        }
    }

    /// Adds all rows.
    fn add_rows(&mut self) -> Result<(), AllocError> {
        let window = self.scene.window;
        self.pass_arrows(window.first);
        self.add_start()?;
        for number in self.plan.before..=window.last {
            if number >= window.first {
                self.add_line(number)?;
            }
            self.add_turned_away(number)?;
        }
        Ok(())
    }

    /// Sets the heights of all rows.
    fn set_rows(&mut self) {
        let mut top = HEAD.saturating_add(24);
        for row in self.plan.rows.iter_mut() {
            row.top = top;
            let slots = row.slots as u64;
            top = top
                .saturating_add(slots.saturating_mul(SLOT))
                .saturating_add(10);
        }
        self.plan.end = top.saturating_add(8);
    }

    /// Returns the height at which a line's changes are drawn, by its index after the line before
    /// the first: in its row, or above the next row if it has none.
    fn event_of(&self, at: usize) -> u64 {
        let number = self.plan.before.saturating_add(at);
        let place = self.line_rows.get(at).copied().unwrap_or(0);
        match self.plan.rows.get(place) {
            Some(row) if row.is_of_line(number) => row.event(),
            Some(row) => row.top.saturating_sub(RULE),
            None => self.plan.end,
        }
    }

    /// Sets the height at which each line's changes are drawn.
    fn set_events(&mut self) -> Result<(), AllocError> {
        for at in 0..self.line_rows.len() {
            let event = self.event_of(at);
            self.plan.events.push(event)?;
        }
        Ok(())
    }

    /// Adds the heads of the lanes.
    fn add_heads(&mut self) -> Result<(), AllocError> {
        let scene = self.scene;
        for thread in scene.threads {
            put_name(&mut self.words.page, scene.names, *thread);
            self.plan.heads.push(self.words.take_cut(NOTE_COLUMNS)?)?;
            self.marks.push(String::new(self.alloc))?;
        }
        Ok(())
    }

    /// Tracks the priority of a thread.
    fn set_priority(&mut self, fact: &Rec) {
        if let Rec::Prio { thread, priority } = fact
            && let Some(kept) = self.plan.priorities.get_mut(place_of(*thread))
        {
            *kept = priority.0;
        }
    }

    /// Sets the priorities that the threads have before the first shown line.
    fn set_priorities(&mut self) -> Result<(), AllocError> {
        let scene = self.scene;
        let book = scene.drawing.book();
        for line in book.boot() {
            if let BootLine::Thread { priority, .. } = line {
                self.plan.priorities.push(priority.0)?;
            }
        }
        for number in 1..scene.window.first {
            let Some(line) = book.line(number) else {
                return Ok(());
            };
            for i in 0..line.record_count() {
                match line.record(self.alloc, i) {
                    Ok(Some(fact)) => self.set_priority(&fact),
                    Ok(None) => {}
                    Err(_) => return Err(AllocError),
                }
            }
        }
        Ok(())
    }

    /// Returns half the width of the head of a lane.
    fn half_head(&self, lane: usize) -> u64 {
        match self.plan.heads.get(lane) {
            Some(head) => columns(head.as_str()).max(12).saturating_mul(COLUMN) / 2 + 8,
            None => 0,
        }
    }

    /// Returns the widths of the gaps to the right of the lanes that their heads need.
    fn head_gaps(&self) -> Result<Vec<u64>, AllocError> {
        let mut gaps = Vec::new(self.alloc);
        for lane in 0..self.plan.threads.len() {
            let heads = self
                .half_head(lane)
                .saturating_add(self.half_head(lane.saturating_add(1)))
                .saturating_add(12);
            gaps.push(heads.max(LANE_GAP))?;
        }
        Ok(gaps)
    }

    /// Returns the widths of the gaps to the right of the lanes that texts need.
    fn gaps(&self) -> Result<Vec<u64>, AllocError> {
        let mut gaps = self.head_gaps()?;
        for note in self.plan.notes.iter() {
            let more = if note.kind.has_line() { LOST_TEXT } else { 0 };
            widen(&mut gaps, note.lane, note.text.as_str(), more);
        }
        for stroke in self.plan.strokes.iter() {
            if stroke.is_straight() {
                widen(&mut gaps, stroke.gap(), stroke.label.as_str(), 0);
            }
        }
        Ok(gaps)
    }

    /// The width of the left margin.
    fn margin(&self) -> u64 {
        let mut most = 0;
        for row in self.plan.rows.iter() {
            most = columns(row.step.as_str())
                .max(columns(row.result.as_str()))
                .max(most);
        }
        most.saturating_mul(COLUMN).saturating_add(STEPS_AT + 16)
    }

    /// Sets the positions of the lanes.
    fn set_lanes(&mut self) -> Result<(), AllocError> {
        let gaps = self.gaps()?;
        let mut at = self.margin().saturating_add(self.half_head(0));
        for gap in gaps.iter() {
            self.plan.lanes.push(at)?;
            at = at.saturating_add(*gap);
        }
        self.plan.width = at.saturating_add(12).max(LEAST_WIDTH);
        Ok(())
    }

    /// Lays the page out.
    fn lay_out(&mut self) -> Result<(), AllocError> {
        self.add_heads()?;
        self.set_priorities()?;
        self.add_rows()?;
        self.set_rows();
        self.set_events()?;
        self.set_lanes()
    }
}

/// Makes a gap wide enough for a text and `more` pixels.
fn widen(gaps: &mut Vec<u64>, gap: usize, text: &str, more: u64) {
    let needed = columns(text)
        .saturating_mul(COLUMN)
        .saturating_add(2 * CLEAR + 10)
        .saturating_add(more);
    if let Some(width) = gaps.get_mut(gap) {
        *width = needed.max(*width);
    }
}

/// Returns the page of a scene. `AllocError` if an allocation fails.
pub fn plan_of<N: Naming>(alloc: Global, scene: &Scene<'_, N>) -> Result<Plan, AllocError> {
    let threads = Vec::from_slice(alloc, scene.threads)?;
    let before = scene.window.first.saturating_sub(1);
    let mut planner = Planner {
        alloc,
        scene,
        line_rows: Vec::new(alloc),
        word: Box::new(alloc, Line::new())?,
        words: Words::new(alloc)?,
        marks: Vec::new(alloc),
        stubs: Vec::new(alloc),
        next_arrow: 0,
        next_away: 0,
        plan: Plan::new(alloc, threads, before),
    };
    planner.lay_out()?;
    let Planner { plan, .. } = planner;
    Ok(plan)
}
