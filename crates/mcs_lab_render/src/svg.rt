//! The picture as SVG.
use crate::bars::put_bars;
use crate::labels::{Naming, put_full_name};
use crate::layout::plan_of;
use crate::legend::{Seen, put_end, put_legend, seen_in};
use crate::paper::{
    Area, LOST_TEXT, STYLE, Way, put_area, put_attribute, put_far, put_lost_line, put_point,
    put_short_line, put_text,
};
use crate::plans::{
    ARROW_AT, BESIDE, CLEAR, FILES_AT, HEAD, LABEL_AT, NUMBERS_AT, Note, NoteKind, Plan, RULE, Row,
    RowKind, SLOT, STEPS_AT, Stroke, TEXT_AT,
};
use crate::scene::{Scene, place_of};
use crate::texts::{Words, columns, put_escaped, take_text};
use mcs_lab_diagram::Shown;
use mcs_lab_inspect::TextBuffer;
use std::alloc::{AllocError, Global};

/// How far from a lane an arrow begins, how far from it its tip is, and where an arrow to its own
/// lane turns back.
const EDGE: u64 = 6;

const TIP: u64 = 7;

const TURN: u64 = 23;

/// Within a slot, the height of the short line before a text.
const SHORT_AT: u64 = 8;

/// Returns the position of a lane.
fn lane_at(plan: &Plan, lane: usize) -> u64 {
    plan.lanes.get(lane).copied().unwrap_or(0)
}

/// Appends the head of a lane.
fn put_head(to: &mut TextBuffer, plan: &Plan, lane: usize, head: &str) {
    let x = lane_at(plan, lane);
    let half = columns(head).max(12).saturating_mul(7) / 2 + 6;
    let area = Area {
        x: x.saturating_sub(half),
        y: 14,
        width: half.saturating_mul(2),
        height: HEAD - 20,
    };
    put_area(to, "head", area, "");
    put_text(to, "head-text", x, 32, head);
    put_priority(to, plan, lane, x);
}

/// Appends the priority of the thread of a lane.
fn put_priority(to: &mut TextBuffer, plan: &Plan, lane: usize, x: u64) {
    let Some(thread) = plan.threads.get(lane) else {
        return;
    };
    if let Some(priority) = plan.priorities.get(place_of(*thread)) {
        put_attribute(to, b"<text class=\"head-more\" x=\"", x);
        to.put(b" y=\"48\">priority ");
        to.number(*priority as u64);
        to.put(b"</text>\n");
    }
}

/// Appends the heads of the numbers of lines, and of the lanes.
fn put_heads(to: &mut TextBuffer, plan: &Plan) {
    to.put(b"<g class=\"heads\">\n");
    put_text(to, "number", NUMBERS_AT, 48, "book");
    put_text(to, "number", FILES_AT, 48, "file");
    for (lane, head) in plan.heads.iter().enumerate() {
        put_head(to, plan, lane, head.as_str());
    }
    to.put(b"</g>\n");
}

/// Appends the line across a row.
fn put_rule(to: &mut TextBuffer, plan: &Plan, row: &Row) {
    put_far(
        to,
        b"<path class=\"rule\" d=\"M8,",
        row.top.saturating_sub(RULE),
    );
    put_far(to, b"H", plan.width.saturating_sub(8));
    to.put(b"\"/>\n");
}

/// Appends the beginning of a row of this line of the book.
fn put_row(to: &mut TextBuffer, number: usize) {
    put_attribute(to, b"<g class=\"row\" data-line=\"", number as u64);
    to.put(b">");
}

/// Appends the number of a line that ends at a place.
fn put_number(to: &mut TextBuffer, x: u64, y: u64, number: u64) {
    put_attribute(to, b"<text class=\"number\" x=\"", x);
    put_attribute(to, b" y=\"", y);
    to.put(b">");
    to.number(number);
    to.put(b"</text>\n");
}

/// Appends the number of the line of the file with a row's step.
fn put_file_number(to: &mut TextBuffer, row: &Row, first: u64) {
    if let Some(line) = row.line {
        put_number(to, FILES_AT, first, line);
    }
}

/// Appends the numbers of a line, its step and its result.
fn put_step(to: &mut TextBuffer, row: &Row, class: &str, first: u64) {
    put_row(to, row.number);
    put_number(to, NUMBERS_AT, first, row.number as u64);
    put_file_number(to, row, first);
    put_text(to, "step", STEPS_AT, first, row.step.as_str());
    let second = first.saturating_add(SLOT);
    put_text(to, class, STEPS_AT, second, row.result.as_str());
    to.put(b"</g>\n");
}

/// Appends the left margin of a row, and the line across it.
fn put_margin(to: &mut TextBuffer, plan: &Plan, row: &Row) {
    put_rule(to, plan, row);
    let first = row.top.saturating_add(TEXT_AT);
    match row.kind {
        RowKind::Start => {
            put_row(to, row.number);
            put_text(to, "away", STEPS_AT, first, row.step.as_str());
            to.put(b"</g>\n")
        }
        RowKind::Away => {
            put_file_number(to, row, first);
            put_text(to, "away", STEPS_AT, first, row.step.as_str());
            let second = first.saturating_add(SLOT);
            put_text(to, "away", STEPS_AT, second, row.result.as_str())
        }
        RowKind::Line => put_step(to, row, "result", first),
        RowKind::Refused => put_step(to, row, "refused", first),
    }
}

/// Appends the dot of the thread that enters, if it has a lane.
fn put_dot(to: &mut TextBuffer, plan: &Plan, row: &Row) {
    let Some(lane) = row.thread.and_then(|thread| plan.lane_of(thread)) else {
        return;
    };
    let class = if row.kind == RowKind::Away {
        "idle-dot"
    } else {
        "dot"
    };
    to.put(b"<circle class=\"");
    to.put(class.as_bytes());
    put_attribute(to, b"\" data-line=\"", row.number as u64);
    put_attribute(to, b" cx=\"", lane_at(plan, lane));
    put_attribute(to, b" cy=\"", row.event());
    to.put(b" r=\"3.5\"/>\n");
}

/// Returns the top of a slot of a row.
fn slot_top(plan: &Plan, row: usize, slot: usize) -> u64 {
    let top = match plan.rows.get(row) {
        Some(row) => row.top,
        None => 0,
    };
    top.saturating_add((slot as u64).saturating_mul(SLOT))
}

/// Returns the position at distance `far` from a lane, on the side to which an arrow leads.
fn aside(x: u64, is_right: bool, far: u64) -> u64 {
    if is_right {
        x.saturating_add(far)
    } else {
        x.saturating_sub(far)
    }
}

/// Appends the line of an arrow to its own lane. One that waited runs down beside the lane before
/// it turns back.
fn put_turn(to: &mut TextBuffer, plan: &Plan, stroke: &Stroke, lane: u64) {
    let top = slot_top(plan, stroke.row, stroke.slot);
    let x = lane.saturating_add(TIP);
    match plan.rows.get(stroke.from_row) {
        Some(row) if stroke.from_row != stroke.row => {
            put_point(to, b"M", lane.saturating_add(EDGE), row.event());
            put_far(to, b"H", lane.saturating_add(BESIDE));
            put_far(to, b"V", top.saturating_add(1));
        }
        _ => put_point(to, b"M", x, top.saturating_add(1)),
    }
    put_far(to, b"H", lane.saturating_add(TURN));
    put_far(to, b"V", top.saturating_add(LABEL_AT));
    put_far(to, b"H", x);
}

/// Appends the line of an arrow from one lane to another. One that waited runs down beside its lane
/// to the slot in which it crosses over.
fn put_way(to: &mut TextBuffer, plan: &Plan, stroke: &Stroke, a: u64, b: u64) {
    let top = slot_top(plan, stroke.row, stroke.slot);
    let y = top.saturating_add(ARROW_AT);
    let is_right = a < b;
    let x = aside(a, is_right, EDGE);
    match plan.rows.get(stroke.from_row) {
        Some(row) if stroke.from_row != stroke.row => {
            put_point(to, b"M", x, row.event());
            put_far(to, b"H", aside(a, is_right, BESIDE));
            put_far(to, b"V", top);
        }
        _ => put_point(to, b"M", x, y),
    }
    put_point(to, b"L", aside(b, !is_right, TIP), y);
}

/// Appends the line of an arrow.
fn put_path(to: &mut TextBuffer, plan: &Plan, stroke: &Stroke) {
    let (from, end) = (stroke.ends.from, stroke.ends.to);
    let (a, b) = (lane_at(plan, from), lane_at(plan, end));
    if from == end {
        return put_turn(to, plan, stroke, a);
    }
    put_way(to, plan, stroke, a, b);
}

/// Appends the tooltip of an arrow.
fn put_hint<N: Naming>(to: &mut TextBuffer, names: &N, stroke: &Stroke) {
    put_full_name(to, names, stroke.arrow.from.thread);
    to.put(b" to ");
    put_full_name(to, names, stroke.arrow.to.thread);
    to.put(b": ");
    to.put(stroke.full.as_bytes());
}

/// Returns the class of an arrow.
fn class_of(shown: Shown) -> &'static str {
    match shown {
        Shown::Message(_) => "message",
        Shown::Answer(_) => "answer",
        Shown::Word(_) => "word",
    }
}

/// Appends an arrow, with its full text as tooltip.
fn put_stroke<N: Naming>(
    words: &mut Words,
    to: &mut TextBuffer,
    names: &N,
    plan: &Plan,
    stroke: &Stroke,
) {
    to.put(b"<path class=\"arrow ");
    to.put(class_of(stroke.arrow.shown).as_bytes());
    put_attribute(to, b"\" data-line=\"", stroke.arrow.to.row as u64);
    to.put(b" marker-end=\"url(#tip)\" d=\"");
    put_path(to, plan, stroke);
    to.put(b"\"><title>");
    put_hint(&mut words.page, names, stroke);
    match words.take() {
        Ok(hint) => put_escaped(to, hint.as_str()),
        Err(_) => to.cut(),
    }
    to.put(b"</title></path>\n");
}

/// Puts the label of an arrow that stays in its row, above it.
fn put_label(to: &mut TextBuffer, plan: &Plan, stroke: &Stroke) {
    if !stroke.is_straight() {
        return;
    }
    let gap = stroke.gap();
    let left = lane_at(plan, gap);
    let right = match plan.lanes.get(gap.saturating_add(1)) {
        Some(x) => *x,
        None => plan.width,
    };
    let x = left.saturating_add(right) / 2;
    let y = slot_top(plan, stroke.row, stroke.slot).saturating_add(LABEL_AT);
    put_text(to, "label", x, y, stroke.label.as_str());
}

/// Appends the short line of a note, of this line of the book.
fn put_short(to: &mut TextBuffer, kind: NoteKind, number: Option<usize>, x: u64, y: u64) {
    match kind {
        NoteKind::Lost => put_lost_line(to, number, x, y),
        NoteKind::Comes(shown) => put_short_line(to, class_of(shown), number, x, y, Way::Back),
        NoteKind::Goes(shown) => put_short_line(to, class_of(shown), number, x, y, Way::Off),
        NoteKind::Label | NoteKind::State | NoteKind::Mark => {}
    }
}

/// Appends a text beside a lane after its short line.
fn put_with_line(to: &mut TextBuffer, plan: &Plan, note: &Note, class: &str) {
    let x = lane_at(plan, note.lane);
    let top = slot_top(plan, note.row, note.slot);
    let number = plan.rows.get(note.row).map(|row| row.number);
    let (end, line) = (x.saturating_add(EDGE), top.saturating_add(SHORT_AT));
    put_short(to, note.kind, number, end, line);
    let (x, y) = (
        x.saturating_add(CLEAR + LOST_TEXT),
        top.saturating_add(TEXT_AT),
    );
    put_text(to, class, x, y, note.text.as_str());
}

/// Appends a note beside a lane.
fn put_note(to: &mut TextBuffer, plan: &Plan, note: &Note) {
    let y = slot_top(plan, note.row, note.slot).saturating_add(TEXT_AT);
    let x = lane_at(plan, note.lane).saturating_add(CLEAR);
    match note.kind {
        NoteKind::Lost => put_with_line(to, plan, note, "lost"),
        NoteKind::Comes(_) | NoteKind::Goes(_) => put_with_line(to, plan, note, "note"),
        NoteKind::Mark => put_text(to, "mark", x, y, note.text.as_str()),
        NoteKind::Label | NoteKind::State => put_text(to, "note", x, y, note.text.as_str()),
    }
}

/// Appends the arrows without their labels, and the dots over them.
fn put_arrows<N: Naming>(words: &mut Words, to: &mut TextBuffer, names: &N, plan: &Plan) {
    for stroke in plan.strokes.iter() {
        put_stroke(words, to, names, plan, stroke);
    }
    for row in plan.rows.iter() {
        put_dot(to, plan, row);
    }
}

/// Appends everything on the page above the end of its lanes.
fn put_all<N: Naming>(words: &mut Words, to: &mut TextBuffer, scene: &Scene<'_, N>, plan: &Plan) {
    for row in plan.rows.iter() {
        put_margin(to, plan, row);
    }
    put_bars(words, to, scene, plan);
    put_arrows(words, to, scene.names, plan);
    for stroke in plan.strokes.iter() {
        put_label(to, plan, stroke);
    }
    for note in plan.notes.iter() {
        put_note(to, plan, note);
    }
    put_heads(to, plan);
}

/// Returns how many lines of the book a page shows.
fn lines_in(plan: &Plan) -> usize {
    let mut lines: usize = 0;
    for row in plan.rows.iter() {
        match row.kind {
            RowKind::Line | RowKind::Refused => lines = lines.saturating_add(1),
            RowKind::Start | RowKind::Away => {}
        }
    }
    lines
}

/// Appends the text that screen readers read: the title of the picture, and how much it shows.
fn put_title(to: &mut TextBuffer, plan: &Plan, title: &str) {
    to.put(b"<title>");
    put_escaped(to, title);
    to.put(b"</title>\n<desc>");
    let counts = plan.counts();
    to.counted(plan.threads.len(), "thread");
    to.put(b", ");
    to.counted(lines_in(plan), "line");
    to.put(b", ");
    to.counted(counts.messages, "message");
    to.put(b", ");
    to.counted(counts.answers, "answer");
    to.put(b", ");
    to.counted(counts.words, "signal");
    to.put(b"</desc>\n");
}

/// Appends the first line of the page, with its size.
fn put_size(to: &mut TextBuffer, width: u64, height: u64) {
    to.put(b"<svg xmlns=\"http://www.w3.org/2000/svg\" role=\"img\"");
    put_attribute(to, b" width=\"", width);
    put_attribute(to, b" height=\"", height);
    put_far(to, b" viewBox=\"0 0 ", width);
    put_attribute(to, b" ", height);
    to.put(b">\n");
}

/// Appends the lanes and what is below them, and returns the height of the page.
fn put_body<N: Naming>(
    words: &mut Words,
    to: &mut TextBuffer,
    scene: &Scene<'_, N>,
    plan: &Plan,
    seen: &Seen,
) -> u64 {
    put_all(words, to, scene, plan);
    let below = put_end(words, to, scene, plan);
    put_legend(words, to, scene, plan, seen, below).saturating_add(20)
}

/// Returns the picture of a scene as SVG with this title.
pub fn svg_of<N: Naming>(
    alloc: Global,
    scene: &Scene<'_, N>,
    title: &str,
) -> Result<String, AllocError> {
    let plan = plan_of(alloc, scene)?;
    let mut words = Words::new(alloc)?;
    let mut page = TextBuffer::new(alloc)?;
    let seen = seen_in(alloc, scene.drawing, &plan)?;
    let height = put_body(&mut words, &mut page, scene, &plan, &seen);
    let body = take_text(alloc, &mut page)?;
    put_size(&mut page, plan.width, height);
    put_title(&mut page, &plan, title);
    page.put(STYLE.as_bytes());
    page.put(b"<rect class=\"ground\" width=\"100%\" height=\"100%\"/>\n");
    page.put(body.as_bytes());
    page.put(b"</svg>\n");
    take_text(alloc, &mut page)
}
