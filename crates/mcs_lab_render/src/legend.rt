//! What is below the lanes: the state of every thread at the end, and the legend of colours and
//! lines.
use crate::bars::{Shape, put_bar, put_state, shape_of};
use crate::labels::{Naming, put_full_name};
use crate::paper::{Area, put_far, put_lost_line, put_point, put_text};
use crate::plans::{COLUMN, Counts, Plan, SLOT};
use crate::scene::{Scene, place_of};
use crate::texts::{Words, columns};
use mcs_lab_diagram::{Drawing, Look};
use mcs_lab_inspect::TextBuffer;
use mcs_types::{Kind, ObjId};
use std::alloc::{AllocError, Global};

/// The left edge, and the widths of a bar's and of an arrow's sample.
const LEFT: u64 = 12;

const BAR: u64 = 18;

const ARROW: u64 = 36;

/// Appends the text in `words` at the left edge.
fn put_line_of(words: &mut Words, to: &mut TextBuffer, class: &str, y: u64) {
    match words.take() {
        Ok(text) => put_text(to, class, LEFT, y, text.as_str()),
        Err(_) => to.cut(),
    }
}

/// Appends after which line the picture ends.
fn put_place(to: &mut TextBuffer, drawing: &Drawing, last: usize) {
    if last == drawing.lines() {
        return to.put(b"At the end");
    }
    to.put(b"After line ");
    to.count(last);
}

/// Appends the state of a thread at the end.
fn put_thread<N: Naming>(to: &mut TextBuffer, scene: &Scene<'_, N>, thread: ObjId) {
    let last = scene.window.last;
    let look: Look = scene.drawing.look(last, place_of(thread));
    put_full_name(to, scene.names, thread);
    to.put(b" ");
    let is_picked = scene.drawing.is_picked(last, thread);
    put_state(to, scene.names, look, is_picked);
}

/// Appends the state of each thread with a lane at the end, a line each, and returns the height
/// below them.
pub fn put_end<N: Naming>(
    words: &mut Words,
    to: &mut TextBuffer,
    scene: &Scene<'_, N>,
    plan: &Plan,
) -> u64 {
    let mut y = plan.end.saturating_add(24);
    put_place(&mut words.page, scene.drawing, scene.window.last);
    put_line_of(words, to, "strong", y);
    for thread in scene.threads {
        y = y.saturating_add(SLOT);
        put_thread(&mut words.page, scene, *thread);
        put_line_of(words, to, "state", y);
    }
    y
}

/// The position of the next sample in the legend.
#[derive(Drop)]
struct Legend {
    x: u64,
    y: u64,
    width: u64,
}

impl Legend {
    /// Returns the position of a sample with a text of this width, on the next line of the page if
    /// it does not fit.
    fn next(&mut self, sample: u64, text: &str) -> Area {
        let needed = columns(text)
            .saturating_mul(COLUMN)
            .saturating_add(sample)
            .saturating_add(16);
        if self.x > LEFT && self.x.saturating_add(needed) > self.width {
            self.x = LEFT;
            self.y = self.y.saturating_add(SLOT + 6);
        }
        let area = Area {
            x: self.x,
            y: self.y.saturating_sub(11),
            width: 12,
            height: 14,
        };
        self.x = self.x.saturating_add(needed);
        area
    }
}

/// Appends the text of a sample.
fn put_meaning(to: &mut TextBuffer, area: Area, sample: u64, text: &str) {
    let (x, y) = (area.x.saturating_add(sample), area.y.saturating_add(11));
    put_text(to, "state", x, y, text);
}

/// Appends a sample of an arrow's line.
fn put_line(to: &mut TextBuffer, class: &str, area: Area) {
    let (x, y) = (area.x, area.y.saturating_add(7));
    to.put(b"<path class=\"arrow ");
    to.put(class.as_bytes());
    to.put(b"\" marker-end=\"url(#tip)\" d=\"");
    put_point(to, b"M", x, y);
    put_far(to, b"H", x.saturating_add(ARROW - 8));
    to.put(b"\"/>\n");
}

/// Returns the position in the legend of a bar that needs an explanation; None for a running one.
fn place_in_legend(shape: Shape) -> Option<usize> {
    match shape {
        Shape::Ready(_) => Some(0),
        Shape::Bare => Some(1),
        Shape::Waits(None) => Some(2),
        Shape::Waits(Some(_)) => Some(3),
        Shape::Inactive(None) => Some(4),
        Shape::Inactive(Some(_)) => Some(5),
        Shape::Runs(_) | Shape::Nothing => None,
    }
}

/// How many kinds of bars the legend has.
const PLACES: usize = 6;

/// Returns what a bar means.
fn meaning_of(shape: Shape) -> &'static str {
    match shape {
        Shape::Runs(_) => "runs",
        Shape::Ready(_) => "ready, another runs",
        Shape::Bare => "ready, no context",
        Shape::Waits(None) => "waits",
        Shape::Waits(Some(_)) => "waits, holds a context",
        Shape::Inactive(None) => "inactive",
        Shape::Inactive(Some(_)) => "inactive, holds a context",
        Shape::Nothing => "closed",
    }
}

/// Returns the context that gives a bar its colour, if it has one.
fn context_of(shape: Shape) -> Option<ObjId> {
    match shape {
        Shape::Runs(context) | Shape::Ready(context) => Some(context),
        Shape::Waits(context) | Shape::Inactive(context) => context,
        Shape::Bare | Shape::Nothing => None,
    }
}

/// The bars that are seen on a page; the legend explains only these.
#[derive(Drop)]
pub struct Seen {
    /// Whether a bar has the colour of a context, by the index of the context.
    contexts: Vec<bool>,
    /// The first bar of each kind, by its position in the legend.
    shapes: Vec<Option<Shape>>,
}

impl Seen {
    /// Returns an empty record of seen bars, for `contexts` contexts.
    fn new(alloc: Global, contexts: u32) -> Result<Seen, AllocError> {
        let mut seen = Seen {
            contexts: Vec::new(alloc),
            shapes: Vec::new(alloc),
        };
        for _ in 0..contexts {
            seen.contexts.push(false)?;
        }
        for _ in 0..PLACES {
            seen.shapes.push(None)?;
        }
        Ok(seen)
    }

    /// Returns whether some bar has the colour of a context.
    fn has_colour_of(&self, context: ObjId) -> bool {
        match context.place(Kind::Context) {
            Some(place) => self.contexts.get(place).copied().unwrap_or(false),
            None => false,
        }
    }

    /// Notes that the colour of a context is seen.
    fn see_context(&mut self, context: ObjId) {
        if let Some(place) = context.place(Kind::Context)
            && let Some(is_seen) = self.contexts.get_mut(place)
        {
            *is_seen = true;
        }
    }

    /// Notes that a bar is seen.
    fn see(&mut self, shape: Shape) {
        if let Some(context) = context_of(shape) {
            self.see_context(context);
        }
        if let Some(place) = place_in_legend(shape)
            && let Some(first) = self.shapes.get_mut(place)
            && first.is_none()
        {
            *first = Some(shape);
        }
    }
}

/// Returns the bars that are seen on a page.
pub fn seen_in(alloc: Global, drawing: &Drawing, plan: &Plan) -> Result<Seen, AllocError> {
    let mut seen = Seen::new(alloc, drawing.kernel.made(Kind::Context))?;
    for at in 0..plan.events.len() {
        let number = plan.before.saturating_add(at);
        for thread in plan.threads.iter() {
            let look = drawing.look(number, place_of(*thread));
            seen.see(shape_of(look, drawing.is_picked(number, *thread)));
        }
    }
    Ok(seen)
}

/// Appends the name of a context in the legend.
fn put_context_name<N: Naming>(to: &mut TextBuffer, names: &N, drawing: &Drawing, context: ObjId) {
    to.put(b"on ");
    put_full_name(to, names, context);
    if let Some(core) = drawing.kernel.core(context) {
        to.put(b", core ");
        to.number(core.0 as u64);
    }
}

/// Appends a sample bar and what it means.
fn put_shape(to: &mut TextBuffer, legend: &mut Legend, shape: Shape, text: &str) {
    let area = legend.next(BAR, text);
    put_bar(to, shape, area, "");
    put_meaning(to, area, BAR, text);
}

/// Appends the colour of a context and what it means.
fn put_context<N: Naming>(
    words: &mut Words,
    to: &mut TextBuffer,
    scene: &Scene<'_, N>,
    legend: &mut Legend,
    context: ObjId,
) {
    put_context_name(&mut words.page, scene.names, scene.drawing, context);
    match words.take() {
        Ok(text) => put_shape(to, legend, Shape::Runs(context), text.as_str()),
        Err(_) => to.cut(),
    }
}

/// Appends the colours that the drawing uses, each with the context that it stands for.
fn put_contexts<N: Naming>(
    words: &mut Words,
    to: &mut TextBuffer,
    scene: &Scene<'_, N>,
    legend: &mut Legend,
    seen: &Seen,
) {
    for serial in 1..=scene.drawing.kernel.made(Kind::Context) {
        let context = ObjId {
            kind: Kind::Context,
            serial,
        };
        if seen.has_colour_of(context) {
            put_context(words, to, scene, legend, context);
        }
    }
}

/// Appends the legend below this height, and returns the height below it.
pub fn put_legend<N: Naming>(
    words: &mut Words,
    to: &mut TextBuffer,
    scene: &Scene<'_, N>,
    plan: &Plan,
    seen: &Seen,
    above: u64,
) -> u64 {
    let mut legend = Legend {
        x: LEFT,
        y: above.saturating_add(30),
        width: plan.width,
    };
    put_contexts(words, to, scene, &mut legend, seen);
    for shape in seen.shapes.iter() {
        if let Some(shape) = *shape {
            put_shape(to, &mut legend, shape, meaning_of(shape));
        }
    }
    put_arrow_kinds(to, &mut legend, plan.counts());
    legend.y
}

/// Appends an arrow of this class and what it means, if there are any.
fn put_arrow_kind(to: &mut TextBuffer, legend: &mut Legend, class: &str, count: usize, text: &str) {
    if count == 0 {
        return;
    }
    let area = legend.next(ARROW, text);
    put_line(to, class, area);
    put_meaning(to, area, ARROW, text);
}

/// Appends the seen arrows and what they mean.
fn put_arrow_kinds(to: &mut TextBuffer, legend: &mut Legend, counts: Counts) {
    put_arrow_kind(to, legend, "message", counts.messages, "message");
    put_arrow_kind(to, legend, "answer", counts.answers, "answer");
    put_arrow_kind(to, legend, "word", counts.words, "signal");
    if counts.lost > 0 {
        let area = legend.next(ARROW, "dropped: reached nobody");
        put_lost_line(to, None, area.x, area.y.saturating_add(7));
        put_meaning(to, area, ARROW, "dropped: reached nobody");
    }
}
