//! The bars of lanes on the page.
use crate::labels::{Naming, put_full_name};
use crate::notes::{put_look, put_whole_look};
use crate::paper::{Area, put_area, put_attribute};
use crate::plans::Plan;
use crate::scene::{Scene, place_of};
use crate::texts::Words;
use mcs_kernel::is_ready;
use mcs_lab_diagram::{Drawing, Look};
use mcs_lab_inspect::TextBuffer;
use mcs_types::{ObjId, Status};

/// How many colours there are.
const COLOURS: u32 = 7;

/// Half the width of a bar, and the width of the strip for a context that a blocked or inactive
/// thread holds.
const HALF: u64 = 6;

const STRIP: u64 = 4;

/// A bar: how a thread looks after a range of lines.
#[derive(Clone, Copy)]
struct Bar {
    look: Look,
    is_picked: bool,
    first: usize,
    last: usize,
    top: u64,
}

impl Bar {
    /// Returns whether a thread looks the same in another bar.
    fn is_like(&self, other: Bar) -> bool {
        self.look == other.look && self.is_picked == other.is_picked
    }
}

/// Appends the status of a thread; running threads differ from those that are only ready.
pub fn put_state<N: Naming>(to: &mut TextBuffer, names: &N, look: Look, is_picked: bool) {
    if !is_ready(look.status) {
        return put_whole_look(to, names, look);
    }
    to.put(if is_picked { "runs " } else { "ready, " }.as_bytes());
    put_look(to, names, look);
}

/// Appends a box in the colour of a context.
fn put_coloured(to: &mut TextBuffer, context: ObjId, more: &str, area: Area, title: &str) {
    let serial = context.serial.saturating_sub(1);
    put_attribute(to, b"<g class=\"k", (serial % COLOURS) as u64);
    to.put(b">");
    put_area(to, more, area, title);
    if serial >= COLOURS {
        let within = Area {
            x: area.x.saturating_add(area.width / 2).saturating_sub(1),
            width: 2,
            ..area
        };
        put_area(to, "again", within, "");
    }
    to.put(b"</g>\n");
}

/// Appends a thin bar: a thread that is ready without a context.
fn put_bare(to: &mut TextBuffer, area: Area, title: &str) {
    let thin = Area {
        x: area.x.saturating_add(HALF - 1),
        width: 2,
        ..area
    };
    put_area(to, "bare", thin, title)
}

/// What a bar shows, with the context on which its thread runs or is ready, or which it holds
/// meanwhile.
#[derive(Clone, Copy)]
pub enum Shape {
    /// The kernel picks the thread.
    Runs(ObjId),
    /// The thread is ready, and another runs.
    Ready(ObjId),
    /// The thread is ready, and holds no context.
    Bare,
    /// The thread is blocked.
    Waits(Option<ObjId>),
    Inactive(Option<ObjId>),
    /// There is no bar: the thread is closed.
    Nothing,
}

/// Returns what the bar of a thread with this look shows.
pub fn shape_of(look: Look, is_picked: bool) -> Shape {
    match (look.status, look.context) {
        (Some(Status::Running | Status::Restart), Some(context)) => {
            if is_picked {
                Shape::Runs(context)
            } else {
                Shape::Ready(context)
            }
        }
        (Some(Status::Running | Status::Restart), None) => Shape::Bare,
        (Some(Status::Queued(_) | Status::OnReply(_)), context) => Shape::Waits(context),
        (Some(Status::Inactive), context) => Shape::Inactive(context),
        (Some(Status::Closed) | None, _) => Shape::Nothing,
    }
}

/// Appends the bar of a thread that waits or is inactive, with a strip for the context that it
/// holds.
fn put_holding(to: &mut TextBuffer, class: &str, context: Option<ObjId>, area: Area, title: &str) {
    put_area(to, class, area, title);
    if let Some(context) = context {
        let strip = Area {
            width: STRIP,
            ..area
        };
        put_coloured(to, context, "run", strip, title);
    }
}

/// Appends a bar with this title.
pub fn put_bar(to: &mut TextBuffer, shape: Shape, area: Area, title: &str) {
    match shape {
        Shape::Runs(context) => put_coloured(to, context, "run", area, title),
        Shape::Ready(context) => put_coloured(to, context, "ready", area, title),
        Shape::Bare => put_bare(to, area, title),
        Shape::Waits(context) => put_holding(to, "wait", context, area, title),
        Shape::Inactive(context) => put_holding(to, "idle", context, area, title),
        Shape::Nothing => {}
    }
}

/// Appends the title of a bar: its thread, the lines after which it looks so, and its status.
fn put_title<N: Naming>(to: &mut TextBuffer, names: &N, thread: ObjId, bar: Bar) {
    put_full_name(to, names, thread);
    if bar.first == bar.last {
        to.put(b", after line ");
        to.count(bar.first);
    } else {
        to.put(b", after lines ");
        to.count(bar.first);
        to.put(b" to ");
        to.count(bar.last);
    }
    to.put(b": ");
    put_state(to, names, bar.look, bar.is_picked);
}

/// Appends a bar with this title, down to this height, in a group with the first and the last line
/// after which it is shown.
fn put_group(to: &mut TextBuffer, x: u64, bar: Bar, bottom: u64, title: &str) {
    let area = Area {
        x: x.saturating_sub(HALF),
        y: bar.top,
        width: 2 * HALF,
        height: bottom.saturating_sub(bar.top),
    };
    put_attribute(to, b"<g class=\"bar\" data-first=\"", bar.first as u64);
    put_attribute(to, b" data-last=\"", bar.last as u64);
    to.put(b">");
    put_bar(to, shape_of(bar.look, bar.is_picked), area, title);
    to.put(b"</g>\n");
}

/// A lane while its bars are drawn, and its current bar.
#[derive(Drop)]
struct Lane<'a, N> {
    names: &'a N,
    thread: ObjId,
    x: u64,
    current: Option<Bar>,
}

impl<'a, N: Naming> Lane<'a, N> {
    /// Ends the current bar of the lane at this height.
    fn end(&self, words: &mut Words, to: &mut TextBuffer, bottom: u64) {
        let Some(bar) = self.current else {
            return;
        };
        put_title(&mut words.page, self.names, self.thread, bar);
        match words.take() {
            Ok(title) => put_group(to, self.x, bar, bottom, title.as_str()),
            Err(_) => to.cut(),
        }
    }

    /// Takes how the thread looks after a line: the current bar continues, or ends where this one
    /// begins.
    fn take(&mut self, words: &mut Words, to: &mut TextBuffer, next: Bar) {
        let current = self.current;
        self.current = match current {
            Some(bar) if bar.is_like(next) => Some(Bar {
                last: next.last,
                ..bar
            }),
            _ => {
                self.end(words, to, next.top);
                Some(next)
            }
        };
    }
}

/// Returns how a thread looks after a line, drawn at this height.
fn bar_of(drawing: &Drawing, thread: ObjId, number: usize, top: u64) -> Bar {
    Bar {
        look: drawing.look(number, place_of(thread)),
        is_picked: drawing.is_picked(number, thread),
        first: number,
        last: number,
        top,
    }
}

/// Appends the bars of the lane of a thread.
fn put_lane<N: Naming>(
    words: &mut Words,
    to: &mut TextBuffer,
    scene: &Scene<'_, N>,
    plan: &Plan,
    thread: ObjId,
    x: u64,
) {
    let mut lane = Lane {
        names: scene.names,
        thread,
        x,
        current: None,
    };
    for (at, top) in plan.events.iter().enumerate() {
        let number = plan.before.saturating_add(at);
        lane.take(words, to, bar_of(scene.drawing, thread, number, *top));
    }
    lane.end(words, to, plan.end);
}

/// Appends the bars of all lanes.
pub fn put_bars<N: Naming>(
    words: &mut Words,
    to: &mut TextBuffer,
    scene: &Scene<'_, N>,
    plan: &Plan,
) {
    for (lane, thread) in plan.threads.iter().enumerate() {
        let x = plan.lanes.get(lane).copied().unwrap_or(0);
        put_lane(words, to, scene, plan, *thread, x);
    }
}
