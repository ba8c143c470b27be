//! What is on a page, and where. Each row has as many slots as its texts need: arrows have one
//! each, with its label above it, and below them what is written beside a lane is in the gap to its
//! right. An arrow that waited runs down beside its lane, nearer than any text is, and crosses over
//! within its slot. So no text is on another, on a lane, or on an arrow.
use crate::scene::lane_in;
use mcs_lab_diagram::{Arrow, Shown};
use mcs_types::ObjId;
use std::alloc::Global;

/// The height of a slot, and the width of a column of its text.
pub const SLOT: u64 = 16;

pub const COLUMN: u64 = 7;

/// The height of the heads of lanes.
pub const HEAD: u64 = 64;

/// How far a text keeps off a lane, and how far from the lane a waiting arrow runs down.
pub const CLEAR: u64 = 13;

pub const BESIDE: u64 = 9;

/// Within a slot, the height at which an arrow crosses over, and the baselines of its label and of
/// a note. The tip of an arrow is 8 high; a text extends 9 up and 3 down.
pub const ARROW_AT: u64 = 13;

pub const LABEL_AT: u64 = 9;

pub const TEXT_AT: u64 = 11;

/// The right edges of the numbers of the book's and of the file's lines, and the left edge of
/// steps.
pub const NUMBERS_AT: u64 = 48;

pub const FILES_AT: u64 = 100;

pub const STEPS_AT: u64 = 110;

/// How far the line across a row is above its contents.
pub const RULE: u64 = 5;

/// The minimal width of a page, which the legend needs below few lanes.
pub const LEAST_WIDTH: u64 = 560;

/// What a row shows.
#[derive(Clone, Copy, PartialEq, Eq, Debug)]
pub enum RowKind {
    /// The state before the first shown line.
    Start,
    /// A line of the book.
    Line,
    /// A line of the book whose answer is a refusal.
    Refused,
    /// A step that was skipped.
    Away,
}

/// A row of the page.
#[derive(Drop)]
pub struct Row {
    pub kind: RowKind,
    /// The line of the book; for a skipped step, the one before it.
    pub number: usize,
    /// The line of the file with the step.
    pub line: Option<u64>,
    /// The thread that enters, if it has a lane.
    pub thread: Option<ObjId>,
    pub step: String,
    pub result: String,
    pub arrows: usize,
    pub slots: usize,
    pub top: u64,
}

impl Row {
    /// An empty row.
    pub fn new(alloc: Global, kind: RowKind, number: usize) -> Row {
        Row {
            kind,
            number,
            line: None,
            thread: None,
            step: String::new(alloc),
            result: String::new(alloc),
            arrows: 0,
            slots: 2,
            top: 0,
        }
    }

    /// Returns the height in a row at which its changes are drawn.
    pub fn event(&self) -> u64 {
        if self.kind == RowKind::Start {
            HEAD.saturating_add(8)
        } else {
            self.top.saturating_add(ARROW_AT)
        }
    }

    /// Returns whether it is the row of this line of the book, or of the state before the first
    /// shown one.
    pub fn is_of_line(&self, number: usize) -> bool {
        self.number == number && self.kind != RowKind::Away
    }
}

/// The kind of a note beside a lane.
#[derive(Clone, Copy)]
pub enum NoteKind {
    /// The text of an arrow that leaves its row.
    Label,
    /// The state of a thread.
    State,
    /// Another change.
    Mark,
    /// A send that reached no thread.
    Lost,
    /// The text of an arrow from a thread without a lane.
    Comes(Shown),
    /// The text of an arrow to a thread without a lane.
    Goes(Shown),
}

impl NoteKind {
    /// Returns whether a short line precedes the text.
    pub fn has_line(self) -> bool {
        match self {
            NoteKind::Lost | NoteKind::Comes(_) | NoteKind::Goes(_) => true,
            NoteKind::Label | NoteKind::State | NoteKind::Mark => false,
        }
    }
}

/// A text beside a lane.
#[derive(Drop)]
pub struct Note {
    pub row: usize,
    pub lane: usize,
    pub slot: usize,
    pub kind: NoteKind,
    pub text: String,
}

/// The lanes that an arrow joins.
#[derive(Clone, Copy)]
pub struct Ends {
    pub from: usize,
    pub to: usize,
}

/// An arrow on the page, from row to row, with its label and its full text.
#[derive(Drop)]
pub struct Stroke {
    pub arrow: Arrow,
    pub ends: Ends,
    pub from_row: usize,
    pub row: usize,
    pub slot: usize,
    pub label: String,
    pub full: String,
}

impl Stroke {
    /// Returns whether it stays in its row and leads to another lane.
    pub fn is_straight(&self) -> bool {
        self.from_row == self.row && self.ends.from != self.ends.to
    }

    /// Returns the gap for the label of a straight arrow: beside the lane where it ends.
    pub fn gap(&self) -> usize {
        if self.ends.from < self.ends.to {
            self.ends.to.saturating_sub(1)
        } else {
            self.ends.to
        }
    }
}

/// How many arrows of each kind a page has, and how many lost sends.
#[derive(Clone, Copy)]
pub struct Counts {
    pub messages: usize,
    pub answers: usize,
    pub words: usize,
    pub lost: usize,
}

impl Counts {
    /// Counts an arrow.
    fn count(&mut self, shown: Shown) {
        match shown {
            Shown::Message(_) => self.messages = self.messages.saturating_add(1),
            Shown::Answer(_) => self.answers = self.answers.saturating_add(1),
            Shown::Word(_) => self.words = self.words.saturating_add(1),
        }
    }

    /// Counts the short line of a note, if there is one.
    fn count_note(&mut self, kind: NoteKind) {
        match kind {
            NoteKind::Comes(shown) | NoteKind::Goes(shown) => self.count(shown),
            NoteKind::Lost => self.lost = self.lost.saturating_add(1),
            NoteKind::Label | NoteKind::State | NoteKind::Mark => {}
        }
    }
}

/// The page.
#[derive(Drop)]
pub struct Plan {
    pub rows: Vec<Row>,
    pub notes: Vec<Note>,
    pub strokes: Vec<Stroke>,
    /// The threads with lanes, the positions of these, and their heads.
    pub threads: Vec<ObjId>,
    pub lanes: Vec<u64>,
    pub heads: Vec<String>,
    /// The priorities of all threads before the first shown line.
    pub priorities: Vec<u8>,
    /// The line before the first shown one, and the heights at which its changes and those of each
    /// later line are drawn, with a row or without.
    pub before: usize,
    pub events: Vec<u64>,
    pub end: u64,
    pub width: u64,
}

impl Plan {
    /// Returns an empty page for these threads and the lines after line `before`.
    pub fn new(alloc: Global, threads: Vec<ObjId>, before: usize) -> Plan {
        Plan {
            rows: Vec::new(alloc),
            notes: Vec::new(alloc),
            strokes: Vec::new(alloc),
            threads,
            lanes: Vec::new(alloc),
            heads: Vec::new(alloc),
            priorities: Vec::new(alloc),
            before,
            events: Vec::new(alloc),
            end: 0,
            width: 0,
        }
    }

    /// The lane of a thread, if it has one.
    pub fn lane_of(&self, thread: ObjId) -> Option<usize> {
        lane_in(&self.threads, thread)
    }

    /// Returns how many arrows of each kind the page has.
    pub fn counts(&self) -> Counts {
        let mut counts = Counts {
            messages: 0,
            answers: 0,
            words: 0,
            lost: 0,
        };
        for stroke in self.strokes.iter() {
            counts.count(stroke.arrow.shown);
        }
        for note in self.notes.iter() {
            counts.count_note(note.kind);
        }
        counts
    }
}
