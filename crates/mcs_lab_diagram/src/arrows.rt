//! The arrows of a picture: each message from its sender to its taker, each reply, and each word
//! from the thread that raised its notification last to the one that heard it.
ghost use Rattle.std.specs.Prelude.{◌≡◌, ◌≤◌, ◌-◌, ◌++◌, None, IfOk, OnOk, length, replicate, take};
ghost use Rattle.mcs_lab_diagram.specs.Arrows.{beside, no_strokes, raise_of, raised_with, start_of, with_arrow, with_raise, with_record, with_records};

use mcs_book::Line;
use mcs_packing::KeptRecord;
use mcs_types::{ObjId, Rec};
use std::alloc::{AllocError, Global};
use std::marker::Model;

/// A thread in a row: the row of a line of the book, by its number.
#[derive(Clone, Copy)]
pub struct Point {
    pub row: usize,
    pub thread: ObjId,
}

/// What an arrow shows.
#[derive(Clone, Copy)]
pub enum Shown {
    /// The message of this number.
    Message(u32),
    /// An answer by this reply object.
    Answer(ObjId),
    /// The word of this notification.
    Word(ObjId),
}

/// An arrow.
#[derive(Clone, Copy)]
pub struct Arrow {
    pub shown: Shown,
    pub from: Point,
    pub to: Point,
}

/// Where each message was sent, where each notification was last raised, by its serial, and the
/// arrows, in the order of their records.
#[derive(Drop)]
pub struct Strokes {
    sent: Vec<Point>,
    raised: Vec<Option<Point>>,
    arrows: Vec<Arrow>,
}

impl Model for Strokes {
    ghost use Rattle.mcs_lab_diagram.specs.Arrows.{Strokes};

    ghost Value = { Strokes };

    ghost view = { λ s. record {
      sent = s.sent.items;
      raised = s.raised.items;
      arrows = s.arrows.items;
    } };
}

/// Returns the point of a thread in the row of another point.
fn beside(here: Point, thread: ObjId) -> Point
    ensures { result ≡ beside here thread }
{
    Point {
        row: here.row,
        thread,
    }
}

/// Lengthens a list to `count` items.
fn lengthen(raised: &mut Vec<Option<Point>>, count: usize) -> Result<(), AllocError>
    ensures { OnOk result (raised.new.items ≡ take count raised.old.items
        ++ replicate (count - length raised.old.items) None) }
{
    raised.resize(count, None)?;
    Ok(())
}

/// Appends where the notification of a new serial was raised.
#[tactic(auto, using(crate::proofs::RaiseLaws::raised_beyond))]
fn add_raised(raised: &mut Vec<Option<Point>>, serial: u32, here: Point) -> Result<(), AllocError>
    requires { length raised.old.items ≤ serial }
    ensures { OnOk result (raised.new.items ≡ raised_with raised.old.items serial here) }
{
    lengthen(raised, serial as usize)?;
    raised.push(Some(here))?;
    Ok(())
}

/// Sets where the notification of a serial was raised.
#[tactic(auto, using(crate::proofs::RaiseLaws::raised_within))]
fn write_raised(raised: &mut Vec<Option<Point>>, serial: u32, here: Point) -> Result<(), AllocError>
    ensures { OnOk result (raised.new.items ≡ raised_with raised.old.items serial here) }
{
    let place = serial as usize;
    if place < raised.len() {
        raised[place] = Some(here);
        return Ok(());
    }
    add_raised(raised, serial, here)
}

impl Strokes {
    /// Returns an empty list of arrows.
    pub fn new(alloc: Global) -> Strokes
        ensures { result ≡ no_strokes }
    {
        Strokes {
            sent: Vec::new(alloc),
            raised: Vec::new(alloc),
            arrows: Vec::new(alloc),
        }
    }

    /// Returns where a message was sent; `here` if it was not sent.
    pub fn start_of(&self, here: Point, message: u32) -> Point
        ensures { result ≡ start_of self.now here message }
    {
        match self.sent.get(message as usize) {
            Some(point) => *point,
            None => here,
        }
    }

    /// Returns where a notification was last raised; `here` if it was not raised.
    fn raise_of(&self, here: Point, notification: ObjId) -> Point
        ensures { result ≡ raise_of self.now here notification }
    {
        match self.raised.get(notification.serial as usize) {
            Some(Some(point)) => *point,
            Some(None) | None => here,
        }
    }

    /// The arrows, in the order of their records.
    pub fn arrows(&self) -> &[Arrow]
        ensures { result.now ≡ self.now.arrows }
    {
        &self.arrows
    }

    /// Adds an arrow.
    fn add(&mut self, shown: Shown, from: Point, to: Point) -> Result<(), AllocError>
        ensures { OnOk result (self.new ≡ with_arrow self.old shown from to) }
    {
        self.arrows.push(Arrow { shown, from, to })?;
        Ok(())
    }

    /// Notes that a notification is raised here.
    fn add_raise(&mut self, notification: ObjId, here: Point) -> Result<(), AllocError>
        ensures { OnOk result (self.new ≡ with_raise self.old notification here) }
    {
        write_raised(&mut self.raised, notification.serial, here)
    }

    /// Adds the arrow of a record, if it has one, in the row in which this thread enters.
    pub fn add_record(&mut self, here: Point, fact: &Rec) -> Result<(), AllocError>
        ensures { OnOk result (self.new ≡ with_record here self.old fact.now) }
    {
        match fact {
            Rec::Sent { sender, .. } => {
                self.sent.push(beside(here, *sender))?;
                Ok(())
            }
            Rec::Took { message, thread } => {
                let from = self.start_of(here, *message);
                self.add(Shown::Message(*message), from, beside(here, *thread))
            }
            Rec::Paid { reply, caller, .. } => {
                self.add(Shown::Answer(*reply), here, beside(here, *caller))
            }
            Rec::Heard {
                thread,
                notification,
                ..
            } => {
                let from = self.raise_of(here, *notification);
                self.add(Shown::Word(*notification), from, beside(here, *thread))
            }
            Rec::Raised { notification, .. } => self.add_raise(*notification, here),
            _ => Ok(()),
        }
    }

    /// Adds the arrow of a packed record, if it has one.
    fn add_kept(
        &mut self,
        alloc: Global,
        here: Point,
        kept: &KeptRecord<'_>,
    ) -> Result<(), AllocError>
        ensures { OnOk result (self.new ≡ with_record here self.old kept.now) }
    {
        match kept.unpack(alloc) {
            Ok(fact) => self.add_record(here, &fact),
            Err(_) => Err(AllocError),
        }
    }

    /// Adds the arrows of a line's records, in the row in which this thread enters.
    #[tactic(auto, using(crate::proofs::StrokeLaws::with_records_at))]
    pub fn add_line(
        &mut self,
        alloc: Global,
        here: Point,
        line: &Line<'_>,
    ) -> Result<(), AllocError>
        ensures { OnOk result (self.new ≡ with_records here self.old line.now.records) }
    {
        for i in 0..line.record_count() {
            match line.kept_record(i) {
                Some(kept) => self.add_kept(alloc, here, &kept)?,
                None => unreachable!(),
            }
        }
        Ok(())
    }
}
