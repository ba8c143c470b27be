//! The table of threads.
ghost use Rattle.std.specs.Prelude.{◌≡◌, ◌<◌, ◌≤◌, ◌+◌, ◌↔◌, IsSome, IfOk, IfNone, Some, None, length, option_copied, vec_capacity};
ghost use Rattle.mcs_types.specs.declared.id.ObjId.{ObjId};
ghost use Rattle.mcs_types.specs.Ids.{IsThread};
ghost use Rattle.mcs_threads.specs.declared.row.Block.{Block};
ghost use Rattle.mcs_threads.specs.Rows.{new_row, with_notification};

use crate::row::{Block, ThreadRow};
use mcs_objects::{keep, kept_at};
use mcs_types::{Cap, Kind, Mail, Mode, OBJECTS, ObjId, OutOfMemory, Prio, copy_rows, emptied};
use std::alloc::Global;
use std::marker::Model;

/// The threads that were made, at most 256, with serials from 1 (own): the row and the mail of
/// each. All memory is allocated when the table is made.
pub struct Threads {
    rows: Vec<Option<ThreadRow>>,
    mails: Vec<Option<Mail>>,
}

impl Model for Threads {
    ghost use Rattle.std.specs.Prelude.{◌≡◌, ◌≤◌, vec_len, vec_capacity};
    ghost use Rattle.mcs_threads.specs.Tables.{Table};

    ghost Value = { Table };

    ghost view = { λ t. record { rows = t.rows.items; mails = t.mails.items } };

    ghost invariant = { λ t. (vec_len t.mails ≡ vec_len t.rows) × (vec_len t.rows ≤ 256)
        × (256 ≤ vec_capacity t.rows) × (256 ≤ vec_capacity t.mails) };
}

// Written by hand as a separate function: a derived drop would be proved again wherever it is
// dropped.
impl Drop for Threads {
    fn drop(self) {
        let Threads { rows: _, mails: _ } = self;
    }
}

/// Returns a copy of a mail.
fn copied_mail(alloc: Global, mail: &Option<Mail>) -> Result<Option<Mail>, OutOfMemory>
    ensures { IfOk result (λ m. m ≡ mail.now) }
{
    Ok(match mail {
        None => None,
        Some(Mail::Message { badge, message }) => Some(Mail::Message {
            badge: *badge,
            message: message.copy(alloc)?,
        }),
        Some(Mail::Word { word }) => Some(Mail::Word { word: *word }),
    })
}

/// Clones mails, at most 256, with this capacity, in the memory of spare ones.
fn copied_mails(
    alloc: Global,
    spare: Vec<Option<Mail>>,
    mails: &[Option<Mail>],
) -> Result<Vec<Option<Mail>>, OutOfMemory>
    requires { length mails.now ≤ 256 }
    ensures mails { IfOk result (λ v. v.items ≡ mails.now) }
    ensures room { IfOk result (λ v. 256 ≤ vec_capacity v) }
{
    let mut copied = emptied(spare, OBJECTS as usize)?;
    for mail in mails {
        copied.push_reserved(copied_mail(alloc, mail)?);
    }
    Ok(copied)
}

impl Threads {
    ghost use Rattle.mcs_threads.specs.Tables.{made, row_of, mail_of, next_thread, ChangesRow, SameRows, SameMails, SetsRow, SetsMail};

    /// A table with no thread, and the room for 256 (own).
    pub fn new(alloc: Global) -> Result<Threads, OutOfMemory>
        ensures made { IfOk result (λ s. made s ≡ 0) }
        ensures rows { IfOk result (λ s. (t : ObjId) → row_of s t ≡ None) }
        ensures mails { IfOk result (λ s. (t : ObjId) → mail_of s t ≡ None) }
    {
        Ok(Threads {
            rows: Vec::with_capacity(alloc, OBJECTS as usize)?,
            mails: Vec::with_capacity(alloc, OBJECTS as usize)?,
        })
    }

    /// The rows and the mails.
    fn into_parts(self) -> (Vec<Option<ThreadRow>>, Vec<Option<Mail>>) {
        let Threads { rows, mails } = self;
        (rows, mails)
    }

    /// Clones the table in the memory of a spare one. `OutOfMemory` if an allocation fails.
    pub fn copy(&self, alloc: Global, spare: Option<Threads>) -> Result<Threads, OutOfMemory>
        ensures { IfOk result (λ t. t ≡ self.now) }
    {
        let (rows, mails) = match spare {
            Some(spare) => spare.into_parts(),
            None => (Vec::new(alloc), Vec::new(alloc)),
        };
        Ok(Threads {
            rows: copy_rows(rows, self.rows.as_slice(), OBJECTS as usize)?,
            mails: copied_mails(alloc, mails, self.mails.as_slice())?,
        })
    }

    /// Returns how many threads were made, at most 256; closed ones still count (own).
    pub fn made(&self) -> u16
        ensures count { result ≡ made self.now }
        ensures few { result ≤ 256 }
    {
        self.rows.len() as u16
    }

    /// Proves that each existing thread has a serial from 1 to 256 (own).
    pub fn are_few(&self)
        ensures { (t : ObjId) → IsSome (row_of self.now t) → IsThread t }
    {
        let _ = &self.rows;
    }

    /// Makes a thread, and returns its id with the next serial; fewer than 256 must have been made.
    /// Its priority is 0, it is inactive, and has no mail (manual: Threads and Execution).
    pub fn add(&mut self, maximum: Prio, root: Cap) -> ObjId
        requires { made self.old < 256 }
        ensures id { result ≡ next_thread self.old }
        ensures made { made self.new ≡ made self.old + 1 }
        ensures rows { SetsRow self.old self.new result (Some (new_row maximum root)) }
        ensures mails { SameMails self.old self.new }
    {
        let id = ObjId {
            kind: Kind::Thread,
            serial: self.rows.len() as u32 + 1,
        };
        self.rows.push_reserved(Some(ThreadRow::new(maximum, root)));
        self.mails.push_reserved(None);
        id
    }

    /// Returns the row of a thread; None if it does not exist (own).
    pub fn get(&self, id: ObjId) -> Option<&ThreadRow>
        ensures { option_copied result ≡ row_of self.now id }
    {
        kept_at(Kind::Thread, &self.rows, id)
    }

    /// Returns what last reached a thread; None if nothing did, or if it does not exist (manual:
    /// Message Passing).
    pub fn mail(&self, id: ObjId) -> Option<&Mail>
        ensures { option_copied result ≡ mail_of self.now id }
    {
        kept_at(Kind::Thread, &self.mails, id)
    }

    /// Sets or clears the row of an existing thread.
    fn put(&mut self, id: ObjId, row: Option<ThreadRow>)
        requires { IsSome (row_of self.old id) }
        ensures rows { SetsRow self.old self.new id row }
        ensures mails { self.new.mails ≡ self.old.mails }
        ensures made { made self.new ≡ made self.old }
    {
        keep(Kind::Thread, &mut self.rows, id, row);
    }

    /// Sets or clears the mail of an existing thread.
    fn put_mail(&mut self, id: ObjId, mail: Option<Mail>)
        requires { IsSome (row_of self.old id) }
        ensures mails { SetsMail self.old self.new id mail }
        ensures rows { self.new.rows ≡ self.old.rows }
    {
        keep(Kind::Thread, &mut self.mails, id, mail);
    }

    /// Sets the mode of a thread. Returns None, and changes nothing, if it does not exist (manual:
    /// Threads and Execution).
    pub fn set_mode(&mut self, id: ObjId, mode: Mode) -> Option<()>
        ensures found { IsSome result ↔ IsSome (row_of self.old id) }
        ensures changed { ChangesRow (λ r. record r { mode = mode }) self.old self.new id }
        ensures missing { IfNone result (self.new ≡ self.old) }
    {
        let place = id.place(Kind::Thread)?;
        let row = self.rows.get_mut(place)?.as_mut()?;
        row.mode = mode;
        Some(())
    }

    /// Sets the priority of a thread. Returns None like `set_mode` (manual: Threads and Execution).
    pub fn set_prio(&mut self, id: ObjId, priority: Prio) -> Option<()>
        ensures found { IsSome result ↔ IsSome (row_of self.old id) }
        ensures changed { ChangesRow (λ r. record r { priority = priority }) self.old self.new id }
        ensures missing { IfNone result (self.new ≡ self.old) }
    {
        let place = id.place(Kind::Thread)?;
        let row = self.rows.get_mut(place)?.as_mut()?;
        row.priority = priority;
        Some(())
    }

    /// Blocks a thread on a queue or on a reply object, whatever blocked it before. Returns None
    /// like `set_mode` (manual: Message Passing).
    pub fn block(&mut self, id: ObjId, block: Block) -> Option<()>
        ensures found { IsSome result ↔ IsSome (row_of self.old id) }
        ensures changed { ChangesRow (λ r. record r { block = Some block }) self.old self.new id }
        ensures missing { IfNone result (self.new ≡ self.old) }
    {
        let place = id.place(Kind::Thread)?;
        let row = self.rows.get_mut(place)?.as_mut()?;
        row.block = Some(block);
        Some(())
    }

    /// Unblocks a thread. Returns None like `set_mode` (manual: Message Passing).
    pub fn unblock(&mut self, id: ObjId) -> Option<()>
        ensures found { IsSome result ↔ IsSome (row_of self.old id) }
        ensures changed { ChangesRow (λ r. record r { block = None }) self.old self.new id }
        ensures missing { IfNone result (self.new ≡ self.old) }
    {
        let place = id.place(Kind::Thread)?;
        let row = self.rows.get_mut(place)?.as_mut()?;
        row.block = None;
        Some(())
    }

    /// Binds a notification to a thread. Returns None like `set_mode` (manual: Notifications).
    pub fn tie(&mut self, id: ObjId, notification: ObjId) -> Option<()>
        ensures found { IsSome result ↔ IsSome (row_of self.old id) }
        ensures changed { ChangesRow (with_notification (Some notification)) self.old self.new id }
        ensures missing { IfNone result (self.new ≡ self.old) }
    {
        let place = id.place(Kind::Thread)?;
        let row = self.rows.get_mut(place)?.as_mut()?;
        row.notification = Some(notification);
        Some(())
    }

    /// Unbinds the notification of a thread. Returns None like `set_mode` (manual: Notifications).
    pub fn untie(&mut self, id: ObjId) -> Option<()>
        ensures found { IsSome result ↔ IsSome (row_of self.old id) }
        ensures changed { ChangesRow (with_notification None) self.old self.new id }
        ensures missing { IfNone result (self.new ≡ self.old) }
    {
        let place = id.place(Kind::Thread)?;
        let row = self.rows.get_mut(place)?.as_mut()?;
        row.notification = None;
        Some(())
    }

    /// Sets the mail of a thread. Returns None like `set_mode` (manual: Message Passing).
    pub fn set_mail(&mut self, id: ObjId, mail: Mail) -> Option<()>
        ensures found { IsSome result ↔ IsSome (row_of self.old id) }
        ensures mails { IsSome (row_of self.old id) → SetsMail self.old self.new id (Some mail) }
        ensures rows { SameRows self.old self.new }
        ensures made { made self.new ≡ made self.old }
        ensures missing { IfNone result (self.new ≡ self.old) }
    {
        self.get(id)?;
        self.put_mail(id, Some(mail));
        Some(())
    }

    /// Closes a thread: removes its row and its mail. Its serial is never reused. Returns None like
    /// `set_mode` (manual: Kernel Services and Objects).
    pub fn close(&mut self, id: ObjId) -> Option<()>
        ensures found { IsSome result ↔ IsSome (row_of self.old id) }
        ensures rows { SetsRow self.old self.new id None }
        ensures mails { IsSome (row_of self.old id) → SetsMail self.old self.new id None }
        ensures made { made self.new ≡ made self.old }
        ensures missing { IfNone result (self.new ≡ self.old) }
    {
        self.get(id)?;
        self.put_mail(id, None);
        self.put(id, None);
        Some(())
    }
}
