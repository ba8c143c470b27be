//! Makes objects.
ghost use Rattle.std.specs.Prelude.{◌≡◌, ◌<◌, ◌≤◌, true, length, OnOk, OnErr, ◌+◌};
ghost use Rattle.mcs_types.specs.declared.record.Form.{Form};
ghost use Rattle.mcs_types.specs.declared.id.Kind.{Kind};
ghost use Rattle.mcs_book.specs.Logs.{counted};
ghost use Rattle.mcs_book.specs.Objects.{makes_kind};
ghost use Rattle.mcs_state.specs.Now.{so_far};
ghost use Rattle.mcs_state.specs.Tables.{ROOM};
ghost use Rattle.mcs_state.specs.Making.{HasRoom, MayMake, makes_next, is_plain_kind};

use super::State;
use mcs_object_queues::Waiting;
use mcs_types::{Cap, CoreId, Form, Kind, ObjId, OutOfMemory, Prio, Rec};

impl<W: Waiting> State<W> {
    /// Makes an endpoint.
    fn makes_endpoint(&mut self)
        requires allowed { MayMake (so_far self.old) Kind.Endpoint Form.Plain }
        requires few { HasRoom (so_far self.old) Kind.Endpoint }
        requires room { length self.old.hand + 1 < self.old.room }
        ensures { self.new ≡ makes_next Kind.Endpoint Form.Plain self.old }
    {
        let object = self.queues.open(Kind::Endpoint);
        let form = Form::Plain;
        self.book.note(Rec::Made { object, form });
    }

    /// Makes a notification, with its queue and its row.
    fn makes_notification(&mut self)
        requires allowed { MayMake (so_far self.old) Kind.Notification Form.Plain }
        requires few { HasRoom (so_far self.old) Kind.Notification }
        requires room { length self.old.hand + 1 < self.old.room }
        ensures { self.new ≡ makes_next Kind.Notification Form.Plain self.old }
    {
        self.queues.open(Kind::Notification);
        let object = self.notifications.add();
        let form = Form::Plain;
        self.book.note(Rec::Made { object, form });
    }

    /// Makes a reply object.
    fn makes_reply(&mut self)
        requires allowed { MayMake (so_far self.old) Kind.Reply Form.Plain }
        requires few { HasRoom (so_far self.old) Kind.Reply }
        requires room { length self.old.hand + 1 < self.old.room }
        ensures { self.new ≡ makes_next Kind.Reply Form.Plain self.old }
    {
        let object = self.replies.add();
        let form = Form::Plain;
        self.book.note(Rec::Made { object, form });
    }

    /// Makes an endpoint, a notification or a reply object.
    pub fn makes(&mut self, kind: Kind)
        requires plain { is_plain_kind kind ≡ true }
        requires allowed { MayMake (so_far self.old) kind Form.Plain }
        requires few { HasRoom (so_far self.old) kind }
        requires room { length self.old.hand + 1 < self.old.room }
        ensures { self.new ≡ makes_next kind Form.Plain self.old }
    {
        match kind {
            Kind::Endpoint => self.makes_endpoint(),
            Kind::Notification => self.makes_notification(),
            Kind::Reply => self.makes_reply(),
            Kind::CNode | Kind::Thread | Kind::Context => unreachable!(),
        }
    }

    /// Makes a CNode with empty slots. If memory is refused, nothing changes.
    pub fn makes_cnode(&mut self, radix: u8) -> Result<(), OutOfMemory>
        requires allowed { MayMake (so_far self.old) Kind.CNode (Form.Slots radix) }
        requires some { 1 ≤ radix }
        requires few { counted (makes_kind Kind.CNode) (so_far self.old) < 64 }
        requires room { length self.old.hand + 1 < self.old.room }
        ensures made { OnOk result (self.new ≡ makes_next Kind.CNode (Form.Slots radix) self.old) }
        ensures refused { OnErr result (self.new ≡ self.old) }
    {
        self.slots.are_pages();
        let object = ObjId {
            kind: Kind::CNode,
            serial: self.slots.len() as u32 + 1,
        };
        self.slots.add(radix)?;
        let form = Form::Slots { radix };
        self.book.note(Rec::Made { object, form });
        Ok(())
    }

    /// Makes a scheduling context of a core.
    pub fn makes_context(&mut self, core: CoreId)
        requires allowed { MayMake (so_far self.old) Kind.Context (Form.OnCore core) }
        requires few { HasRoom (so_far self.old) Kind.Context }
        requires room { length self.old.hand + 1 < self.old.room }
        ensures { self.new ≡ makes_next Kind.Context (Form.OnCore core) self.old }
    {
        let form = Form::OnCore { core };
        let object = self.contexts.add(core);
        self.book.note(Rec::Made { object, form });
    }

    /// Makes a thread, with its maximum controlled priority and its root.
    pub fn makes_thread(&mut self, maximum: Prio, root: Cap)
        requires allowed { MayMake (so_far self.old) Kind.Thread (Form.Runner maximum root) }
        requires few { counted (makes_kind Kind.Thread) (so_far self.old) < ROOM }
        requires room { length self.old.hand + 1 < self.old.room }
        ensures { self.new ≡ makes_next Kind.Thread (Form.Runner maximum root) self.old }
    {
        let object = self.threads.add(maximum, root.again());
        let form = Form::Runner { maximum, root };
        self.book.note(Rec::Made { object, form });
    }
}
