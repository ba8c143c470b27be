//! The words of a line.
ghost use Rattle.std.specs.Prelude.{◌≡◌, ◌≤◌, ◌+◌, ◌∷◌, [], ◌++◌, length, decimal};
ghost use Rattle.std.specs.List.{flat_map};
ghost use Rattle.mcs_trace.specs.Room.{Adds, HasRoom};
ghost use Rattle.mcs_text.specs.Keys.{key_text};
ghost use Rattle.mcs_text.specs.Spelling.{name_text, maybe_text, letter_if, rights_letters, rights_text, then_text, place_text, cap_rest, cap_text, held_text, queue_name, queue_end, queue_text, token_text};

use crate::line::Line;
use crate::rooms::{CAP, COUNT, HEAD, KEY, NAME, PLACE, QUEUE, RIGHTS, WORD};
use mcs_text::{Entrant, Key, Token, letter};
use mcs_types::{Cap, Kind, ObjId, Place, Queue, Rights};

impl Line {
    /// Appends the name of an object.
    #[inline(always)]
    pub fn name(&mut self, o: ObjId)
        requires { HasRoom self.old NAME }
        ensures { Adds self.old self.new NAME (name_text o) }
    {
        self.byte(letter(o.kind));
        self.number(o.serial as u64);
    }

    /// Appends a space and the name.
    #[inline(always)]
    pub fn spaced_name(&mut self, o: ObjId)
        requires { HasRoom self.old (1 + NAME) }
        ensures { Adds self.old self.new (1 + NAME) (then_text (name_text o)) }
    {
        self.byte(b' ');
        self.name(o);
    }

    /// Appends a fixed word.
    // without the table of all keys its callers stay small, so that common records are inlined
    #[inline]
    pub fn key(&mut self, key: Key)
        requires { HasRoom self.old KEY }
        ensures { Adds self.old self.new KEY (key_text key) }
    {
        self.few_bytes(key.text());
    }

    /// Appends a space and the fixed word.
    #[inline(always)]
    pub fn spaced_key(&mut self, key: Key)
        requires { HasRoom self.old (1 + KEY) }
        ensures { Adds self.old self.new (1 + KEY) (then_text (key_text key)) }
    {
        self.byte(b' ');
        self.key(key);
    }

    /// Appends the letter of a flag, if the rights have it.
    #[inline(always)]
    fn letter_if(&mut self, flag: u8, letter: u8, rights: Rights)
        requires { HasRoom self.old 1 }
        ensures { Adds self.old self.new 1 (letter_if flag letter rights) }
    {
        if rights.bits() & flag != 0 {
            self.byte(letter);
        }
    }

    /// Appends rights, or a dash for none.
    #[tactic(auto, unfolding(mcs_text::specs::Spelling::rights_text))]
    pub fn rights(&mut self, rights: Rights)
        requires { HasRoom self.old RIGHTS }
        ensures { Adds self.old self.new RIGHTS (rights_text rights) }
    {
        if rights.bits() == 0 {
            self.byte(b'-');
            return;
        }
        self.letter_if(2, b'r', rights);
        self.letter_if(1, b'w', rights);
        self.letter_if(4, b'g', rights);
        self.letter_if(8, b'p', rights);
    }

    /// Appends a place: an index and a depth.
    pub fn place(&mut self, place: Place)
        requires { HasRoom self.old PLACE }
        ensures { Adds self.old self.new PLACE (place_text place) }
    {
        self.number(place.index);
        self.spaced(place.depth as u64);
    }

    /// Appends a word. For a known kind of word the compiler keeps only that arm.
    // long words are calls: the compiler does not inline a function that grows too large, even on
    // request
    #[inline(always)]
    pub fn word(&mut self, token: &Token)
        requires { HasRoom self.old WORD }
        ensures { Adds self.old self.new WORD (token_text token.now) }
    {
        match token {
            Token::Key(key) => self.key(*key),
            Token::Number(n) => self.number(*n),
            Token::Name(o) => self.name(*o),
            Token::Maybe(o) => self.maybe(*o),
            Token::Message(m) => self.message_name(*m),
            Token::Rights(rights) => self.rights(*rights),
            Token::Place(place) => self.place(*place),
            Token::Cap(cap) => self.held(&Some(*cap)),
            Token::Held(cap) => self.held(cap),
            Token::Line(queue) => self.queue(*queue),
        }
    }

    /// Appends a space and the word.
    #[inline(always)]
    pub fn spaced_word(&mut self, token: &Token)
        requires { HasRoom self.old (1 + WORD) }
        ensures { Adds self.old self.new (1 + WORD) (then_text (token_text token.now)) }
    {
        self.byte(b' ');
        self.word(token);
    }

    /// Appends a name or a dash.
    #[inline(always)]
    fn maybe(&mut self, o: Option<ObjId>)
        requires { HasRoom self.old NAME }
        ensures { Adds self.old self.new NAME (maybe_text o) }
    {
        match o {
            None => self.byte(b'-'),
            Some(o) => self.name(o),
        }
    }

    /// Appends a space, and a name or a dash.
    #[inline(always)]
    pub fn spaced_maybe(&mut self, o: Option<ObjId>)
        requires { HasRoom self.old (1 + NAME) }
        ensures { Adds self.old self.new (1 + NAME) (then_text (maybe_text o)) }
    {
        self.byte(b' ');
        self.maybe(o);
    }

    /// Appends the name of a message.
    #[inline(always)]
    fn message_name(&mut self, number: u128)
        requires { HasRoom self.old (1 + COUNT) }
        ensures { Adds self.old self.new (1 + COUNT) (109 ∷ decimal number) }
    {
        self.byte(b'm');
        self.count(number);
    }

    /// Appends a space and the name of a message.
    #[inline(always)]
    pub fn spaced_message(&mut self, number: u128)
        requires { HasRoom self.old (2 + COUNT) }
        ensures { Adds self.old self.new (2 + COUNT) (then_text (109 ∷ decimal number)) }
    {
        self.byte(b' ');
        self.message_name(number);
    }

    /// Appends a capability or a dash.
    pub fn held(&mut self, cap: &Option<Cap>)
        requires { HasRoom self.old CAP }
        ensures { Adds self.old self.new CAP (held_text cap.now) }
    {
        match cap {
            None => self.byte(b'-'),
            Some(cap) => self.cap(cap),
        }
    }

    /// Appends a queue: the object, and which of its queues.
    #[inline(always)]
    fn queue(&mut self, queue: Queue)
        requires { HasRoom self.old QUEUE }
        ensures { Adds self.old self.new QUEUE (queue_text queue) }
    {
        let (o, suffix) = match queue {
            Queue::Senders(o) => (o, b".send"),
            Queue::Receivers(o) => (o, b".recv"),
            Queue::Waiters(o) => (o, b".wait"),
        };
        self.name(o);
        self.few_bytes(suffix);
    }

    /// Appends a space and the queue.
    #[inline(always)]
    pub fn spaced_queue(&mut self, queue: Queue)
        requires { HasRoom self.old (1 + QUEUE) }
        ensures { Adds self.old self.new (1 + QUEUE) (then_text (queue_text queue)) }
    {
        self.byte(b' ');
        self.queue(queue);
    }

    /// Appends a capability.
    #[inline(always)]
    pub fn cap(&mut self, cap: &Cap)
        requires { HasRoom self.old CAP }
        ensures { Adds self.old self.new CAP (cap_text cap.now) }
    {
        self.name(cap.obj);
        match cap.obj.kind {
            Kind::CNode => {
                self.spaced(cap.guard.bits as u64);
                self.spaced(cap.guard.value);
            }
            Kind::Endpoint | Kind::Notification => {
                self.byte(b' ');
                self.rights(cap.rights);
                self.spaced(cap.badge.0);
            }
            Kind::Thread | Kind::Reply | Kind::Context => {}
        }
    }

    /// Appends the words with which the line of an entry begins.
    #[inline(always)]
    pub fn head(&mut self, from: Entrant, key: Key)
        requires { HasRoom self.old HEAD }
        ensures { Adds self.old self.new HEAD
            (decimal from.core.0 ++ then_text (name_text from.thread) ++ then_text (key_text key)) }
    {
        self.number(from.core.0 as u64);
        self.spaced_name(from.thread);
        self.byte(b' ');
        self.key(key);
    }
}
