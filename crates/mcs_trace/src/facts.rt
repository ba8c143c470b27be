//! The lines of answers and records: each form once. The room that they ask for is that of any
//! line. Those of most lines are inlined where the trace is written; those that come seldom are
//! not, since a function takes in only so much.
ghost use Rattle.std.specs.Prelude.{◌≡◌, ◌≤◌, ◌+◌, ◌∷◌, ◌++◌, [], IfSome, length};
ghost use Rattle.mcs_trace.specs.Room.{Adds, HasRoom};
ghost use Rattle.mcs_trace.specs.Reading.{IsMessageText};
ghost use Rattle.mcs_text.specs.Spelling.{then_text, token_text};
ghost use Rattle.mcs_text.specs.Table.{form, how_key, end_key, joins_form, form_text, fact_text, record_text};

use crate::line::Line;
use crate::read_lines::Wording;
use crate::rooms::{LINE, WORD};
use mcs_text::{Key, Token};
use mcs_types::{Cap, Ending, MESSAGE_WORDS, Mode, ObjId, Queue, Rec, SendMode};

impl Line {
    /// Appends a line of one word.
    #[inline(always)]
    #[tactic(auto, unfolding(mcs_text::specs::Spelling::line_text))]
    pub fn bare(&mut self, key: Key)
        requires { HasRoom self.old LINE }
        ensures { self.new ≡ self.old ++ form_text (form (Token.Key key) [] []) }
    {
        self.key(key);
        self.byte(b'\n');
    }

    /// Appends a line of one number.
    #[inline(always)]
    #[tactic(auto, unfolding(mcs_text::specs::Spelling::line_text))]
    pub fn numbered(&mut self, key: Key, number: u64)
        requires { HasRoom self.old LINE }
        ensures { self.new ≡ self.old ++ form_text (form (Token.Key key) [] (number ∷ [])) }
    {
        self.key(key);
        self.spaced(number);
        self.byte(b'\n');
    }

    /// Appends the line of a message that was received.
    #[inline(always)]
    #[tactic(auto, unfolding(mcs_text::specs::Spelling::line_text))]
    pub fn got(&mut self, badge: u64, label: u64, words: &[u64])
        requires few { length words.now ≤ MESSAGE_WORDS }
        requires room { HasRoom self.old LINE }
        ensures { self.new ≡ self.old ++ form_text (form (Token.Key Key.Got) []
            (badge ∷ label ∷ words.now)) }
    {
        self.key(Key::Got);
        self.spaced(badge);
        self.message(label, words);
        self.byte(b'\n');
    }

    /// Appends a record that names one object.
    #[inline(always)]
    #[tactic(auto, unfolding(mcs_text::specs::Spelling::line_text))]
    pub fn named(&mut self, key: Key, object: ObjId)
        requires { HasRoom self.old LINE }
        ensures { self.new ≡ self.old ++ fact_text (Token.Key key) (Token.Name object ∷ []) }
    {
        self.key(key);
        self.spaced_name(object);
        self.byte(b'\n');
    }

    /// Appends a record that names an object, and another or none.
    #[inline(always)]
    #[tactic(auto, unfolding(mcs_text::specs::Spelling::line_text))]
    pub fn bound(&mut self, key: Key, object: ObjId, other: Option<ObjId>)
        requires { HasRoom self.old LINE }
        ensures { self.new ≡ self.old ++ fact_text (Token.Key key)
            (Token.Name object ∷ Token.Maybe other ∷ []) }
    {
        self.key(key);
        self.spaced_name(object);
        self.spaced_maybe(other);
        self.byte(b'\n');
    }

    /// Appends a record that names a thread and its queue.
    #[inline(always)]
    #[tactic(auto, unfolding(mcs_text::specs::Spelling::line_text))]
    pub fn stands(&mut self, key: Key, thread: ObjId, queue: Queue)
        requires { HasRoom self.old LINE }
        ensures { self.new ≡ self.old ++ fact_text (Token.Key key)
            (Token.Name thread ∷ Token.Line queue ∷ []) }
    {
        self.key(key);
        self.spaced_name(thread);
        self.spaced_queue(queue);
        self.byte(b'\n');
    }

    /// Appends the record of a message that was taken.
    #[inline(always)]
    #[tactic(auto, unfolding(mcs_text::specs::Spelling::line_text))]
    pub fn took(&mut self, message: u32, thread: ObjId)
        requires { HasRoom self.old LINE }
        ensures { self.new ≡ self.old ++ fact_text (Token.Key Key.Took)
            (Token.Message message ∷ Token.Name thread ∷ []) }
    {
        self.key(Key::Took);
        self.spaced_message(message as u128);
        self.spaced_name(thread);
        self.byte(b'\n');
    }

    /// Appends the record of a message that was dropped.
    #[tactic(auto, unfolding(mcs_text::specs::Spelling::line_text))]
    pub fn dropped(&mut self, message: u32)
        requires { HasRoom self.old LINE }
        ensures { self.new ≡ self.old ++ fact_text (Token.Key Key.Dropped)
            (Token.Message message ∷ []) }
    {
        self.key(Key::Dropped);
        self.spaced_message(message as u128);
        self.byte(b'\n');
    }

    /// Appends the record of a caller that is owed an answer, with the context that it brought
    /// along, if it brought one.
    #[inline(always)]
    #[tactic(auto, unfolding(mcs_text::specs::Spelling::line_text))]
    pub fn owes(&mut self, reply: ObjId, caller: ObjId, context: Option<ObjId>)
        requires { HasRoom self.old LINE }
        ensures { self.new ≡ self.old ++ fact_text (Token.Key Key.Owes)
            (Token.Name reply ∷ Token.Name caller ∷ Token.Maybe context ∷ []) }
    {
        self.key(Key::Owes);
        self.spaced_name(reply);
        self.spaced_name(caller);
        self.spaced_maybe(context);
        self.byte(b'\n');
    }

    /// Appends the record of a debt that ended without an answer.
    #[tactic(auto, unfolding(mcs_text::specs::Spelling::line_text))]
    pub fn void(&mut self, reply: ObjId, caller: ObjId, ending: Ending)
        requires { HasRoom self.old LINE }
        ensures { self.new ≡ self.old ++ fact_text (Token.Key Key.Void)
            (Token.Name reply ∷ Token.Name caller ∷ end_key ending ∷ []) }
    {
        self.key(Key::Void);
        self.spaced_name(reply);
        self.spaced_name(caller);
        match ending {
            Ending::Deleted => self.spaced_key(Key::Deleted),
            Ending::Cancelled => self.spaced_key(Key::Cancelled),
        }
        self.byte(b'\n');
    }

    /// Appends the record of what a slot of a CNode holds.
    #[inline(always)]
    #[tactic(auto, unfolding(mcs_text::specs::Spelling::line_text))]
    pub fn slot(&mut self, cnode: ObjId, index: u8, cap: Option<Cap>)
        requires { HasRoom self.old LINE }
        ensures { self.new ≡ self.old ++ fact_text (Token.Key Key.SlotIs)
            (Token.Name cnode ∷ Token.Number index ∷ Token.Held cap ∷ []) }
    {
        self.key(Key::SlotIs);
        self.spaced_name(cnode);
        self.spaced(index as u64);
        self.byte(b' ');
        self.held(&cap);
        self.byte(b'\n');
    }

    /// Appends a record that names an object and a number.
    #[tactic(auto, unfolding(mcs_text::specs::Spelling::line_text))]
    pub fn object_number(&mut self, key: Key, object: ObjId, number: u64)
        requires { HasRoom self.old LINE }
        ensures { self.new ≡ self.old ++ form_text (form (Token.Key key)
            (Token.Name object ∷ []) (number ∷ [])) }
    {
        self.key(key);
        self.spaced_name(object);
        self.spaced(number);
        self.byte(b'\n');
    }

    /// Appends the record of the mode of a thread.
    #[inline(always)]
    #[tactic(auto, unfolding(mcs_text::specs::Spelling::line_text))]
    pub fn turns(&mut self, thread: ObjId, mode: Mode)
        requires { HasRoom self.old LINE }
        ensures { self.new ≡ self.old ++ record_text 0 (Rec.Turns thread mode) }
    {
        self.key(Key::Turns);
        self.spaced_name(thread);
        match mode {
            Mode::Running => self.spaced_key(Key::Running),
            Mode::Restart => self.spaced_key(Key::Restart),
            Mode::Inactive => self.spaced_key(Key::Inactive),
        }
        self.byte(b'\n');
    }

    /// Appends a space, and how a message was sent.
    #[inline(always)]
    fn how(&mut self, mode: SendMode)
        requires { HasRoom self.old (1 + WORD) }
        ensures { Adds self.old self.new (1 + WORD) (then_text (token_text (how_key mode))) }
    {
        match mode {
            SendMode::Plain => self.spaced_key(Key::Send),
            SendMode::Call => self.spaced_key(Key::Call),
            SendMode::Mute => self.spaced_key(Key::Mute),
            SendMode::Give => self.spaced_key(Key::Give),
        }
    }

    /// Appends the record of a message that was sent.
    #[inline(always)]
    #[tactic(auto, unfolding(mcs_text::specs::Spelling::line_text))]
    pub fn sent(
        &mut self,
        sent: u128,
        between: (ObjId, ObjId),
        mode: SendMode,
        badge: u64,
        message: Wording<'_>,
    )
        requires few { length message.words.now ≤ MESSAGE_WORDS }
        requires text { IfSome message.text
            (λ t. IsMessageText t.now message.label message.words.now) }
        requires room { HasRoom self.old LINE }
        ensures { self.new ≡ self.old ++ form_text (form (Token.Key Key.Sent)
            (Token.Message sent ∷ Token.Name between.0 ∷ Token.Name between.1 ∷ how_key mode ∷ [])
            (badge ∷ message.entry.label ∷ message.entry.words.now)) }
    {
        self.key(Key::Sent);
        self.spaced_message(sent);
        self.spaced_name(between.0);
        self.spaced_name(between.1);
        self.how(mode);
        self.spaced(badge);
        self.message_or_text(message);
        self.byte(b'\n');
    }

    /// Appends the record of an answer to a caller.
    #[inline(always)]
    #[tactic(auto, unfolding(mcs_text::specs::Spelling::line_text))]
    pub fn paid(&mut self, reply: ObjId, caller: ObjId, message: Wording<'_>)
        requires few { length message.words.now ≤ MESSAGE_WORDS }
        requires text { IfSome message.text
            (λ t. IsMessageText t.now message.label message.words.now) }
        requires room { HasRoom self.old LINE }
        ensures { self.new ≡ self.old ++ form_text (form (Token.Key Key.Paid)
            (Token.Name reply ∷ Token.Name caller ∷ [])
            (message.entry.label ∷ message.entry.words.now)) }
    {
        self.key(Key::Paid);
        self.spaced_name(reply);
        self.spaced_name(caller);
        self.message_or_text(message);
        self.byte(b'\n');
    }

    /// Appends the record of a word that was heard.
    #[inline(always)]
    #[tactic(auto, unfolding(mcs_text::specs::Spelling::line_text))]
    pub fn heard(&mut self, thread: ObjId, notification: ObjId, word: u64)
        requires { HasRoom self.old LINE }
        ensures { self.new ≡ self.old ++ record_text 0 (Rec.Heard thread notification word) }
    {
        self.key(Key::Heard);
        self.spaced_name(thread);
        self.spaced_name(notification);
        self.spaced(word);
        self.byte(b'\n');
    }

    /// Appends the record of a receiver that joins a queue with its reply object.
    #[inline(always)]
    #[tactic(auto, unfolding(mcs_text::specs::Spelling::line_text))]
    fn receiver(&mut self, thread: ObjId, queue: Queue, reply: Option<ObjId>)
        requires { HasRoom self.old LINE }
        ensures { self.new ≡ self.old ++ fact_text (Token.Key Key.Joins)
            (Token.Name thread ∷ Token.Line queue ∷ Token.Maybe reply ∷ []) }
    {
        self.key(Key::Joins);
        self.spaced_name(thread);
        self.spaced_queue(queue);
        self.spaced_maybe(reply);
        self.byte(b'\n');
    }

    /// Appends the record of a thread that joins a queue.
    #[inline(always)]
    pub fn joins(&mut self, thread: ObjId, queue: Queue, reply: Option<ObjId>)
        requires { HasRoom self.old LINE }
        ensures { self.new ≡ self.old ++ form_text (joins_form thread queue reply) }
    {
        match queue {
            Queue::Receivers(_) => self.receiver(thread, queue, reply),
            Queue::Senders(_) | Queue::Waiters(_) => {
                self.stands(Key::Joins, thread, queue);
            }
        }
    }
}
