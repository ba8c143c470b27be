//! The lines of entries: each form once. The room that they ask for is that of any line.
ghost use Rattle.std.specs.Prelude.{◌≡◌, ◌≤◌, ◌+◌, ◌∷◌, ◌++◌, [], length};
ghost use Rattle.std.specs.List.{flat_map};
ghost use Rattle.mcs_trace.specs.Room.{Adds, HasRoom};
ghost use Rattle.mcs_text.specs.Spelling.{then_text, token_text};
ghost use Rattle.mcs_text.specs.Table.{form_text, entrant_form};

use crate::line::Line;
use crate::rooms::{COPIED, LINE};
use mcs_text::{Entrant, Key, Token};
use mcs_types::{Badge, MESSAGE_WORDS, Place, Prio, Rights};

impl Line {
    /// Appends the line of an entry that names one address.
    #[inline(always)]
    #[tactic(auto, unfolding(mcs_text::specs::Spelling::line_text))]
    pub fn address(&mut self, from: Entrant, key: Key, address: u64)
        requires { HasRoom self.old LINE }
        ensures { self.new ≡ self.old ++ form_text (entrant_form from
            (Token.Key key ∷ []) (address ∷ [])) }
    {
        self.head(from, key);
        self.spaced(address);
        self.byte(b'\n');
    }

    /// Appends the line of an entry that names two addresses.
    #[inline(always)]
    #[tactic(auto, unfolding(mcs_text::specs::Spelling::line_text))]
    pub fn addresses(&mut self, from: Entrant, key: Key, first: u64, second: u64)
        requires { HasRoom self.old LINE }
        ensures { self.new ≡ self.old ++ form_text (entrant_form from
            (Token.Key key ∷ []) (first ∷ second ∷ [])) }
    {
        self.head(from, key);
        self.spaced(first);
        self.spaced(second);
        self.byte(b'\n');
    }

    /// Appends the line of an entry that sets a priority.
    #[tactic(auto, unfolding(mcs_text::specs::Spelling::line_text))]
    pub fn priority(&mut self, from: Entrant, thread: u64, authority: u64, priority: Prio)
        requires { HasRoom self.old LINE }
        ensures { self.new ≡ self.old ++ form_text (entrant_form from
            (Token.Key Key.SetPrio ∷ []) (thread ∷ authority ∷ priority.0 ∷ [])) }
    {
        self.head(from, Key::SetPrio);
        self.spaced(thread);
        self.spaced(authority);
        self.spaced(priority.0 as u64);
        self.byte(b'\n');
    }

    /// Appends the line of an entry that sends a message.
    #[inline(always)]
    #[tactic(auto, unfolding(mcs_text::specs::Spelling::line_text))]
    pub fn send(&mut self, from: Entrant, key: Key, cap: u64, label: u64, words: &[u64])
        requires few { length words.now ≤ MESSAGE_WORDS }
        requires room { HasRoom self.old LINE }
        ensures { self.new ≡ self.old ++ form_text (entrant_form from
            (Token.Key key ∷ []) (cap ∷ label ∷ words.now)) }
    {
        self.head(from, key);
        self.spaced(cap);
        self.message(label, words);
        self.byte(b'\n');
    }

    /// Appends the line of an entry that sends and receives, over two addresses.
    #[inline(always)]
    #[tactic(auto, unfolding(mcs_text::specs::Spelling::line_text))]
    pub fn send_receive(
        &mut self,
        from: Entrant,
        key: Key,
        first: u64,
        second: u64,
        label: u64,
        words: &[u64],
    )
        requires few { length words.now ≤ MESSAGE_WORDS }
        requires room { HasRoom self.old LINE }
        ensures { self.new ≡ self.old ++ form_text (entrant_form from
            (Token.Key key ∷ []) (first ∷ second ∷ label ∷ words.now)) }
    {
        self.head(from, key);
        self.spaced(first);
        self.spaced(second);
        self.message(label, words);
        self.byte(b'\n');
    }

    /// Appends the line of an entry that sends, and receives with a reply object.
    #[inline(always)]
    #[tactic(auto, unfolding(mcs_text::specs::Spelling::line_text))]
    pub fn exchange(
        &mut self,
        from: Entrant,
        cap: u64,
        source: u64,
        reply: u64,
        label: u64,
        words: &[u64],
    )
        requires few { length words.now ≤ MESSAGE_WORDS }
        requires room { HasRoom self.old LINE }
        ensures { self.new ≡ self.old ++ form_text (entrant_form from
            (Token.Key Key.NbSendRecv ∷ []) (cap ∷ source ∷ reply ∷ label ∷ words.now)) }
    {
        self.head(from, Key::NbSendRecv);
        self.spaced(cap);
        self.spaced(source);
        self.spaced(reply);
        self.message(label, words);
        self.byte(b'\n');
    }

    /// Appends the line of an entry that makes an object.
    #[tactic(auto, unfolding(mcs_text::specs::Spelling::line_text))]
    pub fn make(&mut self, from: Entrant, key: Key, place: Place)
        requires { HasRoom self.old LINE }
        ensures { self.new ≡ self.old ++ form_text (entrant_form from
            (Token.Key Key.Make ∷ Token.Key key ∷ Token.Place place ∷ []) ([])) }
    {
        self.head(from, Key::Make);
        self.spaced_word(&Token::Key(key));
        self.spaced_word(&Token::Place(place));
        self.byte(b'\n');
    }

    /// Appends the words of an entry that copies a capability: the source, the destination, and the
    /// rights.
    // inlined, as a single place is, so that places stay in registers
    #[inline(always)]
    fn copied(&mut self, from: Entrant, key: Key, places: (Place, Place), rights: Rights)
        requires { HasRoom self.old COPIED }
        ensures { Adds self.old self.new COPIED
            (token_text (Token.Number from.core.0) ++ flat_map (λ t. then_text (token_text t))
            (Token.Name from.thread ∷ Token.Key key ∷ Token.Place places.0 ∷ Token.Place places.1
            ∷ Token.Rights rights ∷ [])) }
    {
        self.head(from, key);
        self.spaced_word(&Token::Place(places.0));
        self.spaced_word(&Token::Place(places.1));
        self.spaced_word(&Token::Rights(rights));
    }

    /// Appends the line of an entry that copies a capability.
    #[tactic(auto, unfolding(mcs_text::specs::Spelling::line_text))]
    pub fn copy(&mut self, from: Entrant, places: (Place, Place), rights: Rights)
        requires { HasRoom self.old LINE }
        ensures { self.new ≡ self.old ++ form_text (entrant_form from
            (Token.Key Key.Copy ∷ Token.Place places.0 ∷ Token.Place places.1
            ∷ Token.Rights rights ∷ []) ([])) }
    {
        self.copied(from, Key::Copy, places, rights);
        self.byte(b'\n');
    }

    /// Appends the line of an entry that mints a capability.
    #[tactic(auto, unfolding(mcs_text::specs::Spelling::line_text))]
    pub fn mint(&mut self, from: Entrant, places: (Place, Place), rights: Rights, badge: Badge)
        requires { HasRoom self.old LINE }
        ensures { self.new ≡ self.old ++ form_text (entrant_form from
            (Token.Key Key.Mint ∷ Token.Place places.0 ∷ Token.Place places.1
            ∷ Token.Rights rights ∷ []) (badge.0 ∷ [])) }
    {
        self.copied(from, Key::Mint, places, rights);
        self.spaced(badge.0);
        self.byte(b'\n');
    }

    /// Appends the line of an entry that moves a capability.
    #[tactic(auto, unfolding(mcs_text::specs::Spelling::line_text))]
    pub fn move_cap(&mut self, from: Entrant, source: Place, dest: Place)
        requires { HasRoom self.old LINE }
        ensures { self.new ≡ self.old ++ form_text (entrant_form from
            (Token.Key Key.Move ∷ Token.Place source ∷ Token.Place dest ∷ []) ([])) }
    {
        self.head(from, Key::Move);
        self.spaced_word(&Token::Place(source));
        self.spaced_word(&Token::Place(dest));
        self.byte(b'\n');
    }

    /// Appends the line of an entry that deletes a capability.
    #[tactic(auto, unfolding(mcs_text::specs::Spelling::line_text))]
    pub fn delete(&mut self, from: Entrant, place: Place)
        requires { HasRoom self.old LINE }
        ensures { self.new ≡ self.old ++ form_text (entrant_form from
            (Token.Key Key.Delete ∷ Token.Place place ∷ []) ([])) }
    {
        self.head(from, Key::Delete);
        self.spaced_word(&Token::Place(place));
        self.byte(b'\n');
    }
}
