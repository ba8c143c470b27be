//! The forms of lines, as the programs show them; they also name the words of lines.
use mcs_text::{Lines, Words};

/// The forms of the lines of scripts and traces. In a step, `@` marks an address and `%` an index
/// that its depth follows; both name a capability of the thread's space. A word that ends in `..`
/// may repeat.
pub const FORMS: &str = "\
The boot:
  cores count
  cnode radix
  endpoint
  notification
  reply
  context core
  thread priority maximum cnode guard_bits guard mode context
  slot cnode index capability..
  tie thread notification

Steps, each behind a core and a thread:
  send @address label words..
  nbsend @address label words..
  call @address label words..
  recv @address @reply
  nbrecv @address @reply
  wait @address
  nbwait @address
  replyrecv @address @reply label words..
  nbsendrecv @address @source @reply label words..
  nbsendwait @address @source label words..
  signal @address
  setprio @thread @authority priority
  suspend @thread
  resume @thread
  bindntfn @thread @notification
  unbindntfn @thread
  bind @context @thread
  unbind @context
  cancel @endpoint
  copy %source source_depth %destination destination_depth rights
  mint %source source_depth %destination destination_depth rights badge
  move %source source_depth %destination destination_depth
  delete %place depth
  make kind %place depth

Answers:
  = done
  = got badge label words..
  = heard word
  = empty
  = waits
  = refused reason

Records:
  + made object
  + closed object
  + slot cnode index capability..
  + prio thread priority
  + turns thread mode
  + joins thread queue reply
  + parts thread queue
  + sent message thread endpoint mode badge label words..
  + took message thread
  + dropped message
  + owes reply thread context
  + paid reply thread label words..
  + void reply thread ending
  + holds context thread
  + raised notification badge
  + heard thread notification word
  + tied thread notification
  + homed context notification
";

/// The name of a word in a form.
#[derive(Clone, Copy)]
pub struct Field<'a> {
    /// How it names something in the thread's space.
    pub looks_up: LooksUp,
    /// Whether it may repeat to the end of the line.
    pub is_last: bool,
    pub name: &'a [u8],
}

impl<'a> Field<'a> {
    /// Returns whether it names something in the thread's space.
    pub fn is_looked_up(&self) -> bool {
        self.looks_up != LooksUp::Nothing
    }
}

/// How the kernel looks up a number of a step in the thread's space: not at all, as an address, or
/// as an index with a depth.
#[derive(Clone, Copy, PartialEq, Eq)]
pub enum LooksUp {
    Nothing,
    Address,
    /// An index; the next number is its depth.
    Place,
}

/// The remaining words of a form.
#[derive(Drop)]
pub struct Fields<'a> {
    words: Words<'a>,
}

impl<'a> Fields<'a> {
    /// Returns a form without words.
    pub fn none() -> Fields<'a> {
        let mut words = Words::new(b"");
        words.next_word();
        Fields { words }
    }

    /// Returns the next word of the form, if there is one.
    pub fn next_field(&mut self) -> Option<Field<'a>> {
        let word = self.words.next_word()?;
        let (looks_up, word) = match word {
            [b'@', rest @ ..] => (LooksUp::Address, rest),
            [b'%', rest @ ..] => (LooksUp::Place, rest),
            _ => (LooksUp::Nothing, word),
        };
        let (is_last, name) = match word {
            [rest @ .., b'.', b'.'] => (true, rest),
            _ => (false, word),
        };
        Some(Field {
            looks_up,
            is_last,
            name,
        })
    }
}

/// The lines of the forms, after the two spaces with which each begins.
#[derive(Drop)]
pub struct Forms {
    lines: Lines<'static>,
}

impl Forms {
    /// Returns an iterator over all forms.
    pub fn new() -> Forms {
        Forms {
            lines: Lines::new(FORMS.as_bytes()),
        }
    }

    /// Returns the next form, if there is one.
    fn next_form(&mut self) -> Option<&'static [u8]> {
        for _ in 0..FORMS.len() {
            if let [b' ', b' ', form @ ..] = self.lines.next_line()? {
                return Some(form);
            }
        }
        None
    }

    /// Returns the first word of the next form with a sign, if there is one.
    pub fn next_key(&mut self, sign: u8) -> Option<&'static [u8]> {
        for _ in 0..FORMS.len() {
            let mut words = Words::new(self.next_form()?);
            if matches!(words.next_word()?, [first] if *first == sign) {
                return words.next_word();
            }
        }
        None
    }
}

/// Returns the form with this key, and with this sign, if one is given.
pub fn form_of(sign: Option<u8>, key: &[u8]) -> Option<Fields<'static>> {
    let mut forms = Forms::new();
    for _ in 0..FORMS.len() {
        let mut words = Words::new(forms.next_form()?);
        let first = words.next_word()?;
        let word = match (sign, first) {
            (None, _) => first,
            (Some(sign), [byte]) if *byte == sign => words.next_word()?,
            _ => continue,
        };
        if word == key {
            return Some(Fields { words });
        }
    }
    None
}

/// Returns two texts without their common prefix.
fn after_common<'a>(first: &'a [u8], second: &'a [u8]) -> (&'a [u8], &'a [u8]) {
    let mut a = first;
    let mut b = second;
    for _ in 0..first.len() {
        let ([from_a, rest_a @ ..], [from_b, rest_b @ ..]) = (a, b) else {
            break;
        };
        if *from_a != *from_b {
            break;
        }
        a = rest_a;
        b = rest_b;
    }
    (a, b)
}

/// Returns two texts without their common suffix.
fn before_common<'a>(first: &'a [u8], second: &'a [u8]) -> (&'a [u8], &'a [u8]) {
    let mut a = first;
    let mut b = second;
    for _ in 0..first.len() {
        let ([rest_a @ .., from_a], [rest_b @ .., from_b]) = (a, b) else {
            break;
        };
        if *from_a != *from_b {
            break;
        }
        a = rest_a;
        b = rest_b;
    }
    (a, b)
}

/// Returns whether two words differ in one letter that is changed, missing or extra, or in two that
/// are swapped.
fn is_near(a: &[u8], b: &[u8]) -> bool {
    let (a, b) = after_common(a, b);
    match before_common(a, b) {
        ([_], [_]) | ([], [_]) | ([_], []) => true,
        ([first, second], [other, last]) => *first == *last && *second == *other,
        _ => false,
    }
}

/// Returns the key that a misspelled word of a step or of a boot line is near to; None for a key.
pub fn meant_by(word: &[u8]) -> Option<&'static [u8]> {
    if word.len() < 3 || form_of(None, word).is_some() {
        return None;
    }
    let mut forms = Forms::new();
    for _ in 0..FORMS.len() {
        let key = Words::new(forms.next_form()?).next_word()?;
        if key.len() > 1 && is_near(key, word) {
            return Some(key);
        }
    }
    None
}
