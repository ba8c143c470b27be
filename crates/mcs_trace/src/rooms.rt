//! The maximal number of bytes of each word of a line, and of a line.
use mcs_types::MESSAGE_WORDS;

/// A number of 64 bits.
pub const NUMBER: usize = 20;

/// A number of messages.
pub const COUNT: usize = 40;

/// The name of an object: its letter and its serial.
pub const NAME: usize = 1 + NUMBER;

/// A fixed word.
pub const KEY: usize = 12;

/// Rights: a letter each.
pub const RIGHTS: usize = 4;

/// A place: an index and a depth.
pub const PLACE: usize = NUMBER + 1 + NUMBER;

/// A queue: its object, and which of the object's queues it is.
pub const QUEUE: usize = NAME + 5;

/// A capability: its object, and two numbers.
pub const CAP: usize = NAME + 2 * (1 + NUMBER);

/// Any word: none is longer than a capability.
pub const WORD: usize = CAP;

/// The first words of the line of an entry.
pub const HEAD: usize = NUMBER + 1 + NAME + 1 + KEY;

/// What precedes the message of an entry, up to an address.
pub const FRONT: usize = HEAD + 1 + NUMBER;

/// The words of an entry that copies a capability.
pub const COPIED: usize = HEAD + 3 * (1 + WORD);

/// The words of a boot line up to the guard of a root.
pub const ROOTED: usize = KEY + 1 + NAME + 4 * (1 + NUMBER);

/// The label and the words of a message.
pub const MESSAGE: usize = (1 + MESSAGE_WORDS) * (1 + NUMBER);

/// A line: five words, and a message.
pub const LINE: usize = 5 * (1 + WORD) + MESSAGE;
