//! The entry that a line of a plan spells, as a script spells it.
ghost use Rattle.std.specs.Prelude.{◌≡◌, [], Ok, IfOk, IfErr, OnOk, decimal, string_bytes};
ghost use Rattle.mcs_plan_source.specs.Naming.{with_word};
ghost use Rattle.mcs_plan_source.specs.Refusals.{Refuses};
ghost use Rattle.mcs_plan_layout.specs.Laid.{laid_said};
ghost use Rattle.mcs_plan_source.specs.Words.{number_then};
ghost use Rattle.mcs_plan_compile.specs.Entries.{right_letter, rights_text, is_made, address_read, place_with, place_named, place_read, address_more, place_more, number_more};
ghost use Rattle.mcs_plan_compile.specs.Entries.{rights_more, kind_more, numbers_more, message_more, field_more, fields_more, entry_more};

use crate::fields::{Field, fields_of};
use mcs_plan_layout::PlanLayout;
use mcs_plan_source::{PlanError, Tokens, add_word, not, number, rights_of};
use mcs_types::{LABEL_BITS, MESSAGE_WORDS, ObjId, Place, Rights};
use std::alloc::{AllocError, Global};

/// The greatest number of 52 bits.
const LABEL: u64 = (1 << LABEL_BITS) - 1;

/// What a fault says of the name of a CNode in place of an address.
const NO_ADDRESS: &str = "an address, since lookup goes on through a CNode: name a slot of it";

/// A thread whose table resolves names.
#[derive(Drop)]
pub struct Speaker<'a> {
    pub laid: &'a PlanLayout,
    pub thread: ObjId,
}

/// Appends a number, after a space unless it is the first word.
pub fn add_number(alloc: Global, to: &mut String, n: u64) -> Result<(), AllocError>
    ensures { OnOk result (string_bytes to.new ≡ with_word (string_bytes to.old) (decimal n)) }
{
    let digits = format!(in alloc; "{n}")?;
    add_word(to, digits.as_str())
}

/// Returns the letter of a right, if these rights have it.
fn right_letter(rights: u8, right: u8, letter: &'static str) -> &'static str
    ensures { result.now ≡ right_letter rights right letter.now }
{
    if rights & right == 0 { "" } else { letter }
}

/// The text of rights: `-`, or letters of `rwgp` in this order.
fn rights_text(alloc: Global, rights: u8) -> Result<String, AllocError>
    ensures { IfOk result (λ text. string_bytes text ≡ rights_text rights) }
{
    if rights == 0 {
        return String::from_str(alloc, "-");
    }
    let mut text = String::from_str(alloc, right_letter(rights, 2, "r"))?;
    text.push_str(right_letter(rights, 1, "w"))?;
    text.push_str(right_letter(rights, 4, "g"))?;
    text.push_str(right_letter(rights, 8, "p"))?;
    Ok(text)
}

/// Reads rights.
fn read_rights(alloc: Global, to: &mut String, words: &mut Tokens<'_>) -> Result<(), PlanError>
    ensures put { OnOk result
        (rights_more words.old (string_bytes to.old) ≡ Ok (string_bytes to.new, words.new)) }
    ensures error { IfErr result (Refuses (rights_more words.old (string_bytes to.old))) }
{
    let wanted = "rights, some of rwgp, or -";
    let word = words.need(wanted)?;
    let Some(rights) = rights_of(word) else {
        return Err(not(alloc, word, wanted));
    };
    let text = rights_text(alloc, rights.bits())?;
    Ok(add_word(to, text.as_str())?)
}

/// Returns whether a word is the kind of what is made.
fn is_made(word: &str) -> bool
    ensures { result ≡ is_made word.now }
{
    matches!(word, "endpoint" | "notification" | "reply" | "context")
}

/// Reads the kind of what is made.
fn read_kind(alloc: Global, to: &mut String, words: &mut Tokens<'_>) -> Result<(), PlanError>
    ensures put { OnOk result
        (kind_more words.old (string_bytes to.old) ≡ Ok (string_bytes to.new, words.new)) }
    ensures error { IfErr result (Refuses (kind_more words.old (string_bytes to.old))) }
{
    let wanted = "endpoint, notification, reply or context";
    let word = words.need(wanted)?;
    if !is_made(word) {
        return Err(not(alloc, word, wanted));
    }
    Ok(add_word(to, word)?)
}

/// Reads a number up to a limit.
fn read_number(
    alloc: Global,
    to: &mut String,
    words: &mut Tokens<'_>,
    wanted: &'static str,
    limit: u64,
) -> Result<(), PlanError>
    ensures put { OnOk result
        (number_more limit words.old (string_bytes to.old) ≡ Ok (string_bytes to.new, words.new)) }
    ensures error { IfErr result (Refuses (number_more limit words.old (string_bytes to.old))) }
{
    let n = words.number(alloc, wanted, limit)?;
    Ok(add_number(alloc, to, n)?)
}

/// Reads words of a message, to the end of the line.
#[tactic(auto, using(crate::proofs::Fielded::numbers_turn, crate::proofs::Fielded::numbers_refused, crate::proofs::Fielded::number_left, crate::proofs::Fielded::no_numbers))]
pub fn read_words(
    alloc: Global,
    to: &mut String,
    words: &mut Tokens<'_>,
    wanted: &'static str,
) -> Result<(), PlanError>
    ensures put { OnOk result
        (numbers_more words.old (string_bytes to.old) ≡ Ok (string_bytes to.new)) }
    ensures none { OnOk result (words.new ≡ []) }
    ensures error { IfErr result (Refuses (numbers_more words.old (string_bytes to.old))) }
{
    for _ in 0..words.len() {
        read_number(alloc, to, words, wanted, u64::MAX)?;
    }
    Ok(())
}

/// Reads a label and words, to the end of the line.
fn read_message(alloc: Global, to: &mut String, words: &mut Tokens<'_>) -> Result<(), PlanError>
    ensures put { OnOk result
        (message_more words.old (string_bytes to.old) ≡ Ok (string_bytes to.new, words.new)) }
    ensures error { IfErr result (Refuses (message_more words.old (string_bytes to.old))) }
{
    read_number(alloc, to, words, "a label, a number of 52 bits", LABEL)?;
    if words.len() > MESSAGE_WORDS {
        return Err(PlanError::Limit {
            what: "words of a message",
            limit: MESSAGE_WORDS as u32,
        });
    }
    read_words(alloc, to, words, "a word of 64 bits")
}

/// Reads a depth.
fn read_depth(alloc: Global, words: &mut Tokens<'_>) -> Result<u8, PlanError>
    ensures depth { IfOk result (λ d. number_then 255 words.old ≡ Ok (d, words.new)) }
    ensures error { IfErr result (Refuses (number_then 255 words.old)) }
{
    let depth = words.number(alloc, "a depth, 0 to 255", 255)?;
    Ok(depth.min(255) as u8)
}

/// Reads the depth after an index, and returns the place.
fn index_place(alloc: Global, index: u64, words: &mut Tokens<'_>) -> Result<Place, PlanError>
    ensures place { IfOk result (λ p. place_with index words.old ≡ Ok (p, words.new)) }
    ensures error { IfErr result (Refuses (place_with index words.old)) }
{
    let depth = read_depth(alloc, words)?;
    Ok(Place { index, depth })
}

impl<'a> Speaker<'a> {
    /// Returns an address: that of a name, or a number. `Not` for the name of a CNode.
    fn address(&self, alloc: Global, word: &str) -> Result<u64, PlanError>
        ensures stands { IfOk result
            (λ a. address_read (laid_said self.now.laid.now) self.now.thread word.now ≡ Ok a) }
        ensures error { IfErr result
            (Refuses (address_read (laid_said self.now.laid.now) self.now.thread word.now)) }
    {
        if let Some(n) = number(word) {
            return Ok(n);
        }
        let named = self.laid.named(alloc, self.thread, word)?;
        match named.address {
            Some(address) => Ok(address),
            None => Err(not(alloc, word, NO_ADDRESS)),
        }
    }

    /// Returns the place that a name means.
    fn named_place(&self, alloc: Global, word: &str) -> Result<Place, PlanError>
        ensures stands { IfOk result (λ p.
            place_named (laid_said self.now.laid.now) self.now.thread word.now ≡ Ok p) }
        ensures error { IfErr result
            (Refuses (place_named (laid_said self.now.laid.now) self.now.thread word.now)) }
    {
        let named = self.laid.named(alloc, self.thread, word)?;
        Ok(named.place)
    }

    /// Reads a place: a name, or an index and a depth.
    fn place(&self, alloc: Global, words: &mut Tokens<'_>) -> Result<Place, PlanError>
        ensures stands { IfOk result (λ p. place_read (laid_said self.now.laid.now)
            self.now.thread words.old ≡ Ok (p, words.new)) }
        ensures error { IfErr result
            (Refuses (place_read (laid_said self.now.laid.now) self.now.thread words.old)) }
    {
        let word = words.need("a slot")?;
        match number(word) {
            Some(index) => index_place(alloc, index, words),
            None => self.named_place(alloc, word),
        }
    }

    /// Reads an address, and appends it as a number.
    fn read_address(
        &self,
        alloc: Global,
        to: &mut String,
        words: &mut Tokens<'_>,
    ) -> Result<(), PlanError>
        ensures put { OnOk result (address_more (laid_said self.now.laid.now) self.now.thread
            words.old (string_bytes to.old) ≡ Ok (string_bytes to.new, words.new)) }
        ensures error { IfErr result (Refuses (address_more (laid_said self.now.laid.now)
            self.now.thread words.old (string_bytes to.old))) }
    {
        let word = words.need("a capability")?;
        let address = self.address(alloc, word)?;
        Ok(add_number(alloc, to, address)?)
    }

    /// Reads a place, and appends it as two numbers.
    fn read_place(
        &self,
        alloc: Global,
        to: &mut String,
        words: &mut Tokens<'_>,
    ) -> Result<(), PlanError>
        ensures put { OnOk result (place_more (laid_said self.now.laid.now) self.now.thread
            words.old (string_bytes to.old) ≡ Ok (string_bytes to.new, words.new)) }
        ensures error { IfErr result (Refuses (place_more (laid_said self.now.laid.now)
            self.now.thread words.old (string_bytes to.old))) }
    {
        let place = self.place(alloc, words)?;
        add_number(alloc, to, place.index)?;
        Ok(add_number(alloc, to, place.depth as u64)?)
    }

    /// Reads a field.
    fn read_field(
        &self,
        alloc: Global,
        to: &mut String,
        words: &mut Tokens<'_>,
        field: Field,
    ) -> Result<(), PlanError>
        ensures put { OnOk result (field_more (laid_said self.now.laid.now) self.now.thread field
            words.old (string_bytes to.old) ≡ Ok (string_bytes to.new, words.new)) }
        ensures error { IfErr result (Refuses (field_more (laid_said self.now.laid.now)
            self.now.thread field words.old (string_bytes to.old))) }
    {
        match field {
            Field::Address => self.read_address(alloc, to, words),
            Field::Place => self.read_place(alloc, to, words),
            Field::Priority => read_number(alloc, to, words, "a priority, 0 to 255", 255),
            Field::Rights => read_rights(alloc, to, words),
            Field::Badge => read_number(alloc, to, words, "a badge of 64 bits", u64::MAX),
            Field::Kind => read_kind(alloc, to, words),
            Field::Message => read_message(alloc, to, words),
            Field::End => Ok(()),
        }
    }

    /// Reads fields, in order.
    #[tactic(auto, using(crate::proofs::Fielded::field_turn, crate::proofs::Fielded::field_refused, crate::proofs::Fielded::no_fields))]
    fn read_fields(
        &self,
        alloc: Global,
        to: &mut String,
        words: &mut Tokens<'_>,
        fields: &[Field],
    ) -> Result<(), PlanError>
        ensures put { OnOk result
            (fields_more (laid_said self.now.laid.now) self.now.thread fields.now words.old
            (string_bytes to.old)
            ≡ Ok (string_bytes to.new, words.new)) }
        ensures error { IfErr result (Refuses
            (fields_more (laid_said self.now.laid.now) self.now.thread fields.now words.old
            (string_bytes to.old))) }
    {
        for field in fields {
            self.read_field(alloc, to, words, *field)?;
        }
        Ok(())
    }

    /// Writes the entry that words spell; no word may be left after it.
    pub fn read(
        &self,
        alloc: Global,
        to: &mut String,
        words: &mut Tokens<'_>,
    ) -> Result<(), PlanError>
        ensures put { OnOk result (entry_more (laid_said self.now.laid.now) self.now.thread
            words.old (string_bytes to.old) ≡ Ok (string_bytes to.new)) }
        ensures error { IfErr result (Refuses (entry_more (laid_said self.now.laid.now)
            self.now.thread words.old (string_bytes to.old))) }
    {
        let key = words.need("an entry")?;
        let Some(fields) = fields_of(key) else {
            return Err(not(alloc, key, "an entry"));
        };
        add_word(to, key)?;
        self.read_fields(alloc, to, words, &fields)?;
        words.end(alloc)
    }
}
