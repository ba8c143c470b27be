//! The lines of a lowered plan, and the line from which each came.
ghost use Rattle.std.specs.Prelude.{◌≡◌, ◌++◌, ◌∷◌, [], false, OnOk};
ghost use Rattle.std.specs.Fmt.{digits};
ghost use Rattle.mcs_plan_domains.specs.Pages.{blank, ended, hex_put, indented, joined, last_put, number_put, page_of, put, words_put};

use std::alloc::{AllocError, Global};

/// A plan without domains, and for each of its lines the line from which it came. Appending fails
/// with AllocError if an allocation fails.
#[derive(Drop)]
pub struct Lowered {
    pub text: String,
    pub lines: Vec<u64>,
}

/// Adds the number of a line.
fn push_line(lines: &mut Vec<u64>, line: u64) -> Result<(), AllocError>
    ensures { OnOk result (lines.new.items ≡ lines.old.items ++ line ∷ []) }
{
    lines.push(line)?;
    Ok(())
}

impl Lowered {
    /// Returns a plan without a line.
    #[tactic(auto, unfolding(crate::specs::Pages::page_of))]
    pub fn new(alloc: Global) -> Lowered
        ensures { page_of result ≡ blank }
    {
        Lowered {
            text: String::new(alloc),
            lines: Vec::new(alloc),
        }
    }

    /// Appends a text.
    #[tactic(auto, unfolding(crate::specs::Pages::page_of, crate::specs::Pages::put))]
    pub fn put(&mut self, text: &str) -> Result<(), AllocError>
        ensures { OnOk result (page_of self.new ≡ put (page_of self.old) text.now) }
    {
        self.text.push_str(text)
    }

    /// Appends two blanks for each open block.
    #[tactic(auto, using(crate::proofs::Turns::block_turn))]
    pub fn indent(&mut self, depth: usize) -> Result<(), AllocError>
        ensures { OnOk result (page_of self.new ≡ indented (page_of self.old) depth) }
    {
        for _ in 0..depth {
            self.put("  ")?;
        }
        Ok(())
    }

    /// Appends a number.
    #[tactic(auto, unfolding(crate::specs::Pages::page_of, crate::specs::Pages::put))]
    pub fn number(&mut self, number: u64) -> Result<(), AllocError>
        ensures { OnOk result (page_of self.new ≡ number_put (page_of self.old) number) }
    {
        write!(&mut self.text, "{number}")
    }

    /// Puts a text and a number.
    pub fn counted(&mut self, text: &str, number: u64) -> Result<(), AllocError>
        ensures { OnOk result
            (page_of self.new ≡ number_put (put (page_of self.old) text.now) number) }
    {
        self.put(text)?;
        self.number(number)
    }

    /// Puts the digits of a number in base 16.
    #[tactic(auto, unfolding(crate::specs::Pages::page_of, crate::specs::Pages::put))]
    fn digits(&mut self, number: u64) -> Result<(), AllocError>
        ensures { OnOk result (page_of self.new ≡ put (page_of self.old) (digits 16 false number)) }
    {
        write!(&mut self.text, "{number:x}")
    }

    /// Appends a number in hexadecimal, after `0x`.
    pub fn hex(&mut self, number: u64) -> Result<(), AllocError>
        ensures { OnOk result (page_of self.new ≡ hex_put (page_of self.old) number) }
    {
        self.put("0x")?;
        self.digits(number)
    }

    /// Appends words, with a blank before each.
    pub fn words(&mut self, words: &[&str]) -> Result<(), AllocError>
        ensures { OnOk result (page_of self.new ≡ words_put (page_of self.old) words.now) }
    {
        for word in words {
            self.put(" ")?;
            self.put(word)?;
        }
        Ok(())
    }

    /// Ends a line that came from line `line`.
    #[tactic(auto, unfolding(crate::specs::Pages::page_of, crate::specs::Pages::ended))]
    pub fn end(&mut self, line: u64) -> Result<(), AllocError>
        ensures { OnOk result (page_of self.new ≡ ended (page_of self.old) line) }
    {
        self.text.push_str("\n")?;
        push_line(&mut self.lines, line)
    }

    /// Appends the last text of a line that came from line `line`.
    pub fn last(&mut self, line: u64, text: &str) -> Result<(), AllocError>
        ensures { OnOk result (page_of self.new ≡ last_put (page_of self.old) text.now line) }
    {
        self.put(text)?;
        self.end(line)
    }

    /// Puts a text and a number, the last of a line, which came from this one.
    pub fn last_number(&mut self, line: u64, text: &str, number: u64) -> Result<(), AllocError>
        ensures { OnOk result (page_of self.new
            ≡ ended (number_put (put (page_of self.old) text.now) number) line) }
    {
        self.counted(text, number)?;
        self.end(line)
    }

    /// Puts a name between two texts, the last of a line, which came from this one.
    pub fn last_name(
        &mut self,
        line: u64,
        before: &str,
        name: &str,
        after: &str,
    ) -> Result<(), AllocError>
        ensures { OnOk result (page_of self.new
            ≡ last_put (put (put (page_of self.old) before.now) name.now) after.now line) }
    {
        self.put(before)?;
        self.put(name)?;
        self.last(line, after)
    }

    /// Puts a line, which came from this one, in so many blocks.
    pub fn line(&mut self, line: u64, depth: usize, text: &str) -> Result<(), AllocError>
        ensures { OnOk result
            (page_of self.new ≡ last_put (indented (page_of self.old) depth) text.now line) }
    {
        self.indent(depth)?;
        self.last(line, text)
    }

    /// Appends another plan.
    #[tactic(auto, unfolding(crate::specs::Pages::page_of, crate::specs::Pages::joined))]
    pub fn join(&mut self, other: &Lowered) -> Result<(), AllocError>
        ensures { OnOk result (page_of self.new ≡ joined (page_of self.old) (page_of other.now)) }
    {
        self.text.push_str(other.text.as_str())?;
        self.lines.extend_from_slice(&other.lines)
    }
}
