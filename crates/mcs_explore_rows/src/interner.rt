//! An interner of rows, which numbers them.
ghost use Rattle.std.specs.Prelude.{◌≡◌, ◌∷◌, [], IfOk, OnOk, Some, length, slice_get};
ghost use Rattle.mcs_explore_rows.specs.Naming.{Adds, Keeps};

use crate::hashed::Hashed;
use crate::numbers::Row;
use indexmap::IndexSet;
use mcs_types::OutOfMemory;
use std::alloc::Global;
use std::marker::Model;

/// The numbers of rows.
pub type Numbers = Vec<u32>;

/// An interner of rows. Clauses see the rows in the order of their numbers, from 0.
#[derive(Drop)]
pub struct RowInterner {
    rows: IndexSet<Hashed>,
}

impl Model for RowInterner {
    ghost use Rattle.std.specs.Prelude.{ℕ, List, map};

    ghost Value = { List (List ℕ) };

    ghost view = { λ m. map (λ r. r.row.items) m.rows.keys };
}

/// Returns a number as 32 bits. `OutOfMemory` if it has more.
fn narrow(number: usize) -> Result<u32, OutOfMemory>
    ensures { IfOk result (λ n. n ≡ number) }
{
    match u32::try_from(number) {
        Ok(number) => Ok(number),
        Err(_) => Err(OutOfMemory),
    }
}

impl RowInterner {
    /// Returns an interner without rows.
    pub fn new(alloc: Global) -> RowInterner
        ensures { result ≡ [] }
    {
        RowInterner {
            rows: IndexSet::new(alloc),
        }
    }

    /// Returns how many rows it has.
    pub fn len(&self) -> usize
        ensures { result ≡ length self.now }
    {
        self.rows.len()
    }

    /// Adds a row that is not in it yet. Returns its number.
    fn add(&mut self, row: Hashed) -> Result<u32, OutOfMemory>
        ensures number { IfOk result (λ n. slice_get self.new n ≡ Some row.row.items) }
        ensures kept { Keeps self.old self.new }
    {
        let Ok((number, _)) = self.rows.insert_full(row) else {
            return Err(OutOfMemory);
        };
        let number = narrow(number)?;
        Ok(number)
    }

    /// Returns the number of a row, which is added if it is not in it yet.
    fn number(&mut self, row: Row) -> Result<u32, OutOfMemory>
        ensures number { IfOk result (λ n. slice_get self.new n ≡ Some row.items) }
        ensures kept { Keeps self.old self.new }
    {
        let row = Hashed { row };
        if let Some(number) = self.rows.get_index_of(&row) {
            return narrow(number);
        }
        self.add(row)
    }

    /// Adds the number of a row to a list.
    pub fn put(&mut self, numbers: &mut Numbers, row: Row) -> Result<(), OutOfMemory>
        ensures named { OnOk result (Adds self.old numbers.old.items self.new numbers.new.items
            (row.items ∷ [])) }
        ensures kept { Keeps self.old self.new }
    {
        let number = self.number(row)?;
        match numbers.push(number) {
            Ok(()) => Ok(()),
            Err(_) => Err(OutOfMemory),
        }
    }
}
