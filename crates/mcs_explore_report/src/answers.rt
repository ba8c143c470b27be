//! The answers that entries can get.
ghost use Rattle.std.specs.Prelude.{◌≡◌, ◌↔◌, ◌++◌, ◌∷◌, [], IsTrue, IfOk, OnOk, map, slice_get, unwrap_or};
ghost use Rattle.mcs_explore_report.specs.Answers.{IsAmong, IsNoted, IsNotedIn, IsNotedOf, IsNotedTurn, no_answers, table_of};

use mcs_explore_orders::{OrdersFault, Turn, Users};
use mcs_types::{Answer, Entry};
use std::alloc::{AllocError, Global};
use std::marker::Model;

/// An answer, and the first turn that gave it: from the state at this index.
#[derive(Drop)]
pub struct Witness {
    pub answer: Answer,
    pub place: usize,
    pub turn: Turn,
}

/// The answers of an entry, in the order of discovery.
#[derive(Drop)]
struct Table {
    witnesses: Vec<Witness>,
}

impl Model for Table {
    ghost use Rattle.std.specs.Prelude.{List};
    ghost use Rattle.mcs_explore_report.specs.declared.answers.Witness.{Witness};

    ghost Value = { List Witness };

    ghost view = { λ t. t.witnesses.items };
}

/// The answers of the entries of a user.
#[derive(Drop)]
struct Tables {
    entries: Vec<Table>,
}

impl Model for Tables {
    ghost use Rattle.std.specs.Prelude.{List};
    ghost use Rattle.mcs_explore_report.specs.declared.answers.Witness.{Witness};

    ghost Value = { List (List Witness) };

    ghost view = { λ t. t.entries.items };
}

/// The answers of all entries of all users.
#[derive(Drop)]
pub struct Answers {
    alloc: Global,
    users: Vec<Tables>,
}

impl Model for Answers {
    ghost use Rattle.std.specs.Prelude.{List};
    ghost use Rattle.mcs_explore_report.specs.declared.answers.Witness.{Witness};

    ghost Value = { List (List (List Witness)) };

    ghost view = { λ a. a.users.items };
}

impl Table {
    /// Returns a table without answers.
    fn new(alloc: Global) -> Table
        ensures { result ≡ [] }
    {
        Table {
            witnesses: Vec::new(alloc),
        }
    }

    /// Returns whether an answer is in the table.
    fn has(&self, answer: &Answer) -> bool
        ensures { IsTrue result ↔ IsAmong self.now answer.now }
    {
        for index in 0..self.witnesses.len() {
            if self.witnesses[index].answer.is_same(answer) {
                return true;
            }
        }
        false
    }

    /// Adds an answer to the end.
    fn push(&mut self, witness: Witness) -> Result<(), OrdersFault>
        ensures { OnOk result (self.new ≡ self.old ++ witness ∷ []) }
    {
        self.witnesses.push(witness)?;
        Ok(())
    }

    /// Notes an answer, if it is new.
    fn note(
        &mut self,
        alloc: Global,
        answer: &Answer,
        place: usize,
        turn: Turn,
    ) -> Result<(), OrdersFault>
        ensures { OnOk result (IsNoted
            (record { answer = answer.now; place = place; turn = turn }) self.old self.new) }
    {
        if self.has(answer) {
            return Ok(());
        }
        let answer = answer.copy(alloc)?;
        self.push(Witness {
            answer,
            place,
            turn,
        })
    }
}

impl Tables {
    /// Returns a table without answers for each entry.
    fn new(alloc: Global, entries: &[Entry]) -> Result<Tables, AllocError>
        ensures { IfOk result (λ t. t ≡ map (λ e. []) entries.now) }
    {
        let mut tables = Vec::new(alloc);
        for entry in entries {
            let _ = entry;
            tables.push(Table::new(alloc))?;
        }
        Ok(Tables { entries: tables })
    }

    /// The answers of an entry.
    fn of(&self, number: usize) -> &[Witness]
        ensures { result.now ≡ unwrap_or (slice_get self.now number) [] }
    {
        match self.entries.get(number) {
            Some(table) => table.witnesses.as_slice(),
            None => &[],
        }
    }

    /// Notes an answer of an entry, if it is new.
    fn note(
        &mut self,
        alloc: Global,
        number: usize,
        answer: &Answer,
        place: usize,
        turn: Turn,
    ) -> Result<(), OrdersFault>
        ensures { OnOk result (IsNotedIn number
            (record { answer = answer.now; place = place; turn = turn }) self.old self.new) }
    {
        if number >= self.entries.len() {
            return Ok(());
        }
        let table = &mut self.entries[number];
        table.note(alloc, answer, place, turn)
    }
}

impl Answers {
    /// Returns tables without answers for all entries.
    pub fn new(alloc: Global, users: &Users) -> Result<Answers, AllocError>
        ensures { IfOk result (λ a. a ≡ no_answers users.now) }
    {
        let mut tables = Vec::new(alloc);
        let lists = users.lists();
        for user in lists {
            tables.push(Tables::new(alloc, &user.entries)?)?;
        }
        Ok(Answers {
            alloc,
            users: tables,
        })
    }

    /// Returns the answers of an entry; none if the entry does not exist.
    pub fn of(&self, user: usize, number: usize) -> &[Witness]
        ensures { result.now ≡ unwrap_or (table_of self.now user number) [] }
    {
        match self.users.get(user) {
            Some(tables) => tables.of(number),
            None => &[],
        }
    }

    /// Notes an answer of an entry, if it is new.
    pub fn note(
        &mut self,
        user: usize,
        number: usize,
        answer: &Answer,
        place: usize,
        turn: Turn,
    ) -> Result<(), OrdersFault>
        ensures { OnOk result (IsNotedOf user number
            (record { answer = answer.now; place = place; turn = turn }) self.old self.new) }
    {
        if user >= self.users.len() {
            return Ok(());
        }
        let tables = &mut self.users[user];
        tables.note(self.alloc, number, answer, place, turn)
    }

    /// Notes the answer to a turn from the state at an index, unless the entry waits.
    pub fn note_turn(
        &mut self,
        answer: &Answer,
        place: usize,
        turn: Turn,
    ) -> Result<(), OrdersFault>
        ensures { OnOk result (IsNotedTurn
            (record { answer = answer.now; place = place; turn = turn }) self.old self.new) }
    {
        if matches!(answer, Answer::Waits) {
            return Ok(());
        }
        self.note(turn.pick.user, turn.pick.number, answer, place, turn)
    }
}
