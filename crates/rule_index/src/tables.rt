//! The tables of an index, and the order in which they are looked at.
ghost use Rattle.std.specs.Prelude.{◌≡◌, ◌++◌, ◌∷◌, [], OnOk, OnErr, length};
ghost use Rattle.rule_index.specs.Turns.{no_tables, AreInTurn};

use crate::table::Table;
use crate::turn::{Turn, cut, turn_by};
use std::alloc::{AllocError, Global};
use std::marker::Model;

/// Tables, each with its number, and a turn for each: by groups, and in each group by priorities.
#[derive(Drop)]
pub(crate) struct Tables {
    list: Vec<Table>,
    turns: Vec<Turn>,
}

impl Model for Tables {
    ghost use Rattle.rule_index.specs.Turns.{TablesView, AreInTurn};

    ghost Value = { TablesView };

    ghost view = { λ a. record { list = a.list.items; turns = a.turns.items } };

    ghost invariant = { λ a. AreInTurn (record { list = a.list.items; turns = a.turns.items }) };
}

impl Tables {
    /// No tables.
    pub(crate) fn new(alloc: Global) -> Tables
        ensures { result ≡ no_tables }
    {
        Tables {
            list: Vec::new(alloc),
            turns: Vec::new(alloc),
        }
    }

    /// Forgets all tables.
    pub(crate) fn clear(&mut self)
        ensures { self.new ≡ no_tables }
    {
        self.list.clear();
        self.turns.clear();
    }

    /// The tables, each at the place of its number.
    #[inline(always)]
    pub(crate) fn list(&self) -> &[Table]
        ensures { result.now ≡ self.now.list }
    {
        self.list.as_slice()
    }

    /// The turns of all tables.
    #[inline(always)]
    pub(crate) fn turns(&self) -> &[Turn]
        ensures value { result.now ≡ self.now.turns }
        ensures in_turn { AreInTurn (record { list = self.now.list; turns = result.now }) }
    {
        self.turns.as_slice()
    }

    /// One table more, with the next number.
    pub(crate) fn push(&mut self, table: Table) -> Result<(), AllocError>
        ensures ok { OnOk result (self.new.list ≡ self.old.list ++ table ∷ []) }
        ensures err { OnErr result (self.new ≡ self.old) }
    {
        self.list.reserve(1)?;
        let turn = turn_by(table.group, table.priority, self.list.as_slice().len());
        let place = cut(self.turns.as_slice(), turn.order);
        self.turns.insert(place, turn)?;
        self.list.push_reserved(table);
        Ok(())
    }
}
