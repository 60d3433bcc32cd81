//! An index of rules: the best rule of a group, found by hash tables.
//!
//! Of the rules of a group that match a frame, the one with the lowest priority number takes it, and among equals the one that
//! was inserted earlier (`flow_rules/specs/Best`). The plain way asks each rule in turn, and that is the definition. With some
//! thousands of rules it takes far longer than all else that is done to a frame.
//!
//! ```text
//! let mut index = RuleIndex::new(alloc)?;
//! index.insert(&rule)?;               // group 0 priority 1 pattern ipv4 dst is 10.1.2.4 / end
//! index.best(0, &parse(frame));       // its id, of a frame to 10.1.2.4
//! index.remove(7);                    // the rule of id 7
//! ```
//!
//! **Tables.** Rules of one group and priority whose tests ask for the same kinds and the same bits share a table. All that
//! a frame is to such rules is the numbers that it has there (`Test::masked`), and these make one number of 128 bits, its
//! digest; a rule of the table has a digest of its own values. A frame has one digest by a table, so one look-up tells all
//! rules of the table that may take it. Rules that ask for a range have no such values: they share a table in which every
//! frame has the digest 0, which makes that table a list.
//!
//! **Why the answer is the plain one.** Layers that a rule accepts have the rule's digest, whatever else has it too. Where
//! the masks leave room, each number is a digit of its own in the digest (`specs/Exact`), and then no other layers have it:
//! nothing is compared, and a hit reads no rule. Else the rules of that digest are asked. Of one table's rules the earliest
//! that accepts is the best, since they have one priority. Tables have turns, by groups and in each group by priorities
//! (`specs/Turns`): the first that gives a rule tells the best priority, only tables of that one follow, and of what they
//! give the earliest rule is the best of the group (`specs/Rank`).
//!
//! **Places.** Each insert takes a new place, behind all others, so places tell which rule is earlier. A table and a digest
//! are a home, and the places of one home are a chain, the earliest first. A chain keeps the place and the id of its first
//! rule, which is all that a hit reads where digests are exact. `remove` empties a slot, and moves the chain on to its next
//! rule if that was the first. When more than half of the places are empty, and 64 more, an insert counts them anew: it makes
//! tables and chains afresh from the rules that are there, before it touches the old ones. So what is kept stays within some
//! twice of what the rules need. How long a call takes is claimed by no contract; an insert looks for its table among those
//! of its group and priority, and a new table moves the turns behind its own.
//!
//! **Model.** Contracts see the rules in the order of their inserts, and the number of inserts. Only `insert` and
//! `insert_shared` take memory, and where they find none all is as it was. What finds a rule takes some 160 bytes, and up to 600
//! where rules came and went for long. The rule itself, of 7 KB, lies apart, for `rule` to lend and to be asked where a digest
//! doesn't tell; `insert` copies it, and `insert_shared` shares it with all other indexes that get it, so that many workers
//! hold one copy.
//!
//! **Not here**: the walk over groups, and changes that an index follows.
#![tactic(auto)]

mod chain;
mod digest;
mod exact;
mod finder;
mod index;
mod line;
mod scan;
mod slot;
mod table;
mod tables;
mod turn;
mod wanted;

pub use index::RuleIndex;
