//! Findings about many orders.
ghost use Rattle.std.specs.Prelude.{◌≡◌, ◌∷◌, ◌++◌, ℕ, List, [], IfOk, OnOk, length, reverse};
ghost use Rattle.conditions.specs.Condition.{Condition as Asked};
ghost use Rattle.conditions.specs.Endings.{ending};
ghost use Rattle.outcome_statistics.specs.Records.{Tried};
ghost use Rattle.outcome_statistics.specs.Findings.{AreFound, AskOfMarks, EachTells};

use crate::ends::{Ends, is};
use crate::judging::judge;
use crate::matched::see_needs;
use crate::tally::Tally;
use crate::visits::Visits;
use access_marks::Marks;
use board_core::{Board, Event};
use conditions::{Condition, Ending, NeedsMet, ending};
use guest_programs::End;
use seeded_orders::choices;
use std::alloc::{AllocError, Global};
use std::collections::BTreeSet;

/// Findings for one condition.
#[derive(Clone, Copy)]
pub struct Judged {
    /// How many records meet it.
    pub tally: Tally,
    /// Which of the steps that it needs were met in some record.
    pub met: NeedsMet,
}

/// Findings about orders of a program.
#[derive(Drop)]
pub struct Findings {
    /// For each condition.
    pub judged: Vec<Judged>,
    /// How many orders didn't end stuck.
    pub well: Tally,
    /// How they ended.
    pub ends: Ends,
    /// The different records, each as its choices.
    pub records: BTreeSet<Vec<u16>>,
    /// The entries, blocks and calls that guests met.
    pub visits: Visits,
}

impl Findings {
    /// No order was tried yet.
    ///
    /// # Errors
    ///
    /// Memory was refused.
    pub fn new(alloc: Global, conditions: usize) -> Result<Findings, AllocError>
        ensures { IfOk result (λ found. (harts : ℕ) (asked : List Asked) → length asked ≡ conditions
            → AreFound harts asked [] found) }
    {
        let none = Judged {
            tally: Tally::new(),
            met: NeedsMet::none(),
        };
        Ok(Findings {
            judged: vec![in alloc; none; conditions]?,
            well: Tally::new(),
            ends: Ends::new(),
            records: BTreeSet::new(alloc),
            visits: Visits::new(alloc),
        })
    }

    /// Adds the order of this number, with its marks, if a condition asks of them.
    ///
    /// # Errors
    ///
    /// Memory was refused.
    pub fn see(
        &mut self,
        alloc: Global,
        conditions: &[Condition],
        number: u64,
        board: &Board,
        marks: &[Marks],
        end: End,
    ) -> Result<(), AllocError>
        requires many { length self.old.judged.items ≡ length conditions.now }
        requires marks { AskOfMarks conditions.now → length board.now.past ≡ length marks.now }
        ensures many { length self.new.judged.items ≡ length conditions.now }
        ensures found { OnOk result ((tried : List Tried) (x : Tried) → x.number ≡ number
            → x.events ≡ reverse board.now.past → x.marks ≡ marks.now → x.end ≡ ending end
            → AreFound board.now.opening.config.harts conditions.now tried self.old
            → AreFound board.now.opening.config.harts conditions.now (x ∷ tried) self.new) }
    {
        let events = board.history();
        judge_each(
            conditions,
            &mut self.judged,
            number,
            events,
            marks,
            ending(end),
        );
        self.well.see(number, !is(end, End::Stuck));
        self.ends.see(end);
        let kept = choices(alloc, events)?;
        self.records.insert(kept)?;
        let some_lacks = is_some_lacking(conditions, &self.judged);
        self.visits
            .see(alloc, board.config().harts, events, some_lacks)
    }

    /// Adds the findings of later orders.
    ///
    /// # Errors
    ///
    /// Memory was refused.
    pub fn add(&mut self, mut later: Findings) -> Result<(), AllocError>
        ensures { OnOk result ((harts : ℕ) (asked : List Asked) (tried more : List Tried)
            → AreFound harts asked tried self.old → AreFound harts asked more later
            → AreFound harts asked (more ++ tried) self.new) }
    {
        add_each(&mut self.judged, &later.judged);
        self.well.add(later.well);
        self.ends.add(later.ends);
        self.visits.add(&mut later.visits)?;
        self.records.append(&mut later.records)
    }
}

/// Judges a record of this number by each condition.
fn judge_each(
    conditions: &[Condition],
    judged: &mut [Judged],
    number: u64,
    events: &[Event],
    marks: &[Marks],
    end: Option<Ending>,
)
    requires many { length judged.old ≡ length conditions.now }
    requires marks { AskOfMarks conditions.now → length events.now ≡ length marks.now }
    ensures many { length judged.new ≡ length judged.old }
    ensures each { (tried : List Tried) (x : Tried) → x.number ≡ number → x.events ≡ events.now → x.marks ≡ marks.now → x.end ≡ end
        → EachTells conditions.now tried judged.old → EachTells conditions.now (x ∷ tried) judged.new }
{
    for i in 0..conditions.len() {
        let rule = &conditions[i].rule;
        let of_it = &mut judged[i];
        judge(rule, &mut of_it.tally, number, events, marks, end);
        see_needs(&mut of_it.met, rule, events, marks);
    }
}

/// Adds the findings for each condition of later records.
fn add_each(judged: &mut [Judged], later: &[Judged])
    ensures many { length judged.new ≡ length judged.old }
    ensures each { (asked : List Asked) (tried more : List Tried) → length judged.old ≡ length asked
        → length later.now ≡ length asked → EachTells asked tried judged.old → EachTells asked more later.now
        → EachTells asked (more ++ tried) judged.new }
{
    for i in 0..judged.len().min(later.len()) {
        let of_it = &mut judged[i];
        of_it.tally.add(later[i].tally);
        of_it.met.add(later[i].met);
    }
}

/// Whether some condition needs a step that wasn't met yet.
fn is_some_lacking(conditions: &[Condition], judged: &[Judged]) -> bool {
    for (condition, of_it) in conditions.iter().zip(judged) {
        let rule = &condition.rule;
        if of_it.met.lacks_first(rule) || of_it.met.lacks_second(rule) {
            return true;
        }
    }
    false
}
