//! Where each part of a program stands, and its symbols.
ghost use Rattle.std.specs.Prelude.{◌≡◌, IfErr, IfOk, OnOk, map, option_map};
ghost use Rattle.asm_program.specs.Inside.Passes.{StopsAt, change_of, changing_of, laid_in, laid_more, laid_of, nothing_laid, reached_of};
ghost use Rattle.asm_expressions.specs.Symbols.{named_of};
ghost use Rattle.asm_program.specs.Layout.{next_address, reached_by, reached_by_map, reached_with, reach_more};
ghost use Rattle.asm_program.specs.Tables.{mapped};
ghost use Rattle.asm_program.specs.Parts.{piece_of};

use crate::changes::{Change, change_by};
use crate::parts::Part;
use crate::sections::{Counters, Section};
use crate::stop::Stop;
use crate::tables::{Entry, Mapping, add_map};
use asm_expressions::{Fault, Scope, Symbol};
use std::alloc::{AllocError, Global};

/// A part where it stands.
#[derive(Clone, Copy)]
pub(crate) struct Statement<'t, 'a> {
    /// The part.
    pub part: Part<'t, 'a>,
    /// Its number among the parts.
    pub number: usize,
    /// Its address.
    pub at: u64,
}

/// The parts so far, with where they stand, and their symbols.
#[derive(Drop)]
pub(crate) struct Layout<'t, 'a> {
    /// The section that goes on.
    pub section: Section,
    /// Where each section goes on.
    pub counters: Counters,
    /// The symbols that they define.
    pub symbols: Vec<Symbol<'a>>,
    /// The addresses that `.org` left.
    pub left: Vec<u64>,
    /// The entries of page tables.
    pub entries: Vec<Entry>,
    /// The parts.
    pub statements: Vec<Statement<'t, 'a>>,
}

/// Where the parts of a program stand whose sections begin at these bases, and its symbols.
pub(crate) fn lay_out<'t, 'a>(
    alloc: Global,
    bases: Counters,
    parts: &[Part<'t, 'a>],
) -> Result<Layout<'t, 'a>, Stop>
    ensures laid { IfOk result (λ layout. laid_in 0 (nothing_laid bases) (map piece_of parts.now) ≡ Ok (laid_of layout)) }
    ensures fault { IfErr result (StopsAt (laid_in 0 (nothing_laid bases) (map piece_of parts.now))) }
{
    let mut layout = Layout {
        section: Section::Absolute,
        counters: bases,
        symbols: Vec::new(alloc),
        left: Vec::new(alloc),
        entries: Vec::new(alloc),
        statements: Vec::new(alloc),
    };
    for (i, part) in parts.iter().enumerate() {
        layout.add(i, part)?;
    }
    Ok(layout)
}

impl<'t, 'a> Layout<'t, 'a> {
    /// Adds a part.
    fn add(&mut self, number: usize, part: &Part<'t, 'a>) -> Result<(), Stop>
        ensures added { OnOk result (laid_more number (laid_of self.old) (piece_of part.now) ≡ Ok (laid_of self.new)) }
        ensures fault { IfErr result (StopsAt (laid_more number (laid_of self.old) (piece_of part.now))) }
    {
        let at = self.counters.of(self.section);
        let change = self.change_at(number, at, part)?;
        self.statements.push(Statement {
            part: *part,
            number,
            at,
        })?;
        self.go_on(change)?;
        Ok(())
    }

    /// What a part at this address changes.
    #[tactic(auto, unfolding(crate::specs::Layout::reach_more))]
    fn change_at(&self, number: usize, at: u64, part: &Part<'t, 'a>) -> Result<Change<'a>, Fault>
        requires { at ≡ next_address (reached_of self.now) }
        ensures { reached_by (reached_of self.now) (change_of result) ≡ reach_more number (reached_of self.now) (piece_of part.now) }
    {
        let scope = Scope {
            symbols: self.symbols.as_slice(),
            highs: &[],
            statement: number,
            here: at,
            end: part.end,
        };
        change_by(&scope, &self.counters, part)
    }

    /// Goes on behind a part that changes this.
    #[tactic(auto, using(crate::proofs::More::named_more))]
    fn go_on(&mut self, change: Change<'a>) -> Result<(), AllocError>
        ensures reached { OnOk result (reached_of self.new ≡ reached_with (reached_of self.old) (changing_of change.entry)) }
        ensures kept { self.new.statements.items ≡ self.old.statements.items }
    {
        match change {
            Change::Stays => Ok(()),
            Change::Moves(next) => {
                self.counters.set(self.section, next);
                Ok(())
            }
            Change::Enters(section) => {
                self.section = section;
                Ok(())
            }
            Change::Goes(to) => {
                self.left.push(self.counters.absolute)?;
                self.section = Section::Absolute;
                self.counters.set(Section::Absolute, to);
                Ok(())
            }
            Change::Defines(symbol) => {
                self.symbols.push(symbol)?;
                Ok(())
            }
            Change::Reserves(symbol, next) => {
                self.counters.set(Section::Bss, next);
                self.symbols.push(symbol)?;
                Ok(())
            }
            Change::Maps(map, symbol) => self.map(&map, symbol),
        }
    }

    /// Adds the entries of a map, and the symbol that is the address of the last one.
    #[tactic(auto, using(crate::proofs::More::named_more))]
    fn map(&mut self, map: &Mapping, symbol: Option<Symbol<'a>>) -> Result<(), AllocError>
        ensures reached { OnOk result (reached_of self.new ≡ reached_by_map (reached_of self.old) (mapped map.now self.old.counters.tables self.old.entries.items) (option_map named_of symbol.entry)) }
        ensures kept { self.new.statements.items ≡ self.old.statements.items }
    {
        let at = add_map(&mut self.entries, &mut self.counters.tables, map)?;
        let Some(symbol) = symbol else {
            return Ok(());
        };
        self.symbols.push(Symbol {
            name: symbol.name,
            value: at,
            statement: symbol.statement,
        })?;
        Ok(())
    }
}
