//! What the parts of a program write.
ghost use Rattle.std.specs.Prelude.{◌≡◌, [], IfErr, IfOk, OnOk, filter_map, map};
ghost use Rattle.asm_expressions.specs.Symbols.{context_of, named_of};
ghost use Rattle.asm_program.specs.Forms.PartForm.{Directs, Instructs};
ghost use Rattle.asm_program.specs.Inside.Passes.{StopsAt, added_if, nothing_written, standing_of, sum_in, sum_of};
ghost use Rattle.asm_program.specs.Written.{form_written, high_of, part_written};
ghost use Rattle.asm_tokens.specs.Readings.{spots_of};

use crate::code::{CodeLine, add_lines};
use crate::data::{Datum, add_numbers, add_ticks};
use crate::directives::Directive;
use crate::forms::{Form, read_form};
use crate::highs::all_highs;
use crate::layout::Statement;
use crate::stop::Stop;
use crate::strings::add_string;
use crate::tables::{Entry, add_map_words};
use asm_expressions::{PcrelHigh, Scope, Symbol};
use asm_instructions::instructions_of;
use asm_mnemonics::OperandForm;
use asm_tokens::Placed;
use std::alloc::Global;

/// Instructions and data, with their addresses, and the clock's ticks.
#[derive(Drop)]
pub(crate) struct Output {
    /// The instructions.
    pub code: Vec<CodeLine>,
    /// The data.
    pub data: Vec<Datum>,
    /// The clock's ticks.
    pub ticks: Vec<u64>,
}

/// What all parts write, where they stand.
pub(crate) fn write_all(
    alloc: Global,
    symbols: &[Symbol<'_>],
    entries: &[Entry],
    statements: &[Statement<'_, '_>],
) -> Result<Output, Stop>
    ensures sum { IfOk result (λ output. sum_in (record { symbols = map named_of symbols.now; highs = filter_map (high_of (map named_of symbols.now)) (map standing_of statements.now); entries = entries.now }) nothing_written (map standing_of statements.now) ≡ Ok (sum_of output)) }
    ensures fault { IfErr result (StopsAt (sum_in (record { symbols = map named_of symbols.now; highs = filter_map (high_of (map named_of symbols.now)) (map standing_of statements.now); entries = entries.now }) nothing_written (map standing_of statements.now))) }
{
    let highs = all_highs(alloc, symbols, statements)?;
    write_each(alloc, symbols, highs.as_slice(), entries, statements)
}

/// What each part writes where so much is known.
fn write_each(
    alloc: Global,
    symbols: &[Symbol<'_>],
    highs: &[PcrelHigh],
    entries: &[Entry],
    statements: &[Statement<'_, '_>],
) -> Result<Output, Stop>
    ensures sum { IfOk result (λ output. sum_in (record { symbols = map named_of symbols.now; highs = highs.now; entries = entries.now }) nothing_written (map standing_of statements.now) ≡ Ok (sum_of output)) }
    ensures fault { IfErr result (StopsAt (sum_in (record { symbols = map named_of symbols.now; highs = highs.now; entries = entries.now }) nothing_written (map standing_of statements.now))) }
{
    let mut output = Output {
        code: Vec::new(alloc),
        data: Vec::new(alloc),
        ticks: Vec::new(alloc),
    };
    for statement in statements {
        output.add(symbols, highs, entries, statement)?;
    }
    Ok(output)
}

impl Output {
    /// Adds what a part writes.
    #[tactic(auto, unfolding(crate::specs::Written::part_written))]
    fn add(
        &mut self,
        symbols: &[Symbol<'_>],
        highs: &[PcrelHigh],
        entries: &[Entry],
        statement: &Statement<'_, '_>,
    ) -> Result<(), Stop>
        ensures added { OnOk result (added_if (sum_of self.old) (part_written (record { symbols = map named_of symbols.now; highs = highs.now; entries = entries.now }) (standing_of statement.now)) ≡ Ok (sum_of self.new)) }
        ensures fault { IfErr result (StopsAt (added_if (sum_of self.old) (part_written (record { symbols = map named_of symbols.now; highs = highs.now; entries = entries.now }) (standing_of statement.now)))) }
    {
        let scope = Scope {
            symbols,
            highs,
            statement: statement.number,
            here: statement.at,
            end: statement.part.end,
        };
        let (form, left) = read_form(&statement.part)?;
        match form {
            Form::Nothing => Ok(()),
            Form::Label(_) => Ok(()),
            Form::Directive(directive, operands) => {
                self.add_data(entries, &scope, directive, left, operands)
            }
            Form::Instruction(form, operands) => self.add_code(&scope, form, left, operands),
        }
    }

    /// Adds the machine's instructions that stand for one of the text.
    fn add_code(
        &mut self,
        scope: &Scope<'_, '_>,
        form: OperandForm,
        left: usize,
        operands: &[Placed<'_>],
    ) -> Result<(), Stop>
        ensures added { OnOk result (added_if (sum_of self.old) (form_written [] (context_of scope.now) (Instructs form (spots_of operands.now)) left) ≡ Ok (sum_of self.new)) }
        ensures fault { IfErr result (StopsAt (added_if (sum_of self.old) (form_written [] (context_of scope.now) (Instructs form (spots_of operands.now)) left))) }
    {
        match instructions_of(scope, form, left, operands) {
            Ok(made) => Ok(add_lines(&mut self.code, made, scope.here, left)?),
            Err(fault) => Err(Stop::At(fault)),
        }
    }

    /// Adds the data or the ticks of a directive.
    #[tactic(auto, using(crate::proofs::More::numbers_added, crate::proofs::More::ticks_added, crate::proofs::Stops::stops_numbers, crate::proofs::Stops::stops_ticks))]
    fn add_data(
        &mut self,
        entries: &[Entry],
        scope: &Scope<'_, '_>,
        directive: Directive,
        left: usize,
        operands: &[Placed<'_>],
    ) -> Result<(), Stop>
        ensures added { OnOk result (added_if (sum_of self.old) (form_written entries.now (context_of scope.now) (Directs directive (spots_of operands.now)) left) ≡ Ok (sum_of self.new)) }
        ensures fault { IfErr result (StopsAt (added_if (sum_of self.old) (form_written entries.now (context_of scope.now) (Directs directive (spots_of operands.now)) left))) }
    {
        match directive {
            Directive::Data(size) => add_numbers(&mut self.data, scope, size, left, operands),
            Directive::Tick => add_ticks(&mut self.ticks, scope, operands),
            Directive::Ascii(is_ended) => {
                add_string(&mut self.data, scope.here, is_ended, left, operands)
            }
            Directive::Map(paging) => {
                add_map_words(&mut self.data, entries, scope, paging, left, operands)
            }
            _ => Ok(()),
        }
    }
}
