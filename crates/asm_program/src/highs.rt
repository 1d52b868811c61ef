//! Each `auipc` with `%pcrel_hi(..)`, once all symbols are known.
ghost use Rattle.std.specs.Prelude.{◌≡◌, IfOk, filter_map, map};
ghost use Rattle.asm_expressions.specs.Symbols.{named_of};
ghost use Rattle.asm_program.specs.Inside.Passes.{standing_of};
ghost use Rattle.asm_program.specs.Written.{high_of};

use crate::forms::{Form, read_form};
use crate::layout::Statement;
use asm_expressions::{PcrelHigh, Scope, Symbol};
use asm_instructions::high_distance;
use std::alloc::{AllocError, Global};

/// Each `auipc` with `%pcrel_hi(..)` among the parts, in order.
#[tactic(auto, using(crate::proofs::More::high_pushed))]
pub(crate) fn all_highs(
    alloc: Global,
    symbols: &[Symbol<'_>],
    statements: &[Statement<'_, '_>],
) -> Result<Vec<PcrelHigh>, AllocError>
    ensures { IfOk result (λ highs. highs.items ≡ filter_map (high_of (map named_of symbols.now)) (map standing_of statements.now)) }
{
    let mut highs = Vec::new(alloc);
    for statement in statements {
        if let Some(high) = high_of(symbols, statement) {
            highs.push(high)?;
        }
    }
    Ok(highs)
}

/// The `auipc` with `%pcrel_hi(..)` that a part is.
#[tactic(auto, unfolding(crate::specs::Written::high_of))]
fn high_of(symbols: &[Symbol<'_>], statement: &Statement<'_, '_>) -> Option<PcrelHigh>
    ensures { result ≡ high_of (map named_of symbols.now) (standing_of statement.now) }
{
    let scope = Scope {
        symbols,
        highs: &[],
        statement: statement.number,
        here: statement.at,
        end: statement.part.end,
    };
    match read_form(&statement.part) {
        Ok((Form::Instruction(form, operands), _)) => {
            let distance = high_distance(&scope, form, operands)?;
            Some(PcrelHigh {
                at: statement.at,
                distance,
            })
        }
        _ => None,
    }
}
