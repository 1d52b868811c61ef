//! A program's instructions by their addresses.
ghost use Rattle.std.specs.Prelude.{◌≡◌, ◌==◌, ◌≤◌, ℕ, IfOk};
ghost use Rattle.std.specs.BTreeMap.{get};
ghost use Rattle.std.specs.List.{list_any};
ghost use Rattle.std.specs.Ordering.{nat_cmp};
ghost use Rattle.sv39.specs.declared.paging.TheConstants.{ASID_BITS};
ghost use Rattle.asm_listing.specs.Listed.{instruction_in, line_found, listing_of};

use asm_guests::Code;
use asm_program::{Assembly, CodeLine};
use rv64_instructions::Instruction;
use std::alloc::{AllocError, Global};
use std::collections::BTreeMap;
use sv39::Spaces;

/// A program's instructions by their addresses, for the guests of a board.
#[derive(Drop)]
pub struct CodeIndex<'a> {
    /// The instructions. Of two at one address the first counts.
    pub lines: &'a [CodeLine],
    /// Where the program's sections end.
    pub ends: &'a [u64],
    /// The widths of the board's addresses and address spaces.
    pub spaces: Spaces,
    /// Whether guests keep their registers at their ends.
    pub keeps: bool,
    /// The place of the first instruction of each address.
    first: BTreeMap<u64, usize>,
    ghost indexed: { (at : ℕ) → line_found lines.now (get nat_cmp first at) ≡ instruction_in lines.now at },
    ghost narrow: { spaces.asid_len ≤ ASID_BITS },
}

impl<'a> CodeIndex<'a> {
    /// The index of a program.
    ///
    /// # Errors
    ///
    /// Out of memory.
    pub fn new(
        alloc: Global,
        program: &'a Assembly<'_>,
        spaces: Spaces,
        keeps: bool,
    ) -> Result<CodeIndex<'a>, AllocError>
        requires { spaces.asid_len ≤ ASID_BITS }
        ensures lines { IfOk result (λ index. index.lines.now ≡ program.now.code.items) }
        ensures ends { IfOk result (λ index. index.ends.now ≡ program.now.ends.items) }
        ensures spaces { IfOk result (λ index. index.spaces ≡ spaces) }
        ensures keeps { IfOk result (λ index. index.keeps ≡ keeps) }
    {
        let lines = program.code.as_slice();
        let first = first_lines(alloc, lines)?;
        Ok(CodeIndex {
            lines,
            ends: program.ends.as_slice(),
            spaces,
            keeps,
            first,
        })
    }
}

impl<'a> Code for CodeIndex<'a> {
    ghost use Rattle.std.specs.Prelude.{◌≡◌, ◌≤◌};
    ghost use Rattle.sv39.specs.declared.paging.TheConstants.{ASID_BITS};
    ghost use Rattle.asm_listing.specs.Listed.{listing_of};

    ghost listing = { λ index. listing_of index.lines.now index.ends.now index.spaces index.keeps };

    fn instruction_at(&self, pc: u64) -> Option<Instruction> {
        let place = self.first.get(&pc)?;
        let line = self.lines.get(*place)?;
        Some(line.instruction)
    }

    fn is_end(&self, pc: u64) -> bool {
        is_among(self.ends, pc) && self.instruction_at(pc.wrapping_sub(4)).is_some()
    }

    fn spaces(&self) -> Spaces {
        self.spaces
    }

    fn keeps(&self) -> bool {
        self.keeps
    }
}

/// The place of the first instruction of each address.
fn first_lines(alloc: Global, lines: &[CodeLine]) -> Result<BTreeMap<u64, usize>, AllocError>
    ensures { IfOk result (λ first. (at : ℕ)
        → line_found lines.now (get nat_cmp first at) ≡ instruction_in lines.now at) }
{
    let mut first = BTreeMap::new(alloc);
    for i in (0..lines.len()).rev() {
        first.insert(lines[i].at, i)?;
    }
    Ok(first)
}

/// Whether an address is one of these.
fn is_among(ends: &[u64], pc: u64) -> bool
    ensures { result ≡ list_any (λ end. end == pc) ends.now }
{
    for end in ends {
        if *end == pc {
            return true;
        }
    }
    false
}
