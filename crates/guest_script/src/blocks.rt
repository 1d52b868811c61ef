//! The blocks of a program, while its lines are read.
ghost use Rattle.std.specs.Prelude.{◌≡◌, ◌⊎◌, ◌∷◌, ◌+◌, ◌<◌, ◌≤◌, ℕ, true, false, List, [], length, map, Option, None, Some, is_some, OnErr, IfErr, IfOk, MatchResult, vec_len, vec_capacity};
ghost use Rattle.std.specs.BTreeSet.{contains};
ghost use Rattle.std.specs.Option.{option_map};
ghost use Rattle.std.specs.Ordering.{nat_cmp};
ghost use Rattle.guest_script.specs.declared.wrong.Wrong.TheVariants.{NoMemory, SecondBlock};
ghost use Rattle.guest_script.specs.Inside.OpenBlocks.{blocks_in, open_of};
ghost use Rattle.guest_script.specs.FirstFault.{in_block_tests};
ghost use Rattle.guest_script.specs.Grammar.{Blocks, Guest, clock_of, clock_with, guest, guest_at, guests_of, guests_with, content, content_of, Blocked, has_block, OfClock, opened};
ghost use Rattle.guest_script.specs.Reading.{GivesOrWants, GoesOn, tested, told};
ghost use Rattle.guest_script.specs.Values.{in_block, words_in};

use crate::plain::read_plain_ops;
use crate::step::{guest_op, one_number};
use crate::wrong::{Unread, Wrong};
use line_words::from_word;
use script_lines::{Block, Body, MOST_LINES, OpName};
use std::alloc::{AllocError, Global};
use std::collections::BTreeSet;
use std::marker::Model;
use std::mem;

/// The block that takes a program's lines.
#[derive(Drop)]
pub enum OpenBlock {
    /// A guest's.
    Guest(Block),
    /// The clock's, which has these ticks so far.
    Clock(Vec<u64>),
}

impl OpenBlock {
    /// Reads the operations of a guest's block that the bytes begin with, as long as they stand in the form in which they are
    /// printed, and answers the next line's number, and the bytes from it on.
    fn read_plain<'a>(&mut self, n: u64, bytes: &'a [u8]) -> Result<(u64, &'a [u8]), AllocError>
        requires number { n + length bytes.now < MOST_LINES }
        ensures read { IfOk result (λ found. (before : List Guest) (clock : Option (List ℕ))
            → GoesOn n (Blocked (blocks_in before clock (open_of self.old))) bytes.now found.0
            (Blocked (blocks_in before clock (open_of self.new))) found.1.now) }
        ensures addresses { (before : List Guest) (addr : ℕ)
            → has_block (guests_with (open_of self.new) before) addr
            ≡ has_block (guests_with (open_of self.old) before) addr }
        ensures within { IfOk result (λ found. found.0 + length found.1.now ≤ n + length bytes.now) }
        ensures shorter { IfOk result (λ found. length found.1.now ≤ length bytes.now) }
    {
        match self {
            OpenBlock::Guest(block) => read_plain_ops(&mut block.ops, n, bytes),
            OpenBlock::Clock(_) => Ok((n, bytes)),
        }
    }

    /// Reads an operation of the block.
    fn line(&mut self, first: &[u8], rest: &[u8]) -> Result<(), Unread>
        ensures read { GivesOrWants (λ _. open_of self.new) (told result)
            (tested (in_block_tests (open_of self.old) (first.now ∷ words_in rest.now))
            (in_block (open_of self.old) (first.now ∷ words_in rest.now))) }
        ensures err { OnErr result (open_of self.new ≡ open_of self.old) }
    {
        match self {
            OpenBlock::Guest(block) => {
                let op = guest_op(first, rest)?;
                block.ops.push(op)?;
            }
            OpenBlock::Clock(ticks) => {
                if first != OpName::Tick.word() {
                    return Err(Unread {
                        left: from_word(first, rest),
                        wrong: Wrong::UnknownOperation,
                    });
                }
                let n = one_number(rest)?;
                ticks.push(n)?;
            }
        }
        Ok(())
    }
}

/// A program that is being read.
#[derive(Drop)]
pub struct BlocksDraft {
    before: Vec<Block>,
    clock: Option<Vec<u64>>,
    current: OpenBlock,
    addresses: BTreeSet<u64>,
}

impl Model for BlocksDraft {
    ghost Value = { Blocks };

    ghost view = { λ d. record {
      before = map guest d.before.items;
      clock = option_map (λ ticks. ticks.items) d.clock;
      current = open_of d.current;
    } };

    ghost invariant = { λ d. (addr : ℕ)
        → contains nat_cmp d.addresses addr
        ≡ has_block (guests_with (open_of d.current) (map guest d.before.items)) addr };
}

impl BlocksDraft {
    /// A program whose first block begins at an address.
    pub fn of_guest(alloc: Global, addr: u64) -> Result<BlocksDraft, AllocError>
        ensures { IfOk result (λ draft. draft ≡ opened [] None (guest_at addr)) }
    {
        let mut addresses = BTreeSet::new(alloc);
        addresses.insert(addr)?;
        Ok(BlocksDraft {
            before: Vec::new(alloc),
            clock: None,
            current: OpenBlock::Guest(Block {
                addr,
                ops: Vec::new(alloc),
            }),
            addresses,
        })
    }

    /// A program whose first block is the clock's.
    pub fn of_clock(alloc: Global) -> BlocksDraft
        ensures { result ≡ opened [] None (OfClock []) }
    {
        BlocksDraft {
            before: Vec::new(alloc),
            clock: None,
            current: OpenBlock::Clock(Vec::new(alloc)),
            addresses: BTreeSet::new(alloc),
        }
    }

    /// Opens a block at an address that no block has.
    pub fn open_guest(&mut self, alloc: Global, addr: u64) -> Result<(), Wrong>
        ensures { MatchResult result
            (λ _. (has_block (guests_of self.old) addr ≡ false)
            × (self.new ≡ opened (guests_of self.old) (clock_of self.old) (guest_at addr)))
            (λ wrong. (wrong ≡ NoMemory) ⊎ ((wrong ≡ SecondBlock) × (has_block (guests_of self.old) addr ≡ true))) }
    {
        self.before.reserve(1)?;
        if !self.addresses.insert(addr)? {
            return Err(Wrong::SecondBlock);
        }
        let open = OpenBlock::Guest(Block {
            addr,
            ops: Vec::new(alloc),
        });
        let closed = mem::replace(&mut self.current, open);
        close(&mut self.before, &mut self.clock, closed);
        Ok(())
    }

    /// Opens the clock's block, if there is none yet.
    pub fn open_clock(&mut self, alloc: Global) -> Result<(), Wrong>
        ensures { MatchResult result
            (λ _. (clock_of self.old ≡ None) × (self.new ≡ opened (guests_of self.old) None (OfClock [])))
            (λ wrong. (wrong ≡ NoMemory) ⊎ ((wrong ≡ SecondBlock) × (is_some (clock_of self.old) ≡ true))) }
    {
        if self.has_clock() {
            return Err(Wrong::SecondBlock);
        }
        self.before.reserve(1)?;
        let closed = mem::replace(&mut self.current, OpenBlock::Clock(Vec::new(alloc)));
        close(&mut self.before, &mut self.clock, closed);
        Ok(())
    }

    /// Whether the clock has a block.
    fn has_clock(&self) -> bool
        ensures { result ≡ is_some (clock_of self.now) }
    {
        match &self.current {
            OpenBlock::Guest(_) => self.clock.is_some(),
            OpenBlock::Clock(_) => true,
        }
    }

    /// Reads the operations of an open guest's block that the bytes begin with, as long as they stand in the form in which
    /// they are printed, and answers the next line's number, and the bytes from it on.
    pub fn read_plain<'a>(&mut self, n: u64, bytes: &'a [u8]) -> Result<(u64, &'a [u8]), AllocError>
        requires number { n + length bytes.now < MOST_LINES }
        ensures read { IfOk result
            (λ found. GoesOn n (Blocked self.old) bytes.now found.0 (Blocked self.new) found.1.now) }
        ensures within { IfOk result (λ found. found.0 + length found.1.now ≤ n + length bytes.now) }
        ensures shorter { IfOk result (λ found. length found.1.now ≤ length bytes.now) }
    {
        self.current.read_plain(n, bytes)
    }

    /// Reads an operation of the open block.
    pub fn line(&mut self, first: &[u8], rest: &[u8]) -> Result<(), Unread>
        ensures { GivesOrWants (λ _. self.new) (told result)
            (tested (in_block_tests self.old.current (first.now ∷ words_in rest.now))
            (record self.old { current = in_block self.old.current (first.now ∷ words_in rest.now) })) }
    {
        self.current.line(first, rest)
    }

    /// All blocks, and the clock's ticks.
    ///
    /// # Errors
    ///
    /// Memory was refused.
    pub fn body(self, alloc: Global) -> Result<Body, AllocError>
        ensures { IfOk result (λ body. content body ≡ content_of (Blocked self)) }
    {
        let BlocksDraft {
            mut before,
            mut clock,
            current,
            ..
        } = self;
        before.reserve(1)?;
        close(&mut before, &mut clock, current);
        Ok(Body::Program {
            blocks: before,
            clock: clock.unwrap_or(Vec::new(alloc)),
        })
    }
}

/// Puts a block that was open to the others.
fn close(before: &mut Vec<Block>, clock: &mut Option<Vec<u64>>, closed: OpenBlock)
    requires { vec_len before.old < vec_capacity before.old }
    ensures before { map guest before.new.items ≡ guests_with (open_of closed) (map guest before.old.items) }
    ensures clock { option_map (λ ticks. ticks.items) clock.new
        ≡ clock_with (open_of closed) (option_map (λ ticks. ticks.items) clock.old) }
{
    match closed {
        OpenBlock::Guest(block) => before.push_reserved(block),
        OpenBlock::Clock(ticks) => *clock = Some(ticks),
    }
}
