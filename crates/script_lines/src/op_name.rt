//! Operations by their names: the word of each, the numbers that can follow it, and whether a guest can do it.
ghost use Rattle.std.specs.Prelude.{◌≡◌, ◌≤◌, MatchOption, None, length};
ghost use Rattle.script_lines.specs.Names.{amo_word, is_guests, name_of, op_from, op_named, op_places, op_word, regs_of};
ghost use Rattle.script_lines.specs.Packing.{named_shape};

use crate::op_shape::{OP_NUMBERS, OpShape};
use crate::places::{Places, any_numbers, argument_at, number_at};
use crate::words;
use amo::{AmoFunction, AmoName};
use board_terms::Op;
use sbi_abi::Regs;

/// The name of an operation.
#[derive(Clone, Copy, Debug, PartialEq, Eq)]
pub enum OpName {
    /// `ecall`
    Ecall,
    /// `load`
    Load,
    /// `store`
    Store,
    /// `fetch`
    Fetch,
    /// `satp`
    Satp,
    /// `sie`
    Sie,
    /// `sstatus`
    Sstatus,
    /// `sip`
    Sip,
    /// `clearssip`
    Clearssip,
    /// `sfence`
    Sfence,
    /// `fencei`
    Fencei,
    /// `wfi`
    Wfi,
    /// `amoswap` to `amomaxu`, the same with `.w`, `amocas`, `store1`, `store2` and `store4`
    Amo(AmoName),
    /// `poll`
    Poll,
    /// `serve`
    Serve,
    /// `advance`
    Advance,
    /// `tick`
    Tick,
}

/// All names, those of guests' operations first.
const OP_NAMES: [OpName; 38] = [
    OpName::Ecall,
    OpName::Load,
    OpName::Store,
    OpName::Fetch,
    OpName::Satp,
    OpName::Sie,
    OpName::Sstatus,
    OpName::Sip,
    OpName::Clearssip,
    OpName::Sfence,
    OpName::Fencei,
    OpName::Wfi,
    OpName::Amo(AmoName::Double(AmoFunction::Swap)),
    OpName::Amo(AmoName::Double(AmoFunction::Add)),
    OpName::Amo(AmoName::Double(AmoFunction::And)),
    OpName::Amo(AmoName::Double(AmoFunction::Or)),
    OpName::Amo(AmoName::Double(AmoFunction::Xor)),
    OpName::Amo(AmoName::Double(AmoFunction::Min)),
    OpName::Amo(AmoName::Double(AmoFunction::Max)),
    OpName::Amo(AmoName::Double(AmoFunction::Minu)),
    OpName::Amo(AmoName::Double(AmoFunction::Maxu)),
    OpName::Amo(AmoName::Half(AmoFunction::Swap)),
    OpName::Amo(AmoName::Half(AmoFunction::Add)),
    OpName::Amo(AmoName::Half(AmoFunction::And)),
    OpName::Amo(AmoName::Half(AmoFunction::Or)),
    OpName::Amo(AmoName::Half(AmoFunction::Xor)),
    OpName::Amo(AmoName::Half(AmoFunction::Min)),
    OpName::Amo(AmoName::Half(AmoFunction::Max)),
    OpName::Amo(AmoName::Half(AmoFunction::Minu)),
    OpName::Amo(AmoName::Half(AmoFunction::Maxu)),
    OpName::Amo(AmoName::Cas),
    OpName::Amo(AmoName::Store1),
    OpName::Amo(AmoName::Store2),
    OpName::Amo(AmoName::Store4),
    OpName::Poll,
    OpName::Serve,
    OpName::Advance,
    OpName::Tick,
];

impl OpName {
    /// The name that a word spells.
    pub fn of(word: &[u8]) -> Option<OpName>
        ensures { MatchOption result (op_named word.now ≡ None) (λ name. word.now ≡ op_word name) }
    {
        OP_NAMES.iter().find(|name| word == name.word()).copied()
    }

    /// The word that spells the name.
    #[inline(always)]
    pub fn word(self) -> &'static [u8]
        ensures word { result.now ≡ op_word self }
        ensures len { length result.now ≤ 9 }
    {
        match self {
            OpName::Ecall => words::ECALL,
            OpName::Load => words::LOAD,
            OpName::Store => words::STORE,
            OpName::Fetch => words::FETCH,
            OpName::Satp => words::SATP,
            OpName::Sie => words::SIE,
            OpName::Sstatus => words::SSTATUS,
            OpName::Sip => words::SIP,
            OpName::Clearssip => words::CLEARSSIP,
            OpName::Sfence => words::SFENCE,
            OpName::Fencei => words::FENCEI,
            OpName::Wfi => words::WFI,
            OpName::Amo(name) => amo_word(name),
            OpName::Poll => words::POLL,
            OpName::Serve => words::SERVE,
            OpName::Advance => words::ADVANCE,
            OpName::Tick => words::TICK,
        }
    }

    /// The numbers that can follow the name.
    #[inline(always)]
    pub fn places(self) -> Places
        ensures form { result ≡ op_places self }
        ensures fits { result.most ≤ OP_NUMBERS }
    {
        match self {
            OpName::Ecall => any_numbers(2, 8),
            OpName::Sstatus => Places {
                least: 1,
                most: 1,
                limit: 1,
                may_be_absent: false,
            },
            OpName::Sfence => Places {
                least: 2,
                most: 2,
                limit: u64::MAX,
                may_be_absent: true,
            },
            OpName::Load | OpName::Fetch | OpName::Satp => any_numbers(1, 1),
            OpName::Sie | OpName::Tick => any_numbers(1, 1),
            OpName::Store => any_numbers(2, 2),
            OpName::Amo(name) => any_numbers(1 + name.count(), 1 + name.count()),
            OpName::Sip | OpName::Clearssip | OpName::Fencei => any_numbers(0, 0),
            OpName::Wfi | OpName::Poll => any_numbers(0, 0),
            OpName::Serve | OpName::Advance => any_numbers(0, 0),
        }
    }

    /// Whether a guest can do the operation.
    #[inline(always)]
    pub fn is_guests(self) -> bool
        ensures { result ≡ is_guests self }
    {
        !matches!(
            self,
            OpName::Poll | OpName::Serve | OpName::Advance | OpName::Tick
        )
    }

    /// The operation of this name, with its arguments.
    pub fn op(self, arguments: &[Option<u64>]) -> Op
        ensures { result ≡ op_from self arguments.now }
    {
        match self {
            OpName::Ecall => Op::Ecall(regs(arguments)),
            OpName::Load => Op::Load(number_at(arguments, 0)),
            OpName::Store => Op::Store(number_at(arguments, 0), number_at(arguments, 1)),
            OpName::Fetch => Op::Fetch(number_at(arguments, 0)),
            OpName::Satp => Op::WriteSatp(number_at(arguments, 0)),
            OpName::Sie => Op::WriteSie(number_at(arguments, 0)),
            OpName::Sstatus => Op::WriteSstatusSie(number_at(arguments, 0) == 1),
            OpName::Sip => Op::ReadSip,
            OpName::Clearssip => Op::ClearSsip,
            OpName::Sfence => Op::Sfence(argument_at(arguments, 0), argument_at(arguments, 1)),
            OpName::Fencei => Op::FenceI,
            OpName::Wfi => Op::Wfi,
            OpName::Amo(name) => Op::Amo(
                number_at(arguments, 0),
                name.amo(number_at(arguments, 1), number_at(arguments, 2)),
            ),
            OpName::Poll => Op::Poll,
            OpName::Serve => Op::Serve,
            OpName::Advance => Op::Advance,
            OpName::Tick => Op::Tick(number_at(arguments, 0)),
        }
    }

    /// The name of an operation.
    #[inline(always)]
    pub fn of_op(op: &Op) -> OpName
        ensures { result ≡ name_of op.now }
    {
        match op {
            Op::Ecall(_) => OpName::Ecall,
            Op::Load(_) => OpName::Load,
            Op::Store(..) => OpName::Store,
            Op::Fetch(_) => OpName::Fetch,
            Op::WriteSatp(_) => OpName::Satp,
            Op::WriteSie(_) => OpName::Sie,
            Op::WriteSstatusSie(_) => OpName::Sstatus,
            Op::ReadSip => OpName::Sip,
            Op::ClearSsip => OpName::Clearssip,
            Op::Sfence(..) => OpName::Sfence,
            Op::FenceI => OpName::Fencei,
            Op::Wfi => OpName::Wfi,
            Op::Amo(_, amo) => OpName::Amo(AmoName::of(*amo)),
            Op::Poll => OpName::Poll,
            Op::Serve => OpName::Serve,
            Op::Advance => OpName::Advance,
            Op::Tick(_) => OpName::Tick,
        }
    }

    /// The packed shape of the operation, if no number is a dash.
    #[inline(always)]
    pub fn shape(self) -> OpShape
        ensures { result ≡ named_shape self }
    {
        match self {
            OpName::Ecall => OpShape::Ecall,
            OpName::Load => OpShape::Load,
            OpName::Store => OpShape::Store,
            OpName::Fetch => OpShape::Fetch,
            OpName::Satp => OpShape::WriteSatp,
            OpName::Sie => OpShape::WriteSie,
            OpName::Sstatus => OpShape::SstatusOff,
            OpName::Sip => OpShape::ReadSip,
            OpName::Clearssip => OpShape::ClearSsip,
            OpName::Sfence => OpShape::SfenceBoth,
            OpName::Fencei => OpShape::FenceI,
            OpName::Wfi => OpShape::Wfi,
            OpName::Amo(name) => OpShape::Amo(name),
            OpName::Poll => OpShape::Poll,
            OpName::Serve => OpShape::Serve,
            OpName::Advance => OpShape::Advance,
            OpName::Tick => OpShape::Tick,
        }
    }
}

/// The word of an operation on the word around its address.
fn amo_word(name: AmoName) -> &'static [u8]
    ensures word { result.now ≡ amo_word name }
    ensures len { length result.now ≤ 9 }
{
    match name {
        AmoName::Double(AmoFunction::Swap) => words::AMOSWAP,
        AmoName::Double(AmoFunction::Add) => words::AMOADD,
        AmoName::Double(AmoFunction::And) => words::AMOAND,
        AmoName::Double(AmoFunction::Or) => words::AMOOR,
        AmoName::Double(AmoFunction::Xor) => words::AMOXOR,
        AmoName::Double(AmoFunction::Min) => words::AMOMIN,
        AmoName::Double(AmoFunction::Max) => words::AMOMAX,
        AmoName::Double(AmoFunction::Minu) => words::AMOMINU,
        AmoName::Double(AmoFunction::Maxu) => words::AMOMAXU,
        AmoName::Half(AmoFunction::Swap) => words::AMOSWAP_W,
        AmoName::Half(AmoFunction::Add) => words::AMOADD_W,
        AmoName::Half(AmoFunction::And) => words::AMOAND_W,
        AmoName::Half(AmoFunction::Or) => words::AMOOR_W,
        AmoName::Half(AmoFunction::Xor) => words::AMOXOR_W,
        AmoName::Half(AmoFunction::Min) => words::AMOMIN_W,
        AmoName::Half(AmoFunction::Max) => words::AMOMAX_W,
        AmoName::Half(AmoFunction::Minu) => words::AMOMINU_W,
        AmoName::Half(AmoFunction::Maxu) => words::AMOMAXU_W,
        AmoName::Cas => words::AMOCAS,
        AmoName::Store1 => words::STORE1,
        AmoName::Store2 => words::STORE2,
        AmoName::Store4 => words::STORE4,
    }
}

/// The registers of a call. A missing argument is 0.
fn regs(arguments: &[Option<u64>]) -> Regs
    ensures { result ≡ regs_of arguments.now }
{
    Regs {
        eid: number_at(arguments, 0),
        fid: number_at(arguments, 1),
        a: [
            number_at(arguments, 2),
            number_at(arguments, 3),
            number_at(arguments, 4),
            number_at(arguments, 5),
            number_at(arguments, 6),
            number_at(arguments, 7),
        ],
    }
}
