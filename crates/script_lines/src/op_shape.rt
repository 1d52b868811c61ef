//! Operations without their numbers.
ghost use Rattle.std.specs.Prelude.{◌≡◌, ◌+◌, ◌≤◌, ◌++◌, ◌∷◌, [], take, length, vec_len, vec_capacity};
ghost use Rattle.script_lines.specs.Packing.{kept_count, number_from, op_made, op_numbers, shape_of, used};

use amo::{Amo, AmoName};
use board_terms::Op;
use sbi_abi::Regs;

/// The most numbers of an operation.
pub const OP_NUMBERS: usize = 8;

/// An operation without its numbers.
#[derive(Clone, Copy, Debug)]
pub enum OpShape {
    Ecall,
    Load,
    Store,
    Fetch,
    WriteSatp,
    WriteSie,
    SstatusOff,
    SstatusOn,
    ReadSip,
    ClearSsip,
    SfenceAll,
    SfenceAddress,
    SfenceAsid,
    SfenceBoth,
    FenceI,
    Wfi,
    Amo(AmoName),
    Poll,
    Serve,
    Advance,
    Tick,
}

impl OpShape {
    /// The shape of an operation. Its numbers are appended; a call's trailing arguments that are 0 are left out.
    pub fn put(op: Op, numbers: &mut Vec<u64>) -> OpShape
        requires { vec_len numbers.old + OP_NUMBERS ≤ vec_capacity numbers.old }
        ensures shape { result ≡ shape_of op }
        ensures numbers { numbers.new.items ≡ numbers.old.items ++ op_numbers op }
        ensures made { op_made result (op_numbers op) ≡ op }
        ensures len { vec_len numbers.new ≤ vec_len numbers.old + OP_NUMBERS }
        ensures more { vec_len numbers.old ≤ vec_len numbers.new }
        ensures capacity { vec_capacity numbers.new ≡ vec_capacity numbers.old }
    {
        match op {
            Op::Ecall(regs) => {
                put_call(regs, numbers);
                OpShape::Ecall
            }
            Op::Load(va) => {
                numbers.push_reserved(va);
                OpShape::Load
            }
            Op::Store(va, value) => {
                put_two(va, value, numbers);
                OpShape::Store
            }
            Op::Fetch(va) => {
                numbers.push_reserved(va);
                OpShape::Fetch
            }
            Op::WriteSatp(value) => {
                numbers.push_reserved(value);
                OpShape::WriteSatp
            }
            Op::WriteSie(value) => {
                numbers.push_reserved(value);
                OpShape::WriteSie
            }
            Op::WriteSstatusSie(false) => OpShape::SstatusOff,
            Op::WriteSstatusSie(true) => OpShape::SstatusOn,
            Op::ReadSip => OpShape::ReadSip,
            Op::ClearSsip => OpShape::ClearSsip,
            Op::Sfence(va, asid) => put_fence(va, asid, numbers),
            Op::FenceI => OpShape::FenceI,
            Op::Wfi => OpShape::Wfi,
            Op::Amo(at, amo) => put_amo(at, amo, numbers),
            Op::Poll => OpShape::Poll,
            Op::Serve => OpShape::Serve,
            Op::Advance => OpShape::Advance,
            Op::Tick(n) => {
                numbers.push_reserved(n);
                OpShape::Tick
            }
        }
    }

    /// The number of an operation's numbers that are stored: of a call those before the trailing zeros.
    #[inline(always)]
    pub fn kept_count(self, numbers: &[u64]) -> usize
        ensures count { result ≡ kept_count self numbers.now }
        ensures bound { result ≤ length numbers.now }
    {
        match self {
            OpShape::Ecall => used(numbers),
            OpShape::Load | OpShape::Store | OpShape::Fetch => numbers.len(),
            OpShape::WriteSatp | OpShape::WriteSie => numbers.len(),
            OpShape::SstatusOff | OpShape::SstatusOn => numbers.len(),
            OpShape::ReadSip | OpShape::ClearSsip => numbers.len(),
            OpShape::SfenceAll | OpShape::SfenceAddress => numbers.len(),
            OpShape::SfenceAsid | OpShape::SfenceBoth => numbers.len(),
            OpShape::FenceI | OpShape::Wfi | OpShape::Amo(_) | OpShape::Poll => numbers.len(),
            OpShape::Serve | OpShape::Advance | OpShape::Tick => numbers.len(),
        }
    }

    /// The operation of this shape, with these numbers.
    #[inline(always)]
    pub fn op(self, numbers: &[u64]) -> Op
        ensures { result ≡ op_made self numbers.now }
    {
        match self {
            OpShape::Ecall => Op::Ecall(regs(numbers)),
            OpShape::Load => Op::Load(number_from(numbers, 0)),
            OpShape::Store => Op::Store(number_from(numbers, 0), number_from(numbers, 1)),
            OpShape::Fetch => Op::Fetch(number_from(numbers, 0)),
            OpShape::WriteSatp => Op::WriteSatp(number_from(numbers, 0)),
            OpShape::WriteSie => Op::WriteSie(number_from(numbers, 0)),
            OpShape::SstatusOff => Op::WriteSstatusSie(false),
            OpShape::SstatusOn => Op::WriteSstatusSie(true),
            OpShape::ReadSip => Op::ReadSip,
            OpShape::ClearSsip => Op::ClearSsip,
            OpShape::SfenceAll => Op::Sfence(None, None),
            OpShape::SfenceAddress => Op::Sfence(Some(number_from(numbers, 0)), None),
            OpShape::SfenceAsid => Op::Sfence(None, Some(number_from(numbers, 0))),
            OpShape::SfenceBoth => Op::Sfence(
                Some(number_from(numbers, 0)),
                Some(number_from(numbers, 1)),
            ),
            OpShape::FenceI => Op::FenceI,
            OpShape::Wfi => Op::Wfi,
            OpShape::Amo(name) => Op::Amo(
                number_from(numbers, 0),
                name.amo(number_from(numbers, 1), number_from(numbers, 2)),
            ),
            OpShape::Poll => Op::Poll,
            OpShape::Serve => Op::Serve,
            OpShape::Advance => Op::Advance,
            OpShape::Tick => Op::Tick(number_from(numbers, 0)),
        }
    }
}

/// The number at a place, or 0 past the end.
pub fn number_from(numbers: &[u64], place: usize) -> u64
    ensures { result ≡ number_from numbers.now place }
{
    match numbers.get(place) {
        Some(number) => *number,
        None => 0,
    }
}

/// The registers of a call.
fn regs(numbers: &[u64]) -> Regs
    ensures { Op.Ecall result ≡ op_made OpShape.Ecall numbers.now }
{
    Regs {
        eid: number_from(numbers, 0),
        fid: number_from(numbers, 1),
        a: [
            number_from(numbers, 2),
            number_from(numbers, 3),
            number_from(numbers, 4),
            number_from(numbers, 5),
            number_from(numbers, 6),
            number_from(numbers, 7),
        ],
    }
}

/// Appends two numbers.
fn put_two(first: u64, second: u64, numbers: &mut Vec<u64>)
    requires { vec_len numbers.old + 2 ≤ vec_capacity numbers.old }
    ensures numbers { numbers.new.items ≡ numbers.old.items ++ first ∷ second ∷ [] }
    ensures len { vec_len numbers.new ≡ vec_len numbers.old + 2 }
    ensures capacity { vec_capacity numbers.new ≡ vec_capacity numbers.old }
{
    numbers.push_reserved(first);
    numbers.push_reserved(second);
}

/// Appends the address and the numbers of an operation on the word around its address, and returns its shape.
fn put_amo(at: u64, amo: Amo, numbers: &mut Vec<u64>) -> OpShape
    requires { vec_len numbers.old + 3 ≤ vec_capacity numbers.old }
    ensures shape { result ≡ shape_of (Op.Amo at amo) }
    ensures numbers { numbers.new.items ≡ numbers.old.items ++ op_numbers (Op.Amo at amo) }
    ensures made { op_made result (op_numbers (Op.Amo at amo)) ≡ Op.Amo at amo }
    ensures len { vec_len numbers.new ≤ vec_len numbers.old + 3 }
    ensures more { vec_len numbers.old ≤ vec_len numbers.new }
    ensures capacity { vec_capacity numbers.new ≡ vec_capacity numbers.old }
{
    match amo {
        Amo::Double(function, operand) => {
            put_two(at, operand, numbers);
            OpShape::Amo(AmoName::Double(function))
        }
        Amo::Half(function, operand) => {
            put_two(at, operand, numbers);
            OpShape::Amo(AmoName::Half(function))
        }
        Amo::Cas(expected, value) => {
            put_two(at, expected, numbers);
            numbers.push_reserved(value);
            OpShape::Amo(AmoName::Cas)
        }
        Amo::Store1(value) => {
            put_two(at, value, numbers);
            OpShape::Amo(AmoName::Store1)
        }
        Amo::Store2(value) => {
            put_two(at, value, numbers);
            OpShape::Amo(AmoName::Store2)
        }
        Amo::Store4(value) => {
            put_two(at, value, numbers);
            OpShape::Amo(AmoName::Store4)
        }
    }
}

/// Appends the numbers of a local fence, and returns its shape, which says which numbers it has.
fn put_fence(va: Option<u64>, asid: Option<u64>, numbers: &mut Vec<u64>) -> OpShape
    requires { vec_len numbers.old + 2 ≤ vec_capacity numbers.old }
    ensures shape { result ≡ shape_of (Op.Sfence va asid) }
    ensures numbers { numbers.new.items ≡ numbers.old.items ++ op_numbers (Op.Sfence va asid) }
    ensures made { op_made result (op_numbers (Op.Sfence va asid)) ≡ Op.Sfence va asid }
    ensures len { vec_len numbers.new ≤ vec_len numbers.old + 2 }
    ensures more { vec_len numbers.old ≤ vec_len numbers.new }
    ensures capacity { vec_capacity numbers.new ≡ vec_capacity numbers.old }
{
    match (va, asid) {
        (None, None) => OpShape::SfenceAll,
        (Some(va), None) => {
            numbers.push_reserved(va);
            OpShape::SfenceAddress
        }
        (None, Some(asid)) => {
            numbers.push_reserved(asid);
            OpShape::SfenceAsid
        }
        (Some(va), Some(asid)) => {
            put_two(va, asid, numbers);
            OpShape::SfenceBoth
        }
    }
}

/// Appends the numbers of a call, without trailing arguments that are 0.
fn put_call(regs: Regs, numbers: &mut Vec<u64>)
    requires { vec_len numbers.old + OP_NUMBERS ≤ vec_capacity numbers.old }
    ensures numbers { numbers.new.items ≡ numbers.old.items ++ op_numbers (Op.Ecall regs) }
    ensures made { op_made OpShape.Ecall (op_numbers (Op.Ecall regs)) ≡ Op.Ecall regs }
    ensures len { vec_len numbers.new ≤ vec_len numbers.old + OP_NUMBERS }
    ensures more { vec_len numbers.old ≤ vec_len numbers.new }
    ensures capacity { vec_capacity numbers.new ≡ vec_capacity numbers.old }
{
    put_two(regs.eid, regs.fid, numbers);
    let count = used(&regs.a);
    put_all(&regs.a[..count], numbers);
}

/// Appends numbers.
pub fn put_all(more: &[u64], numbers: &mut Vec<u64>)
    requires { vec_len numbers.old + length more.now ≤ vec_capacity numbers.old }
    ensures numbers { numbers.new.items ≡ numbers.old.items ++ more.now }
    ensures len { vec_len numbers.new ≡ vec_len numbers.old + length more.now }
    ensures capacity { vec_capacity numbers.new ≡ vec_capacity numbers.old }
{
    for number in more {
        numbers.push_reserved(*number);
    }
}

/// The number of numbers before the trailing zeros.
fn used(numbers: &[u64]) -> usize
    ensures count { result ≡ used numbers.now }
    ensures bound { result ≤ length numbers.now }
{
    let mut count = numbers.len();
    while count > 0 && numbers[count - 1] == 0 {
        count -= 1;
    }
    count
}
