//! Lines that stand in the form in which steps are printed, each read in one pass.
ghost use Rattle.std.specs.Prelude.{◌≡◌, ◌≢◌, ◌+◌, ◌≤◌, ◌<◌, ◌++◌, ◌∷◌, [], ℕ, List, Option, None, Some, IfOk, IfSome, MatchOption, length};
ghost use Rattle.board_terms.specs.declared.op.Op.{Op};
ghost use Rattle.board_terms.specs.declared.op.Op.TheVariants.{Sfence};
ghost use Rattle.script_lines.specs.declared.script.Line.{Line};
ghost use Rattle.guest_script.specs.Words.{last_number};
ghost use Rattle.guest_script.specs.Grammar.{Guest};
ghost use Rattle.guest_script.specs.Inside.Drafts.{in_guest, steps_of};
ghost use Rattle.guest_script.specs.Reading.{GoesOn};
ghost use Rattle.guest_script.specs.Inside.PlainLines.{BeginsActor, BeginsArgument, BeginsGuest, BeginsLine, BeginsName, BeginsNamed, BeginsNumber, BeginsNumbers, BeginsOp, BeginsSaid, BeginsSaidName, BeginsSigned, BeginsWord};
ghost use Rattle.script_lines.specs.KeptLines.{plain_line};
ghost use Rattle.script_lines.specs.Names.{op_word, said_word};
ghost use Rattle.script_lines.specs.Packing.{FitsKept, op_made};

use crate::amo_letters::amo_by_letters;
use crate::hart_digits::plain_hart;
use crate::numbers::MOST_ARGUMENTS;
use crate::plain_digits::{plain_digits, plain_hex};
use arrayvec::ArrayVec;
use board_terms::{Actor, Op};
use line_words::{LAST_ABOVE, LAST_BELOW, below_zero};
use script_lines::{
    LAST_HART, Lines, MOST_LINES, OpName, OpShape, Places, Plain, Said, SaidName, words,
};
use std::alloc::AllocError;

/// The operations that a line's letters are compared with.
trait Among {
    ghost use Rattle.std.specs.Prelude.{◌≡◌, ◌≤◌, ◌∷◌, [], IfSome, length};
    ghost use Rattle.guest_script.specs.Inside.PlainLines.{BeginsOp};
    ghost use Rattle.script_lines.specs.Packing.{op_made};

    /// An operation's name and its numbers, which have no limits of their own.
    fn plain_op<'a>(
        bytes: &'a [u8],
        numbers: &mut ArrayVec<u64, MOST_ARGUMENTS>,
    ) -> Option<(OpShape, &'a [u8])>
        requires { numbers.old.items ≡ [] }
        ensures op { IfSome result
            (λ found. BeginsOp (32 ∷ bytes.now) (op_made found.0 numbers.new.items) found.1.now) }
        ensures shorter { IfSome result (λ found. length found.1.now ≤ length bytes.now) };
}

/// All but atomic ones, and stores of part of a word.
struct Usual;

/// Atomic ones, and stores of part of a word. They are rare, and a loop that had them too would take longer for each line.
struct Atomic;

impl Among for Usual {
    #[inline(always)]
    fn plain_op<'a>(
        bytes: &'a [u8],
        numbers: &mut ArrayVec<u64, MOST_ARGUMENTS>,
    ) -> Option<(OpShape, &'a [u8])> {
        plain_by_letters(bytes, numbers)
    }
}

impl Among for Atomic {
    #[inline(always)]
    fn plain_op<'a>(
        bytes: &'a [u8],
        numbers: &mut ArrayVec<u64, MOST_ARGUMENTS>,
    ) -> Option<(OpShape, &'a [u8])> {
        let name = amo_by_letters(bytes)?;
        plain_named(name, name.word(), bytes, numbers)
    }
}

/// Puts the lines from number `first` on, which the bytes are, behind the others, as long as they stand in the form in which
/// steps are printed, and answers the next line's number, and the bytes from it on.
///
/// # Errors
///
/// Memory was refused.
pub fn read_plain_lines<'a>(
    steps: &mut Lines,
    first: u64,
    in_trace: bool,
    bytes: &'a [u8],
) -> Result<(u64, &'a [u8]), AllocError>
    requires number { first + length bytes.now < MOST_LINES }
    ensures read { IfOk result
        (λ found. GoesOn first (steps_of in_trace steps.old) bytes.now found.0
        (steps_of in_trace steps.new) found.1.now) }
    ensures within { IfOk result (λ found. found.0 + length found.1.now ≤ first + length bytes.now) }
    ensures shorter { IfOk result (λ found. length found.1.now ≤ length bytes.now) }
{
    let (mut number, mut rest) = read_usual_lines(steps, first, in_trace, bytes)?;
    while let Some(after) = read_plain_line::<Atomic>(steps, number, in_trace, rest)? {
        let (next, more) = read_usual_lines(steps, number + 1, in_trace, after)?;
        number = next;
        rest = more;
    }
    Ok((number, rest))
}

/// The same, up to the first line of an atomic operation, or of a store of part of a word.
///
/// # Errors
///
/// Memory was refused.
#[inline(never)]
fn read_usual_lines<'a>(
    steps: &mut Lines,
    first: u64,
    in_trace: bool,
    bytes: &'a [u8],
) -> Result<(u64, &'a [u8]), AllocError>
    requires number { first + length bytes.now < MOST_LINES }
    ensures read { IfOk result
        (λ found. GoesOn first (steps_of in_trace steps.old) bytes.now found.0
        (steps_of in_trace steps.new) found.1.now) }
    ensures within { IfOk result (λ found. found.0 + length found.1.now ≤ first + length bytes.now) }
    ensures shorter { IfOk result (λ found. length found.1.now ≤ length bytes.now) }
{
    let mut number = first;
    let mut rest = bytes;
    while let Some(after) = read_plain_line::<Usual>(steps, number, in_trace, rest)? {
        rest = after;
        number += 1;
    }
    Ok((number, rest))
}

/// Puts line `n`, which the bytes begin with, behind the lines, if it stands in the form in which steps are printed, and
/// answers the bytes after it. Else nothing is read.
///
/// # Errors
///
/// Memory was refused.
#[inline(always)]
fn read_plain_line<'a, A: Among>(
    lines: &mut Lines,
    n: u64,
    in_trace: bool,
    bytes: &'a [u8],
) -> Result<Option<&'a [u8]>, AllocError>
    requires { n < MOST_LINES }
    ensures { IfOk result (λ found. MatchOption found (lines.new ≡ lines.old)
        (λ after. (line : Line) × BeginsLine n in_trace bytes.now line after.now × (lines.new ≡ lines.old ++ line ∷ [])
        × (length after.now < length bytes.now))) }
{
    let mut numbers = ArrayVec::new();
    match plain_line::<A>(in_trace, bytes, &mut numbers) {
        Some((plain, after)) => {
            lines.push_plain(n, plain, &numbers)?;
            Ok(Some(after))
        }
        None => Ok(None),
    }
}

/// A line of a schedule or of a trace, which the bytes begin with, and the bytes after it, if it stands in the form in which
/// steps are printed, and no number of it has a limit of its own. Its operation's numbers are gathered. It is read in one
/// pass; each other form is for the reader of words.
#[inline(always)]
fn plain_line<'a, A: Among>(
    in_trace: bool,
    bytes: &'a [u8],
    numbers: &mut ArrayVec<u64, MOST_ARGUMENTS>,
) -> Option<(Plain, &'a [u8])>
    requires { numbers.old.items ≡ [] }
    ensures actor { IfSome result (λ found. FitsKept found.0.actor) }
    ensures line { IfSome result
        (λ found. (n : ℕ) → BeginsLine n in_trace bytes.now (plain_line n found.0 numbers.new.items) found.1.now) }
    ensures shorter { IfSome result (λ found. length found.1.now < length bytes.now) }
{
    let (actor, rest) = plain_actor(bytes)?;
    let named = after(rest, b" ")?;
    let (op, rest) = A::plain_op(named, numbers)?;
    if in_trace {
        let replies = after(rest, b" ->")?;
        let (said, end) = plain_said(replies)?;
        let after = after(end, b"\n")?;
        let said = Some(said);
        Some((Plain { actor, op, said }, after))
    } else {
        let after = after(rest, b"\n")?;
        let said = None;
        Some((Plain { actor, op, said }, after))
    }
}

/// Puts the operations that the bytes are behind those of a guest's block, as long as they stand in the form in which they are
/// printed, and answers the next line's number, and the bytes from it on.
///
/// # Errors
///
/// Memory was refused.
pub fn read_plain_ops<'a>(
    ops: &mut Vec<Op>,
    first: u64,
    bytes: &'a [u8],
) -> Result<(u64, &'a [u8]), AllocError>
    requires number { first + length bytes.now < MOST_LINES }
    ensures read { IfOk result (λ found. (before : List Guest) (clock : Option (List ℕ)) (addr : ℕ)
        → GoesOn first (in_guest before clock addr ops.old.items) bytes.now found.0
        (in_guest before clock addr ops.new.items) found.1.now) }
    ensures within { IfOk result (λ found. found.0 + length found.1.now ≤ first + length bytes.now) }
    ensures shorter { IfOk result (λ found. length found.1.now ≤ length bytes.now) }
{
    let mut number = first;
    let mut rest = bytes;
    while let Some(after) = read_plain_op(ops, rest)? {
        rest = after;
        number += 1;
    }
    Ok((number, rest))
}

/// Puts the operation that the bytes begin with behind those of a guest's block, if it stands in the form in which it is
/// printed, and answers the bytes after its line. Else nothing is read.
///
/// # Errors
///
/// Memory was refused.
#[inline(always)]
fn read_plain_op<'a>(ops: &mut Vec<Op>, bytes: &'a [u8]) -> Result<Option<&'a [u8]>, AllocError>
    ensures { IfOk result (λ found. MatchOption found (ops.new.items ≡ ops.old.items)
        (λ after. (op : Op) × BeginsGuest bytes.now op after.now × (ops.new.items ≡ ops.old.items ++ op ∷ [])
        × (length after.now < length bytes.now))) }
{
    let mut numbers = ArrayVec::new();
    match plain_guest(bytes, &mut numbers) {
        Some((op, after)) => {
            ops.push(op.op(&numbers))?;
            Ok(Some(after))
        }
        None => Ok(None),
    }
}

/// A guest's operation, which the bytes begin with, and the bytes after its line, if it stands in the form in which it is
/// printed. Its numbers are gathered.
#[inline(always)]
fn plain_guest<'a>(
    bytes: &'a [u8],
    numbers: &mut ArrayVec<u64, MOST_ARGUMENTS>,
) -> Option<(OpShape, &'a [u8])>
    requires { numbers.old.items ≡ [] }
    ensures op { IfSome result (λ found. BeginsGuest bytes.now (op_made found.0 numbers.new.items) found.1.now) }
    ensures shorter { IfSome result (λ found. length found.1.now < length bytes.now) }
{
    let name = guest_by_letters(bytes)?;
    if !name.is_guests() {
        return None;
    }
    let (op, rest) = plain_named(name, name.word(), bytes, numbers)?;
    let after = after(rest, b"\n")?;
    Some((op, after))
}

/// The only guest's operation that the letters allow.
#[inline(always)]
fn guest_by_letters(bytes: &[u8]) -> Option<OpName> {
    match bytes {
        [b'e', ..] => Some(OpName::Ecall),
        [b'l', ..] => Some(OpName::Load),
        [b'w', ..] => Some(OpName::Wfi),
        [b'c', ..] => Some(OpName::Clearssip),
        [b'f', b'e', b't', ..] => Some(OpName::Fetch),
        [b'f', ..] => Some(OpName::Fencei),
        [b's', b'i', b'p', ..] => Some(OpName::Sip),
        [b's', b'i', ..] => Some(OpName::Sie),
        [b's', b't', _, _, _, b' ', ..] => Some(OpName::Store),
        [b's', b't', ..] | [b'a', ..] => amo_by_letters(bytes),
        [b's', b'a', ..] => Some(OpName::Satp),
        [b's', b'f', ..] => Some(OpName::Sfence),
        [b's', ..] => Some(OpName::Sstatus),
        _ => None,
    }
}

/// The actor that the bytes begin with, and what stands behind it.
#[inline(always)]
fn plain_actor(bytes: &[u8]) -> Option<(Actor, &[u8])>
    ensures actor { IfSome result (λ found. BeginsActor bytes.now found.0 found.1.now) }
    ensures fits { IfSome result (λ found. FitsKept found.0) }
    ensures shorter { IfSome result (λ found. length found.1.now ≤ length bytes.now) }
{
    match bytes {
        [b'c', rest @ ..] => Some((Actor::Clock, rest)),
        _ => {
            let (hart, rest) = plain_hart(bytes)?;
            if hart <= LAST_HART {
                Some((Actor::Hart(hart), rest))
            } else {
                None
            }
        }
    }
}

/// An operation's name and its numbers, which have no limits of their own; a fence has those that are there. The one name that
/// may stand there is told by its letters; a wrong guess costs no more than its time.
#[inline(always)]
fn plain_by_letters<'a>(
    bytes: &'a [u8],
    numbers: &mut ArrayVec<u64, MOST_ARGUMENTS>,
) -> Option<(OpShape, &'a [u8])>
    requires { numbers.old.items ≡ [] }
    ensures op { IfSome result
        (λ found. BeginsOp (32 ∷ bytes.now) (op_made found.0 numbers.new.items) found.1.now) }
    ensures shorter { IfSome result (λ found. length found.1.now ≤ length bytes.now) }
{
    match bytes {
        [b'e', ..] => plain_named(OpName::Ecall, words::ECALL, bytes, numbers),
        [b'l', ..] => plain_named(OpName::Load, words::LOAD, bytes, numbers),
        [b't', ..] => plain_named(OpName::Tick, words::TICK, bytes, numbers),
        [b'a', ..] => plain_named(OpName::Advance, words::ADVANCE, bytes, numbers),
        [b'p', ..] => plain_named(OpName::Poll, words::POLL, bytes, numbers),
        [b'w', ..] => plain_named(OpName::Wfi, words::WFI, bytes, numbers),
        [b'c', ..] => plain_named(OpName::Clearssip, words::CLEARSSIP, bytes, numbers),
        [b'f', b'e', b't', ..] => plain_named(OpName::Fetch, words::FETCH, bytes, numbers),
        [b'f', ..] => plain_named(OpName::Fencei, words::FENCEI, bytes, numbers),
        [b's', b'i', b'p', ..] => plain_named(OpName::Sip, words::SIP, bytes, numbers),
        [b's', b'i', ..] => plain_named(OpName::Sie, words::SIE, bytes, numbers),
        [b's', b't', ..] => plain_named(OpName::Store, words::STORE, bytes, numbers),
        [b's', b'a', ..] => plain_named(OpName::Satp, words::SATP, bytes, numbers),
        [b's', b'f', ..] => plain_named(OpName::Sfence, words::SFENCE, bytes, numbers),
        [b's', b'e', ..] => plain_named(OpName::Serve, words::SERVE, bytes, numbers),
        [b's', ..] => plain_named(OpName::Sstatus, words::SSTATUS, bytes, numbers),
        _ => None,
    }
}

/// The same of one name.
#[inline(always)]
fn plain_named<'a>(
    name: OpName,
    word: &[u8],
    bytes: &'a [u8],
    numbers: &mut ArrayVec<u64, MOST_ARGUMENTS>,
) -> Option<(OpShape, &'a [u8])>
    requires word { word.now ≡ op_word name }
    requires none { numbers.old.items ≡ [] }
    ensures named { IfSome result
        (λ found. BeginsNamed name bytes.now (op_made found.0 numbers.new.items) found.1.now) }
    ensures op { IfSome result
        (λ found. BeginsOp (32 ∷ bytes.now) (op_made found.0 numbers.new.items) found.1.now) }
    ensures shorter { IfSome result (λ found. length found.1.now ≤ length bytes.now) }
{
    let rest = after(bytes, word)?;
    match name {
        OpName::Sfence => plain_fence(rest, numbers),
        _ => {
            let rest = plain_places(name.places(), rest, numbers)?;
            Some((name.shape(), rest))
        }
    }
}

/// The address and the address space behind `sfence`, each a number or a dash.
#[inline(always)]
fn plain_fence<'a>(
    bytes: &'a [u8],
    numbers: &mut ArrayVec<u64, MOST_ARGUMENTS>,
) -> Option<(OpShape, &'a [u8])>
    requires { numbers.old.items ≡ [] }
    ensures named { IfSome result
        (λ found. (before : List ℕ) → BeginsName before OpName.Sfence bytes.now
        → BeginsNamed OpName.Sfence before (op_made found.0 numbers.new.items) found.1.now) }
    ensures op { IfSome result
        (λ found. (before : List ℕ) → BeginsName before OpName.Sfence bytes.now
        → BeginsOp (32 ∷ before) (op_made found.0 numbers.new.items) found.1.now) }
    ensures shorter { IfSome result (λ found. length found.1.now ≤ length bytes.now) }
{
    let (va, rest) = plain_argument(bytes)?;
    let (asid, rest) = plain_argument(rest)?;
    Some((gather_fence(va, asid, numbers), rest))
}

/// The shape of a fence. Its numbers are gathered.
#[inline(always)]
fn gather_fence(
    va: Option<u64>,
    asid: Option<u64>,
    numbers: &mut ArrayVec<u64, MOST_ARGUMENTS>,
) -> OpShape
    requires { numbers.old.items ≡ [] }
    ensures { op_made result numbers.new.items ≡ Sfence va asid }
{
    match (va, asid) {
        (None, None) => OpShape::SfenceAll,
        (Some(va), None) => {
            numbers.push(va);
            OpShape::SfenceAddress
        }
        (None, Some(asid)) => {
            numbers.push(asid);
            OpShape::SfenceAsid
        }
        (Some(va), Some(asid)) => {
            numbers.push(va);
            numbers.push(asid);
            OpShape::SfenceBoth
        }
    }
}

/// A blank, and a number or the dash that stands for none.
#[inline(always)]
fn plain_argument(bytes: &[u8]) -> Option<(Option<u64>, &[u8])>
    ensures argument { IfSome result (λ found. BeginsArgument bytes.now found.0 found.1.now) }
    ensures shorter { IfSome result (λ found. length found.1.now ≤ length bytes.now) }
{
    match bytes {
        [b' ', b'-', rest @ ..] => Some((None, rest)),
        _ => {
            let (n, rest) = plain_number(bytes)?;
            Some((Some(n), rest))
        }
    }
}

/// The numbers in these places, if none of them has a limit of its own.
#[inline(always)]
#[tactic(auto, using(crate::proofs::PlainParts::no_numbers))]
fn plain_places<'a>(
    places: Places,
    bytes: &'a [u8],
    numbers: &mut ArrayVec<u64, MOST_ARGUMENTS>,
) -> Option<&'a [u8]>
    requires none { numbers.old.items ≡ [] }
    requires fits { places.most ≤ MOST_ARGUMENTS }
    ensures any { IfSome result (λ _. places.limit ≡ last_number) }
    ensures numbers { IfSome result (λ rest. BeginsNumbers bytes.now numbers.new.items rest.now) }
    ensures least { IfSome result (λ _. places.least ≤ length numbers.new.items) }
    ensures most { IfSome result (λ _. length numbers.new.items ≤ places.most) }
    ensures shorter { IfSome result (λ rest. length rest.now ≤ length bytes.now) }
{
    if places.limit != u64::MAX {
        return None;
    }
    let rest = match places.most {
        0 => bytes,
        1 => plain_one(bytes, numbers),
        most => plain_numbers(bytes, most, numbers),
    };
    if numbers.len() < places.least {
        return None;
    }
    Some(rest)
}

/// What follows a front, which the bytes may have.
#[tactic(auto, using(crate::proofs::PlainParts::stripped))]
fn after<'a>(bytes: &'a [u8], front: &[u8]) -> Option<&'a [u8]>
    ensures front { IfSome result (λ rest. bytes.now ≡ front.now ++ rest.now) }
    ensures shorter { IfSome result (λ rest. length rest.now + length front.now ≡ length bytes.now) }
{
    bytes.strip_prefix(front)
}

/// Reads the next number, behind a blank, if there is one.
#[inline(never)]
#[tactic(auto, using(crate::proofs::PlainParts::no_numbers))]
fn plain_one<'a>(bytes: &'a [u8], found: &mut ArrayVec<u64, MOST_ARGUMENTS>) -> &'a [u8]
    requires { found.old.items ≡ [] }
    ensures numbers { BeginsNumbers bytes.now found.new.items result.now }
    ensures most { length found.new.items ≤ 1 }
    ensures shorter { length result.now ≤ length bytes.now }
{
    match plain_number(bytes) {
        Some((n, rest)) => {
            found.push(n);
            rest
        }
        None => bytes,
    }
}

/// Reads the next numbers, each behind a blank, at most this many.
#[inline(never)]
#[tactic(auto, using(crate::proofs::PlainParts::no_numbers, crate::proofs::PlainParts::numbers_more))]
fn plain_numbers<'a>(
    bytes: &'a [u8],
    most: usize,
    found: &mut ArrayVec<u64, MOST_ARGUMENTS>,
) -> &'a [u8]
    requires none { found.old.items ≡ [] }
    requires fits { most ≤ MOST_ARGUMENTS }
    ensures numbers { BeginsNumbers bytes.now found.new.items result.now }
    ensures most { length found.new.items ≤ most }
    ensures shorter { length result.now ≤ length bytes.now }
{
    let mut rest = bytes;
    while found.len() < most {
        let Some((n, after)) = plain_number(rest) else {
            return rest;
        };
        found.push(n);
        rest = after;
    }
    rest
}

/// A blank and a number.
#[inline(always)]
fn plain_number(bytes: &[u8]) -> Option<(u64, &[u8])>
    ensures number { IfSome result (λ found. BeginsNumber bytes.now found.0 found.1.now) }
    ensures shorter { IfSome result (λ found. length found.1.now < length bytes.now) }
{
    match bytes {
        [b' ', word @ ..] => {
            let (n, rest) = plain_word(word)?;
            Some((n, rest))
        }
        _ => None,
    }
}

/// A number: decimal digits, or `0x` and hexadecimal ones.
#[inline(always)]
#[tactic(auto, using(crate::proofs::PlainParts::hex_begins, crate::proofs::PlainParts::decimal_begins))]
fn plain_word(bytes: &[u8]) -> Option<(u64, &[u8])>
    ensures number { IfSome result (λ found. BeginsWord bytes.now found.0 found.1.now) }
    ensures shorter { IfSome result (λ found. length found.1.now ≤ length bytes.now) }
{
    match after(bytes, b"0x") {
        Some(digits) => {
            let (n, rest) = plain_hex(digits)?;
            Some((n, rest))
        }
        None => {
            let (n, rest) = plain_digits(bytes, 10)?;
            Some((n, rest))
        }
    }
}

/// A reply or a refusal, a blank before each of its words.
#[inline(always)]
fn plain_said(bytes: &[u8]) -> Option<(Said, &[u8])>
    ensures said { IfSome result (λ found. BeginsSaid bytes.now found.0 found.1.now) }
    ensures shorter { IfSome result (λ found. length found.1.now ≤ length bytes.now) }
{
    match after_said(words::RET, bytes) {
        Some([b' ', rest @ ..]) => plain_ret(rest),
        _ => plain_named_said(bytes),
    }
}

/// The error and the value behind `ret`.
#[inline(always)]
fn plain_ret(bytes: &[u8]) -> Option<(Said, &[u8])>
    ensures said { (before : List ℕ) → BeginsSaidName before SaidName.Ret (32 ∷ bytes.now)
        → IfSome result (λ found. BeginsSaid before found.0 found.1.now) }
    ensures shorter { IfSome result (λ found. length found.1.now ≤ length bytes.now) }
{
    let (error, rest) = plain_signed(bytes)?;
    let (value, rest) = plain_number(rest)?;
    Some((Said::Ret { error, value }, rest))
}

/// The error that the bytes begin with, a decimal number that may have a sign, and what stands behind it.
#[inline(always)]
fn plain_signed(bytes: &[u8]) -> Option<(i64, &[u8])>
    ensures error { IfSome result (λ found. BeginsSigned bytes.now found.0 found.1.now) }
    ensures shorter { IfSome result (λ found. length found.1.now ≤ length bytes.now) }
{
    match after(bytes, b"-") {
        Some(digits) => {
            let (n, rest) = plain_digits(digits, 10)?;
            if n <= LAST_BELOW {
                Some((below_zero(n), rest))
            } else {
                None
            }
        }
        None => {
            let (n, rest) = plain_digits(bytes, 10)?;
            if n <= LAST_ABOVE {
                Some((n as i64, rest))
            } else {
                None
            }
        }
    }
}

/// Told by its letters, as an operation's name is.
#[inline(always)]
fn plain_named_said(bytes: &[u8]) -> Option<(Said, &[u8])>
    ensures said { IfSome result (λ found. BeginsSaid bytes.now found.0 found.1.now) }
    ensures shorter { IfSome result (λ found. length found.1.now ≤ length bytes.now) }
{
    match bytes {
        [_, b'w', ..] => plain_said_as(SaidName::Waiting, words::WAITING, bytes),
        [_, b'g', ..] => plain_said_as(SaidName::Gone, words::GONE, bytes),
        [_, b's', ..] => plain_said_as(SaidName::Served, words::SERVED, bytes),
        [_, b'd', ..] => plain_said_as(SaidName::Done, words::DONE, bytes),
        [_, b'e', ..] => plain_said_as(SaidName::Entry, words::ENTRY, bytes),
        [_, b'v', ..] => plain_said_as(SaidName::Value, words::VALUE, bytes),
        [_, b'f', ..] => plain_said_as(SaidName::Fault, words::FAULT, bytes),
        [_, b'm', ..] => plain_said_as(SaidName::Moved, words::MOVED, bytes),
        [_, b'r', ..] => plain_said_as(SaidName::Refused, words::REFUSED, bytes),
        _ => None,
    }
}

/// The same for one name. `ret` is none of these, since its error is a signed number.
#[inline(always)]
fn plain_said_as<'a>(name: SaidName, word: &[u8], bytes: &'a [u8]) -> Option<(Said, &'a [u8])>
    requires word { word.now ≡ said_word name }
    requires named { name ≢ SaidName.Ret }
    ensures said { IfSome result (λ found. BeginsSaid bytes.now found.0 found.1.now) }
    ensures shorter { IfSome result (λ found. length found.1.now ≤ length bytes.now) }
{
    let rest = after_said(word, bytes)?;
    let mut numbers = ArrayVec::new();
    let rest = plain_places(name.places(), rest, &mut numbers)?;
    let said = name.shape().said(&numbers)?;
    Some((said, rest))
}

/// What follows a blank and a word.
#[inline(always)]
fn after_said<'a>(word: &[u8], bytes: &'a [u8]) -> Option<&'a [u8]>
    ensures name { IfSome result (λ rest. bytes.now ≡ 32 ∷ (word.now ++ rest.now)) }
    ensures shorter { IfSome result (λ rest. length rest.now ≤ length bytes.now) }
{
    match bytes {
        [b' ', named @ ..] => after(named, word),
        _ => None,
    }
}
