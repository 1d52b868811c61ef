//! The words of an accepted step, one after the other.
ghost use Rattle.std.specs.Prelude.{◌≡◌, ◌∷◌, [], slice_get};
ghost use Rattle.conditions.specs.Items.{actor_item, number_or_dash, op_arguments, op_items, reply_items, said_arguments, said_items, step_items};
ghost use Rattle.board_terms.specs.declared.op.Op.TheVariants as ops;
ghost use Rattle.board_terms.specs.declared.op.Op.TheVariants.{Ecall};
ghost use Rattle.condition_script.specs.declared.items.Item.TheVariants as words;

use amo::Amo;
use board_core::{Actor, Event, Op};
use condition_script::{Item, Name};
use sbi_abi::Regs;
use script_lines::{OpName, Said, SaidName};

/// The word of an actor.
fn actor_item(actor: Actor) -> Item
    ensures { result ≡ actor_item actor }
{
    match actor {
        Actor::Hart(h) => Item::Number(h),
        Actor::Clock => Item::Word(Name::Clock),
    }
}

/// The word in a place of a step, from 0, up to its arrow.
pub(crate) fn step_item(event: &Event, place: usize) -> Option<Item>
    ensures { result ≡ slice_get (step_items event.now) place }
{
    if place == 0 {
        return Some(actor_item(event.actor()));
    }
    op_item(&event.op(), place - 1)
}

/// The word in a place of an operation, of which the first is its name.
fn op_item(op: &Op, place: usize) -> Option<Item>
    ensures { result ≡ slice_get (op_items op.now) place }
{
    if place == 0 {
        return Some(Item::Word(Name::Op(OpName::of_op(op))));
    }
    op_argument(op, place - 1)
}

/// The number in a place of an operation.
fn op_argument(op: &Op, place: usize) -> Option<Item>
    ensures { result ≡ slice_get (op_arguments op.now) place }
{
    match op {
        Op::Ecall(regs) => call_argument(regs, place),
        Op::Store(va, value) => item_of(&[Item::Number(*va), Item::Number(*value)], place),
        Op::Amo(at, amo) => amo_argument(*at, amo, place),
        Op::Sfence(va, asid) => item_of(&[number_or_dash(*va), number_or_dash(*asid)], place),
        Op::Load(n) | Op::Fetch(n) => one(*n, place),
        Op::WriteSatp(n) | Op::WriteSie(n) | Op::Tick(n) => one(*n, place),
        Op::WriteSstatusSie(value) => one(u64::from(*value), place),
        Op::ReadSip | Op::ClearSsip | Op::Wfi | Op::FenceI => None,
        Op::Poll | Op::Serve | Op::Advance => None,
    }
}

/// The number in a place of an operation on the word around its address.
fn amo_argument(at: u64, amo: &Amo, place: usize) -> Option<Item>
    ensures { result ≡ slice_get (op_arguments (ops.Amo at amo.now)) place }
{
    match amo {
        Amo::Double(_, n) | Amo::Half(_, n) => item_of(
            &[Item::Number(at), Item::Number(*n)],
            place,
        ),
        Amo::Store1(n) | Amo::Store2(n) | Amo::Store4(n) => {
            item_of(&[Item::Number(at), Item::Number(*n)], place)
        }
        Amo::Cas(expected, value) => item_of(
            &[
                Item::Number(at),
                Item::Number(*expected),
                Item::Number(*value),
            ],
            place,
        ),
    }
}

/// The number in a place of a call.
fn call_argument(regs: &Regs, place: usize) -> Option<Item>
    ensures { result ≡ slice_get (op_arguments (Ecall regs.now)) place }
{
    if place >= 2 {
        return match regs.a.get(place - 2) {
            Some(a) => Some(Item::Number(*a)),
            None => None,
        };
    }
    item_of(&[Item::Number(regs.eid), Item::Number(regs.fid)], place)
}

/// The word in a place of these.
fn item_of(items: &[Item], place: usize) -> Option<Item>
    ensures { result ≡ slice_get items.now place }
{
    items.get(place).copied()
}

/// The item at a place of a list with one number.
fn one(number: u64, place: usize) -> Option<Item>
    ensures { result ≡ slice_get (words.Number number ∷ []) place }
{
    item_of(&[Item::Number(number)], place)
}

/// A number, or the dash that stands for none.
fn number_or_dash(number: Option<u64>) -> Item
    ensures { result ≡ number_or_dash number }
{
    match number {
        Some(n) => Item::Number(n),
        None => Item::Absent,
    }
}

/// The word at a place of a step's reply, from 0.
pub(crate) fn reply_item(event: &Event, place: usize) -> Option<Item>
    ensures { result ≡ slice_get (reply_items event.now) place }
{
    said_item(Said::of(&Ok(event.reply())), place)
}

/// The word at a place of a reply; the first is its name.
fn said_item(said: Said, place: usize) -> Option<Item>
    ensures { result ≡ slice_get (said_items said) place }
{
    if place == 0 {
        return Some(Item::Word(Name::Said(SaidName::of_said(&said))));
    }
    said_argument(said, place - 1)
}

/// The number at a place of a reply.
fn said_argument(said: Said, place: usize) -> Option<Item>
    ensures { result ≡ slice_get (said_arguments said) place }
{
    match said {
        Said::Ret { error, value } => {
            item_of(&[Item::signed(error), Item::Number(value)], place)
        }
        Said::Entry { addr, hart, opaque } => item_of(
            &[Item::Number(addr), Item::Number(hart), Item::Number(opaque)],
            place,
        ),
        Said::Value(n) | Said::Fault(n) | Said::Moved(n) | Said::Refused(n) => one(n, place),
        Said::Waiting | Said::Gone | Said::Served | Said::Done => None,
    }
}
