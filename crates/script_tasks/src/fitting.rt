//! The numbers of operations and answers fit registers, by their types. These functions compute nothing: their clauses state it
//! for proofs.

ghost use Rattle.std.specs.Prelude.{◌≡◌, ◌≤◌, length};
ghost use Rattle.std.specs.List.{AllByRecursion};
ghost use Rattle.amo.specs.Amos.{numbers};
ghost use Rattle.guest_script.specs.Words.{last_number};
ghost use Rattle.script_tasks.specs.PrintedScripts.{FitsAnswer, FitsOp};

use amo::Amo;
use board_core::{Op, Refusal, Reply};

/// A law: a script can have the numbers of any operation.
pub fn op_fits(op: Op)
    ensures { FitsOp op }
{
    match op {
        Op::Ecall(regs) => regs_fit(regs.eid, regs.fid, regs.a),
        Op::Load(_) => {}
        Op::Store(_, _) => {}
        Op::Fetch(_) => {}
        Op::Amo(_, amo) => amo_fits(amo),
        Op::WriteSatp(_) => {}
        Op::WriteSie(_) => {}
        Op::Sfence(_, _) => {}
        Op::Tick(_) => {}
        _ => {}
    }
}

/// A law: so are those of an operation on the word around its address.
fn amo_fits(amo: Amo)
    ensures { AllByRecursion (λ n. n ≤ last_number) (numbers amo) }
{
    match amo {
        Amo::Double(_, _) => {}
        Amo::Half(_, _) => {}
        Amo::Cas(_, _) => {}
        Amo::Store1(_) => {}
        Amo::Store2(_) => {}
        Amo::Store4(_) => {}
    }
}

/// A law: so are those of a call's registers.
fn regs_fit(eid: u64, fid: u64, a: [u64; 6])
    ensures eid { eid ≤ last_number }
    ensures fid { fid ≤ last_number }
    ensures six { length a ≡ 6 }
    ensures all { AllByRecursion (λ n. n ≤ last_number) a }
{
    let [_a0, _a1, _a2, _a3, _a4, _a5] = a;
}

/// A law: so are those of a reply or a refusal.
pub fn answer_fits(answer: Result<Reply, Refusal>)
    ensures { FitsAnswer answer }
{}
