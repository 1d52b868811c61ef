//! Words of patterns that no step of a board can have in their places.
ghost use Rattle.std.specs.Prelude.{◌≡◌, ◌↔◌, ◌⊎◌, ◌<◌, ◌≤◌, ℕ, MatchOption, Some, true};
ghost use Rattle.condition_script.specs.declared.items.Item.{Item as Value};
ghost use Rattle.condition_script.specs.declared.items.Item.TheVariants.{Word};
ghost use Rattle.condition_script.specs.declared.marks.Mark.{Mark as MarkValue};
ghost use Rattle.script_lines.specs.declared.op_name.OpName.{OpName as OpValue};
ghost use Rattle.script_lines.specs.declared.said_name.SaidName.{SaidName as SaidValue};
ghost use Rattle.conditions.specs.declared.misfits.Misfit.{Misfit as MisfitValue};
ghost use Rattle.condition_script.specs.declared.names.Name.TheVariants as names;
ghost use Rattle.conditions.specs.Misfits.{CanAnswer, CanDo, IsActorMisfit, IsAnswerMisfit, IsClocks, IsDoerMisfit, IsMarkMisfit, IsMarked, IsMisfit, IsMisfitBy, IsMisfitOf, IsMisfitWith, IsOpMisfit, IsReplyMisfit, IsWordAt, IsWrongAnswer, IsWrongInReply, IsWrongWord, MeansOp, OpCanHave, ReplyCanHave, is_access, is_cause, is_cause_by, is_cause_of, is_moved_to, is_pending, is_reply_to, is_sign_extended, is_value_of};
ghost use Rattle.conditions.specs.Inside.Held.{HasAnswer, HasHeldAt, HasNoAnswer, HasRightAt, IsDoneBy, meant, no_reply};

use amo::AmoName;
use condition_script::{Item, Mark, Name, Pattern, Rule};
use script_lines::{OpName, SaidName};
use sv39::Kind;

/// The most by which an error is below 0 (SBI 3).
const LAST_ERROR: u64 = 8;

/// A word of a pattern that no step of a board can have in its place.
#[derive(Clone, Copy, PartialEq, Eq)]
pub enum Misfit {
    /// The board has no such hart.
    NoHart(u64),
    /// The actor can't do this operation: the clock ticks, and a hart does all others.
    OtherActor(OpName),
    /// This operation or reply can't have this value in this place.
    Unheld(Name, Item),
    /// This operation can't have this reply.
    NoReply(OpName, SaidName),
    /// This operation can't have this value in this reply.
    NoAnswer(OpName, SaidName, Item),
    /// The records tell no marks.
    Untold(Mark),
    /// This operation is no access, so it can't have this mark.
    NoMark(OpName, Mark),
}

/// The first word of a condition's patterns that no step of a board with this many harts can have in its place. The records tell no
/// marks.
pub fn first_misfit(rule: &Rule, harts: u64) -> Option<Misfit>
    ensures { MatchOption result ((any : MisfitValue) → ¬ IsMisfit harts rule.now any) (IsMisfit harts rule.now) }
{
    misfit_by(rule, harts, false)
}

/// The same of records that tell the marks of their accesses.
pub fn first_misfit_with(rule: &Rule, harts: u64) -> Option<Misfit>
    ensures { MatchOption result ((any : MisfitValue) → ¬ IsMisfitWith harts rule.now any) (IsMisfitWith harts rule.now) }
{
    misfit_by(rule, harts, true)
}

/// The first such word, by whether the records tell marks.
fn misfit_by(rule: &Rule, harts: u64, told: bool) -> Option<Misfit>
    ensures { MatchOption result ((any : MisfitValue) → ¬ IsMisfitBy told harts rule.now any) (IsMisfitBy told harts rule.now) }
{
    match rule {
        Rule::Never(p) => in_pattern(p, harts, told),
        Rule::NeverAfter(p, q) => in_patterns(p, q, harts, told),
        Rule::OfSome(p) => in_pattern(p, harts, told),
        Rule::Each(p) => in_pattern(p, harts, told),
        Rule::Before(p, q) => in_patterns(p, q, harts, told),
        Rule::End(_) | Rule::CanEnd(_) => None,
    }
}

/// The first such word of two patterns.
fn in_patterns(p: &Pattern, q: &Pattern, harts: u64, told: bool) -> Option<Misfit>
    ensures { MatchOption result ((any : MisfitValue) → ¬ (IsMisfitOf told harts p.now any ⊎ IsMisfitOf told harts q.now any))
        (λ misfit. IsMisfitOf told harts p.now misfit ⊎ IsMisfitOf told harts q.now misfit) }
{
    match in_pattern(p, harts, told) {
        Some(misfit) => Some(misfit),
        None => in_pattern(q, harts, told),
    }
}

/// The first such word of a pattern, or of its operation and reply together.
fn in_pattern(p: &Pattern, harts: u64, told: bool) -> Option<Misfit>
    ensures { MatchOption result ((any : MisfitValue) → ¬ IsMisfitOf told harts p.now any) (IsMisfitOf told harts p.now) }
{
    match in_step(p, harts) {
        Some(misfit) => Some(misfit),
        None => in_answer(p, harts, told),
    }
}

/// The pattern's reply, if its operation can't have it; or the first such word of the reply.
fn in_answer(p: &Pattern, harts: u64, told: bool) -> Option<Misfit>
    ensures { MatchOption result
        ((any : MisfitValue) → ¬ (IsAnswerMisfit p.now any ⊎ (IsMarkMisfit told p.now any ⊎ IsReplyMisfit harts p.now any)))
        (λ misfit. IsAnswerMisfit p.now misfit ⊎ (IsMarkMisfit told p.now misfit ⊎ IsReplyMisfit harts p.now misfit)) }
{
    match in_kind(p) {
        Some(misfit) => Some(misfit),
        None => in_said(p, harts, told),
    }
}

/// The mark in the reply's place, if no step can have it; or the first such word of the reply.
fn in_said(p: &Pattern, harts: u64, told: bool) -> Option<Misfit>
    ensures { MatchOption result ((any : MisfitValue) → ¬ (IsMarkMisfit told p.now any ⊎ IsReplyMisfit harts p.now any))
        (λ misfit. IsMarkMisfit told p.now misfit ⊎ IsReplyMisfit harts p.now misfit) }
{
    match in_mark(p, told) {
        Some(misfit) => Some(misfit),
        None => in_reply(p, harts),
    }
}

/// The mark in the reply's place, if no step can have it.
fn in_mark(p: &Pattern, told: bool) -> Option<Misfit>
    ensures { MatchOption result ((any : MisfitValue) → ¬ IsMarkMisfit told p.now any) (IsMarkMisfit told p.now) }
{
    match mark_of(p) {
        Some(mark) => mark_misfit(p, mark, told),
        None => None,
    }
}

/// The mark, if no step can have it: without marks none, otherwise none that is no access.
fn mark_misfit(p: &Pattern, mark: Mark, told: bool) -> Option<Misfit>
    requires { IsMarked p.now mark }
    ensures { MatchOption result ((any : MisfitValue) → ¬ IsMarkMisfit told p.now any) (IsMarkMisfit told p.now) }
{
    if !told {
        return Some(Misfit::Untold(mark));
    }
    match op_meant(p) {
        Some(op) => {
            if is_access(op) {
                None
            } else {
                Some(Misfit::NoMark(op, mark))
            }
        }
        None => None,
    }
}

/// The mark in the place of a pattern's reply.
fn mark_of(p: &Pattern) -> Option<Mark>
    ensures { (mark : MarkValue) → (result ≡ Some mark) ↔ IsMarked p.now mark }
{
    match p.reply.first() {
        Some(Some(Item::Word(Name::Mark(mark)))) => Some(*mark),
        _ => None,
    }
}

/// Whether an operation of this name is an access.
fn is_access(op: OpName) -> bool
    ensures { result ≡ is_access op }
{
    match op {
        OpName::Load | OpName::Store | OpName::Fetch | OpName::Amo(_) => true,
        _ => false,
    }
}

/// The pattern's reply, if its operation can't have it.
fn in_kind(p: &Pattern) -> Option<Misfit>
    ensures { MatchOption result ((any : MisfitValue) → ¬ IsAnswerMisfit p.now any) (IsAnswerMisfit p.now) }
{
    no_reply(op_meant(p), said_of(p))
}

/// A reply that an operation can't have, where a pattern has both.
fn no_reply(op: Option<OpName>, said: Option<SaidName>) -> Option<Misfit>
    ensures { result ≡ no_reply op said }
{
    match (op, said) {
        (Some(op), Some(said)) => {
            if is_reply_to(op, said) {
                None
            } else {
                Some(Misfit::NoReply(op, said))
            }
        }
        _ => None,
    }
}

/// The operation that a pattern means: of the clock a tick, otherwise the one that it names.
fn op_meant(p: &Pattern) -> Option<OpName>
    ensures { (op : OpValue) → (result ≡ Some op) ↔ MeansOp p.now op }
{
    meant(is_clocks(p), op_of(p))
}

/// What a pattern means, by whether its actor is the clock, and by the operation that it names.
fn meant(is_clocks: bool, named: Option<OpName>) -> Option<OpName>
    ensures { result ≡ meant is_clocks named }
{
    if is_clocks { Some(OpName::Tick) } else { named }
}

/// Whether the actor of a pattern is the clock.
fn is_clocks(p: &Pattern) -> bool
    ensures { (result ≡ true) ↔ IsClocks p.now }
{
    p.step.get(0) == Some(&Some(Item::Word(Name::Clock)))
}

/// The operation of a pattern, unless it is `_` or missing.
fn op_of(p: &Pattern) -> Option<OpName>
    ensures { (op : OpValue) → (result ≡ Some op) ↔ IsWordAt p.now.step.items 1 (Word (names.Op op)) }
{
    match p.step.get(1) {
        Some(Some(Item::Word(Name::Op(op)))) => Some(*op),
        _ => None,
    }
}

/// The reply of a pattern, unless it is `_` or missing.
fn said_of(p: &Pattern) -> Option<SaidName>
    ensures { (said : SaidValue) → (result ≡ Some said) ↔ IsWordAt p.now.reply.items 0 (Word (names.Said said)) }
{
    match p.reply.first() {
        Some(Some(Item::Word(Name::Said(said)))) => Some(*said),
        _ => None,
    }
}

/// Whether a reply is one that an accepted operation can have.
fn is_reply_to(op: OpName, said: SaidName) -> bool
    ensures { result ≡ is_reply_to op said }
{
    match op {
        OpName::Ecall => matches!(said, SaidName::Ret | SaidName::Waiting | SaidName::Gone),
        OpName::Load | OpName::Fetch => matches!(said, SaidName::Value | SaidName::Fault),
        OpName::Store => matches!(said, SaidName::Done | SaidName::Fault),
        OpName::Amo(name) => match said {
            SaidName::Value => name.reads(),
            SaidName::Done => !name.reads(),
            _ => said == SaidName::Fault,
        },
        OpName::Sip => said == SaidName::Value,
        OpName::Poll => said == SaidName::Ret,
        OpName::Serve => said == SaidName::Served,
        OpName::Advance => matches!(said, SaidName::Entry | SaidName::Moved | SaidName::Ret),
        OpName::Satp | OpName::Sie | OpName::Sstatus | OpName::Clearssip => said == SaidName::Done,
        OpName::Sfence | OpName::Fencei | OpName::Wfi | OpName::Tick => said == SaidName::Done,
    }
}

/// The first such word of a pattern's actor and operation.
fn in_step(p: &Pattern, harts: u64) -> Option<Misfit>
    ensures { MatchOption result ((any : MisfitValue) → ¬ (IsActorMisfit harts p.now any ⊎ (IsDoerMisfit p.now any ⊎ IsOpMisfit p.now any)))
        (λ misfit. IsActorMisfit harts p.now misfit ⊎ (IsDoerMisfit p.now misfit ⊎ IsOpMisfit p.now misfit)) }
{
    match in_actor(p, harts) {
        Some(misfit) => Some(misfit),
        None => in_operation(p),
    }
}

/// The pattern's operation, if its actor can't do it; or the first such word behind it.
fn in_operation(p: &Pattern) -> Option<Misfit>
    ensures { MatchOption result ((any : MisfitValue) → ¬ (IsDoerMisfit p.now any ⊎ IsOpMisfit p.now any))
        (λ misfit. IsDoerMisfit p.now misfit ⊎ IsOpMisfit p.now misfit) }
{
    match in_doer(p) {
        Some(misfit) => Some(misfit),
        None => in_op(p),
    }
}

/// The pattern's operation, if its actor can't do it.
fn in_doer(p: &Pattern) -> Option<Misfit>
    ensures { MatchOption result ((any : MisfitValue) → ¬ IsDoerMisfit p.now any) (IsDoerMisfit p.now) }
{
    match actor_of(p) {
        Some(actor) => undone_by(p, actor),
        None => None,
    }
}

/// The actor of a pattern, unless it is `_`.
fn actor_of(p: &Pattern) -> Option<Item>
    ensures { (item : Value) → (result ≡ Some item) ↔ IsWordAt p.now.step.items 0 item }
{
    match p.step.get(0) {
        Some(Some(item)) => Some(*item),
        _ => None,
    }
}

/// The pattern's operation, if this actor of it can't do it.
fn undone_by(p: &Pattern, actor: Item) -> Option<Misfit>
    requires { IsWordAt p.now.step.items 0 actor }
    ensures { MatchOption result (IsDoneBy p.now actor) (IsDoerMisfit p.now) }
{
    match p.step.get(1) {
        Some(Some(Item::Word(Name::Op(op)))) if !can_do(actor, *op) => Some(Misfit::OtherActor(
            *op,
        )),
        _ => None,
    }
}

/// Whether an actor can do an operation.
fn can_do(actor: Item, op: OpName) -> bool
    ensures { (result ≡ true) ↔ CanDo actor op }
{
    match actor {
        Item::Word(Name::Clock) => op == OpName::Tick,
        Item::Number(_) => op != OpName::Tick,
        Item::Word(Name::Op(_) | Name::Said(_) | Name::Mark(_)) | Item::Below(_) | Item::Absent =>
            false,
    }
}

/// The pattern's actor, if it is a hart that the board doesn't have.
fn in_actor(p: &Pattern, harts: u64) -> Option<Misfit>
    ensures { MatchOption result ((any : MisfitValue) → ¬ IsActorMisfit harts p.now any) (IsActorMisfit harts p.now) }
{
    match p.step.first() {
        Some(Some(Item::Number(hart))) if *hart >= harts => Some(Misfit::NoHart(*hart)),
        _ => None,
    }
}

/// The first such word behind a pattern's operation.
fn in_op(p: &Pattern) -> Option<Misfit>
    ensures { MatchOption result ((any : MisfitValue) → ¬ IsOpMisfit p.now any) (IsOpMisfit p.now) }
{
    match p.step.get(1) {
        Some(Some(Item::Word(Name::Op(op)))) => behind_op(p, *op),
        _ => None,
    }
}

/// The first word behind a pattern's operation that it can't have.
fn behind_op(p: &Pattern, op: OpName) -> Option<Misfit>
    requires { IsWordAt p.now.step.items 1 (Word (names.Op op)) }
    ensures { MatchOption result ((any : MisfitValue) → ¬ IsOpMisfit p.now any) (IsOpMisfit p.now) }
{
    for place in 2..p.step.len() {
        if let Some(misfit) = op_misfit_at(p, op, place) {
            return Some(misfit);
        }
    }
    None
}

/// The word in this place behind a pattern's operation, if it can't have it.
fn op_misfit_at(p: &Pattern, op: OpName, place: usize) -> Option<Misfit>
    requires named { IsWordAt p.now.step.items 1 (Word (names.Op op)) }
    requires behind { 2 ≤ place }
    ensures { MatchOption result (HasHeldAt p.now op place) (IsOpMisfit p.now) }
{
    match p.step.get(place) {
        Some(Some(item)) if !op_can_have(op, *item) => Some(Misfit::Unheld(Name::Op(op), *item)),
        _ => None,
    }
}

/// The first such word behind a pattern's reply.
fn in_reply(p: &Pattern, harts: u64) -> Option<Misfit>
    ensures { MatchOption result ((any : MisfitValue) → ¬ IsReplyMisfit harts p.now any) (IsReplyMisfit harts p.now) }
{
    match p.reply.first() {
        Some(Some(Item::Word(Name::Said(said)))) => behind_said(p, *said, harts),
        _ => None,
    }
}

/// The first word behind a pattern's reply that is wrong there.
fn behind_said(p: &Pattern, said: SaidName, harts: u64) -> Option<Misfit>
    requires { IsWordAt p.now.reply.items 0 (Word (names.Said said)) }
    ensures { MatchOption result ((any : MisfitValue) → ¬ IsReplyMisfit harts p.now any) (IsReplyMisfit harts p.now) }
{
    for place in 1..p.reply.len() {
        if let Some(misfit) = reply_misfit_at(p, said, harts, place) {
            return Some(misfit);
        }
    }
    None
}

/// Why the word in this place behind a pattern's reply is wrong there.
fn reply_misfit_at(p: &Pattern, said: SaidName, harts: u64, place: usize) -> Option<Misfit>
    requires named { IsWordAt p.now.reply.items 0 (Word (names.Said said)) }
    requires behind { 1 ≤ place }
    ensures { MatchOption result (HasRightAt harts p.now said place) (IsReplyMisfit harts p.now) }
{
    match reply_word(p, place) {
        Some(item) => wrong_in_reply(p, harts, said, place, item),
        None => None,
    }
}

/// The word in this place of a pattern's reply, unless it is `_`.
fn reply_word(p: &Pattern, place: usize) -> Option<Item>
    ensures { (item : Value) → (result ≡ Some item) ↔ IsWordAt p.now.reply.items place item }
{
    match p.reply.get(place) {
        Some(Some(item)) => Some(*item),
        _ => None,
    }
}

/// Why a word can't stand in this place behind the name of a pattern's reply.
fn wrong_in_reply(
    p: &Pattern,
    harts: u64,
    said: SaidName,
    place: usize,
    item: Item,
) -> Option<Misfit>
    ensures { MatchOption result ((any : MisfitValue) → ¬ IsWrongInReply harts p.now said place item any)
        (IsWrongInReply harts p.now said place item) }
{
    match wrong_word(harts, said, place, item) {
        Some(misfit) => Some(misfit),
        None => wrong_answer(p, said, item),
    }
}

/// Why a word can't stand in this place behind a reply's name.
fn wrong_word(harts: u64, said: SaidName, place: usize, item: Item) -> Option<Misfit>
    ensures { MatchOption result ((any : MisfitValue) → ¬ IsWrongWord harts said place item any)
        (IsWrongWord harts said place item) }
{
    if said == SaidName::Entry
        && place == 2
        && let Item::Number(hart) = item
        && hart >= harts
    {
        return Some(Misfit::NoHart(hart));
    }
    if !reply_can_have(said, place, item) {
        return Some(Misfit::Unheld(Name::Said(said), item));
    }
    None
}

/// The word, if the operation of a pattern can't have it in this reply.
fn wrong_answer(p: &Pattern, said: SaidName, item: Item) -> Option<Misfit>
    ensures { MatchOption result ((any : MisfitValue) → ¬ IsWrongAnswer p.now said item any) (IsWrongAnswer p.now said item) }
{
    no_answer(op_meant(p), said, item)
}

/// A word of a reply that an operation can't have, if there is one.
fn no_answer(op: Option<OpName>, said: SaidName, item: Item) -> Option<Misfit>
    ensures { MatchOption result (HasAnswer op said item) (HasNoAnswer op said item) }
{
    match op {
        Some(op) if !can_answer(op, said, item) => Some(Misfit::NoAnswer(op, said, item)),
        _ => None,
    }
}

/// Whether an operation can have this word behind the name of its reply.
fn can_answer(op: OpName, said: SaidName, item: Item) -> bool
    ensures { (result ≡ true) ↔ CanAnswer op said item }
{
    match item {
        Item::Number(n) => match said {
            SaidName::Fault => is_cause_by(op, n),
            SaidName::Value => is_value_of(op, n),
            SaidName::Ret => op == OpName::Ecall || n == 0,
            _ => true,
        },
        Item::Below(_) => op == OpName::Ecall,
        Item::Absent | Item::Word(_) => false,
    }
}

/// Whether a number is the cause of a fault of this operation's access.
fn is_cause_by(op: OpName, n: u64) -> bool
    ensures { result ≡ is_cause_by op n }
{
    match op {
        OpName::Load => is_cause_of(Kind::Load, n),
        OpName::Store => is_cause_of(Kind::Store, n),
        OpName::Fetch => is_cause_of(Kind::Fetch, n),
        OpName::Amo(AmoName::Store1) => {
            is_cause_of(Kind::Store, n) && n != Kind::Store.misaligned().number()
        }
        OpName::Amo(_) => is_cause_of(Kind::Store, n),
        _ => true,
    }
}

/// Whether an operation can read a number.
fn is_value_of(op: OpName, n: u64) -> bool
    ensures { result ≡ is_value_of op n }
{
    match op {
        OpName::Sip => is_pending(n),
        OpName::Amo(AmoName::Half(_)) => is_sign_extended(n),
        _ => true,
    }
}

/// Whether `sip` can read a number.
fn is_pending(n: u64) -> bool
    ensures { result ≡ is_pending n }
{
    (n == 0 || n == 2) || (n == 32 || n == 34)
}

/// Whether a number is 4 bytes sign-extended to 8.
fn is_sign_extended(n: u64) -> bool
    ensures { result ≡ is_sign_extended n }
{
    n < 1 << 31 || n >= 0xffff_ffff_8000_0000
}

/// Whether a number is the cause of a fault of some access.
fn is_cause(n: u64) -> bool
    ensures { result ≡ is_cause n }
{
    is_cause_of(Kind::Fetch, n) || is_cause_of(Kind::Load, n) || is_cause_of(Kind::Store, n)
}

/// Whether it is the cause of a fault of such an access.
fn is_cause_of(kind: Kind, n: u64) -> bool
    ensures { result ≡ is_cause_of kind n }
{
    n == kind.misaligned().number()
        || n == kind.access_fault().number()
        || n == kind.page_fault().number()
}

/// Whether a hart can be brought to a state of this number, without an entry or a return.
fn is_moved_to(n: u64) -> bool
    ensures { result ≡ is_moved_to n }
{
    n == 1 || n == 4 || n == 6
}

/// Whether an operation can have this word.
fn op_can_have(op: OpName, item: Item) -> bool
    ensures { (result ≡ true) ↔ OpCanHave op item }
{
    match item {
        Item::Number(n) => op != OpName::Sstatus || n <= 1,
        Item::Absent => op == OpName::Sfence,
        Item::Below(_) | Item::Word(_) => false,
    }
}

/// Whether a reply can have this word in this place behind its name.
fn reply_can_have(said: SaidName, place: usize, item: Item) -> bool
    ensures { (result ≡ true) ↔ ReplyCanHave said place item }
{
    match item {
        Item::Number(n) => match said {
            SaidName::Ret => place != 1 || n == 0,
            SaidName::Moved => is_moved_to(n),
            SaidName::Fault => is_cause(n),
            _ => true,
        },
        Item::Below(n) => said == SaidName::Ret && place == 1 && n <= LAST_ERROR,
        Item::Absent | Item::Word(_) => false,
    }
}
