//! A step that a condition needs and no order has, and what its actor does instead.
ghost use Rattle.std.specs.Prelude.{◌≡◌, Bool, IfOk, IfSome, MatchOption, None};
ghost use Rattle.test_report.specs.Missing.{IsLacking, Needs};

use crate::records::event_line;
use board_core::{Event, Op};
use conditions::{Condition, Item, Mark, Name, NeedsMet, Pattern, Rule, fits_step};
use diagnostics::Case;
use outcome_statistics::{Deed, Visits};
use std::alloc::{AllocError, Global};
use std::{fmt, str};

/// How many different operands of a hart are listed, and how many lines of each.
const MOST: usize = 8;

/// What numbers an actor's operation has, and in which lines.
#[derive(Drop)]
struct Used {
    numbers: String,
    lines: Vec<u64>,
}

/// What an actor does of the same operation.
#[derive(Drop)]
struct Instead {
    actor: Option<u64>,
    does: &'static str,
    used: Vec<Used>,
}

/// A step that a condition needs and no order has.
#[derive(Drop)]
pub struct Missing {
    /// Its text in the condition.
    pub said: String,
    /// The condition's second pattern needs it, not the first.
    pub is_second: bool,
    others: Others,
}

/// The steps that orders have in its place.
#[derive(Drop)]
struct Others {
    /// Such a step has another reply.
    has_other_reply: bool,
    /// The pattern's mark, if it has one in its reply's place.
    mark: Option<Mark>,
    /// What the same actors do.
    instead: Vec<Instead>,
}

impl Missing {
    /// What is missing of a condition's first pattern, or of its second one; nothing if that needs no step.
    ///
    /// # Errors
    ///
    /// Memory was refused.
    pub fn of_rule(
        alloc: Global,
        case: &Case<'_>,
        condition: &Condition,
        is_second: bool,
        visits: &Visits,
    ) -> Result<Option<Missing>, AllocError>
        ensures { IfOk result (λ found. MatchOption found (¬ Needs condition.now.rule is_second)
            (λ missing. missing.is_second ≡ is_second)) }
    {
        let Some((p, with_reply)) = sought(&condition.rule, is_second) else {
            return Ok(None);
        };
        Ok(Some(Missing {
            said: said_of(
                alloc,
                case,
                condition.line,
                is_second,
                with_reply || mark_of(p).is_some(),
            )?,
            is_second,
            others: Others::of(alloc, case, p, visits)?,
        }))
    }
}

impl Others {
    /// What orders have in place of a pattern's step; they have these steps.
    fn of(
        alloc: Global,
        case: &Case<'_>,
        p: &Pattern,
        visits: &Visits,
    ) -> Result<Others, AllocError> {
        let mut found = Others {
            has_other_reply: false,
            mark: mark_of(p),
            instead: Vec::new(alloc),
        };
        let like = of_its_kind(alloc, p)?;
        let has_numbers = p.step.len() > 2 && matches!(p.step.get(1), Some(Some(_)));
        for (deed, event) in visits.deeds.iter() {
            found.has_other_reply = found.has_other_reply || fits_step(p, event);
            if has_numbers && fits_step(&like, event) {
                found.see(alloc, case, *deed, event)?;
            }
        }
        Ok(found)
    }

    /// A step has the same actor and operation.
    fn see(
        &mut self,
        alloc: Global,
        case: &Case<'_>,
        deed: Deed,
        event: &Event,
    ) -> Result<(), AllocError> {
        let numbers = numbers_of(alloc, event)?;
        let line = match deed.spot {
            Some(spot) => case.op_line(spot.addr, spot.before).map(|(line, _)| line),
            None => None,
        };
        let does = does(event.op());
        let at = self.place_of(alloc, deed.hart, does)?;
        match self.instead.get_mut(at) {
            Some(instead) => instead.see(alloc, numbers, line),
            None => Ok(()),
        }
    }

    /// Where it is told what an actor does.
    fn place_of(
        &mut self,
        alloc: Global,
        actor: Option<u64>,
        does: &'static str,
    ) -> Result<usize, AllocError> {
        for (at, instead) in self.instead.iter().enumerate() {
            if instead.actor == actor && instead.does == does {
                return Ok(at);
            }
        }
        self.instead.push(Instead {
            actor,
            does,
            used: Vec::new(alloc),
        })?;
        Ok(self.instead.len().saturating_sub(1))
    }
}

impl Instead {
    /// The operation has these numbers in this line.
    fn see(&mut self, alloc: Global, numbers: String, line: Option<u64>) -> Result<(), AllocError> {
        let mut place = self.used.len();
        for (at, used) in self.used.iter().enumerate() {
            if used.numbers.as_str() == numbers.as_str() {
                place = at;
            }
        }
        if place == self.used.len() {
            self.used.push(Used {
                numbers,
                lines: Vec::new(alloc),
            })?;
        }
        if let Some(used) = self.used.get_mut(place)
            && let Some(line) = line
        {
            let place = used.lines.partition_point(|before| *before < line);
            used.lines.insert(place, line)?;
        }
        Ok(())
    }
}

/// `; hart 1 loads 0x1000 (lines 24, 27), 0x405008 (line 26)`.
impl fmt::Display for Missing {
    fn fmt<W: fmt::Write>(&self, f: &mut fmt::Formatter<W>) -> fmt::Result {
        if self.others.has_other_reply {
            return write!(f, "{}", why_other(self.others.mark));
        }
        for (at, instead) in self.others.instead.iter().enumerate() {
            write!(f, "{}", if at == 0 { "; " } else { ", " })?;
            match instead.actor {
                Some(hart) => write!(f, "hart {hart}")?,
                None => write!(f, "the clock")?,
            }
            write!(f, " {} ", instead.does)?;
            write_used(f, &instead.used)?;
        }
        Ok(())
    }
}

/// Why a step isn't the needed one, though its actor and operation are.
fn why_other(mark: Option<Mark>) -> &'static str {
    match mark {
        Some(Mark::Stale | Mark::Missed) =>
            "; such a step uses no TLB entry, and takes no page fault",
        Some(Mark::Unsteady | Mark::Unfirm | Mark::Unlenient) => {
            "; such a step uses no TLB entry, takes no page fault, and fetches no word"
        }
        None => "; such a step has another reply",
    }
}

/// `0x1000 (lines 24, 27), 0x405008 (line 26)`.
fn write_used<W: fmt::Write>(f: &mut fmt::Formatter<W>, used: &[Used]) -> fmt::Result {
    for (at, one) in used.iter().take(MOST).enumerate() {
        let numbers = &one.numbers;
        write!(f, "{}{numbers}", if at == 0 { "" } else { ", " })?;
        for (k, line) in one.lines.iter().take(MOST).enumerate() {
            match (k, one.lines.len()) {
                (0, 1) => write!(f, " (line {line}")?,
                (0, _) => write!(f, " (lines {line}")?,
                _ => write!(f, ", {line}")?,
            }
        }
        if one.lines.len() > MOST {
            write!(f, ", ..")?;
        }
        if !one.lines.is_empty() {
            write!(f, ")")?;
        }
    }
    if used.len() > MOST {
        write!(f, ", ..")?;
    }
    Ok(())
}

/// Whether a condition lacks a step that it needs: false for its first pattern, true for its second.
pub fn lack_of(rule: &Rule, met: NeedsMet) -> Option<bool>
    ensures some { IfSome result (IsLacking rule.now met) }
    ensures none { result ≡ None → (is_second : Bool) → ¬ IsLacking rule.now met is_second }
{
    if met.lacks_first(rule) {
        return Some(false);
    }
    if met.lacks_second(rule) {
        return Some(true);
    }
    None
}

/// The pattern of a condition that needs a step, and whether its reply counts.
fn sought(rule: &Rule, is_second: bool) -> Option<(&Pattern, bool)>
    ensures { result ≡ None → ¬ Needs rule.now is_second }
{
    match (rule, is_second) {
        (Rule::NeverAfter(_, q), true) => Some((q, true)),
        (Rule::Before(_, q), true) => Some((q, false)),
        (Rule::End(_) | Rule::CanEnd(_), _) => None,
        (
            Rule::Never(p)
            | Rule::NeverAfter(p, _)
            | Rule::OfSome(p)
            | Rule::Each(p)
            | Rule::Before(p, _),
            _,
        ) => Some((p, false)),
    }
}

/// The mark in the place of a pattern's reply, if there is one.
fn mark_of(p: &Pattern) -> Option<Mark> {
    match p.reply.first() {
        Some(Some(Item::Word(Name::Mark(mark)))) => Some(*mark),
        _ => None,
    }
}

/// A pattern's text in a condition; `_` for any step.
fn said_of(
    alloc: Global,
    case: &Case<'_>,
    line: u64,
    is_second: bool,
    with_reply: bool,
) -> Result<String, AllocError> {
    let said = case.pattern_at(alloc, line, is_second, with_reply)?;
    if said.is_empty() {
        return String::from_str(alloc, "_");
    }
    Ok(said)
}

/// A pattern's actor and operation alone.
fn of_its_kind(alloc: Global, p: &Pattern) -> Result<Pattern, AllocError> {
    let mut step = Vec::new(alloc);
    for item in p.step.iter().take(2) {
        step.push(*item)?;
    }
    Ok(Pattern {
        step,
        reply: Vec::new(alloc),
    })
}

/// The numbers of a step, as a trace has them.
fn numbers_of(alloc: Global, event: &Event) -> Result<String, AllocError> {
    let line = event_line(alloc, event)?;
    let text = str::from_utf8(&line).unwrap_or("");
    let step = match text.split_once(" -> ") {
        Some((step, _)) => step,
        None => text,
    };
    let mut words = step.splitn(3, ' ');
    let _actor = words.next();
    let _name = words.next();
    String::from_str(alloc, words.next().unwrap_or(""))
}

/// What one does by an operation, before its numbers.
fn does(op: Op) -> &'static str {
    match op {
        Op::Ecall(_) => "calls",
        Op::Load(_) => "loads",
        Op::Store(..) => "stores",
        Op::Fetch(_) => "fetches",
        Op::Amo(_, amo) => { if amo.reads() { "changes" } else { "stores" } }
        Op::WriteSatp(_) => "writes satp",
        Op::WriteSie(_) => "writes sie",
        Op::WriteSstatusSie(_) => "writes sstatus",
        Op::Sfence(..) => "does sfence",
        Op::Tick(_) => "ticks",
        Op::ReadSip => "reads sip",
        Op::ClearSsip => "does clearssip",
        Op::Wfi => "does wfi",
        Op::FenceI => "does fencei",
        Op::Poll => "does poll",
        Op::Serve => "does serve",
        Op::Advance => "does advance",
    }
}
