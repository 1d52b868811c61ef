//! The lines of schedules and traces, word by word.
ghost use Rattle.std.specs.Prelude.{◌≡◌, ◌∷◌, [], true, false, IfOk, MatchOption, None, Some};
ghost use Rattle.script_lines.specs.Packing.{DoingFits, FitsKept};
ghost use Rattle.board_terms.specs.declared.op.Op.TheVariants.{Advance};
ghost use Rattle.script_lines.specs.declared.said.Said.TheVariants.{Done};
ghost use Rattle.script_lines.specs.declared.script.Doing.TheVariants.{Step};
ghost use Rattle.guest_script.specs.Forms.{form_of, guest_form_of, op_form, said_form, said_form_of};
ghost use Rattle.guest_script.specs.FirstFault.{acting_tests, actor_test, doing_tests, form_tests, named_tests, number_tests, ret_tests, said_tests, step_tests};
ghost use Rattle.guest_script.specs.Reading.{tested, told};
ghost use Rattle.guest_script.specs.Values.{words_until};
ghost use Rattle.guest_script.specs.declared.wrong.Wrong.TheVariants.{WordMissing};
ghost use Rattle.guest_script.specs.Values.{doing_in, actor_in, after_arrow, before_arrow, first_number, line_in, made_by, named_in, op_in, ret_in, said_in, words_in};

use crate::numbers::arguments_in;
use crate::wrong::{Unread, Wrong};
use board_terms::{Actor, Op};
use line_words::{
    after_arrow, from_next, from_word, next_word, next_word_until, number, signed_number,
};
use script_lines::{Doing, LAST_HART, Line, OpName, Said, SaidName, any_numbers, number_at};

/// Line `n`: what it does, by its first word and the rest; and in a trace what that gave.
pub fn step_line(n: u64, in_trace: bool, first: &[u8], rest: &[u8]) -> Result<Line, Unread>
    ensures number { IfOk result (λ line. line.number ≡ n) }
    ensures actor { IfOk result (λ line. DoingFits line.doing) }
    ensures read { told result
        ≡ tested (step_tests in_trace first.now (words_in rest.now))
        (line_in n in_trace first.now (words_in rest.now)) }
{
    if in_trace {
        trace_line(n, first, rest)
    } else {
        schedule_line(n, first, rest)
    }
}

/// A schedule's line, whose first word this is, and the rest behind it.
fn schedule_line(n: u64, first: &[u8], rest: &[u8]) -> Result<Line, Unread>
    ensures number { IfOk result (λ line. line.number ≡ n) }
    ensures actor { IfOk result (λ line. DoingFits line.doing) }
    ensures read { told result
        ≡ tested (step_tests false first.now (words_in rest.now)) (line_in n false first.now (words_in rest.now)) }
{
    let doing = doing(first, rest, false)?;
    Ok(Line {
        number: n,
        doing,
        said: None,
    })
}

/// A trace's line, whose first word this is, and the rest behind it.
fn trace_line(n: u64, first: &[u8], rest: &[u8]) -> Result<Line, Unread>
    ensures number { IfOk result (λ line. line.number ≡ n) }
    ensures actor { IfOk result (λ line. DoingFits line.doing) }
    ensures read { told result
        ≡ tested (step_tests true first.now (words_in rest.now)) (line_in n true first.now (words_in rest.now)) }
{
    let told = told_doing(first, rest)?;
    Ok(Line {
        number: n,
        doing: told.0,
        said: Some(told.1),
    })
}

/// What the words before the first arrow do, and what those after it say.
fn told_doing(first: &[u8], rest: &[u8]) -> Result<(Doing, Said), Unread>
    ensures actor { IfOk result (λ told. DoingFits told.0) }
    ensures read { told result
        ≡ tested (step_tests true first.now (words_in rest.now))
        (doing_in first.now (before_arrow (words_in rest.now)), said_in (after_arrow (words_in rest.now))) }
{
    let doing = doing(first, rest, true)?;
    let said = said(after_arrow(rest))?;
    Ok((doing, said))
}

/// What a line does whose first word this is: a cut, or an actor's step. Words may end at the first arrow.
fn doing(first: &[u8], rest: &[u8], until_arrow: bool) -> Result<Doing, Unread>
    ensures actor { IfOk result (λ doing. DoingFits doing) }
    ensures read { told result
        ≡ tested (doing_tests first.now (words_until until_arrow (words_in rest.now)))
        (doing_in first.now (words_until until_arrow (words_in rest.now))) }
{
    if first != b"cut".as_slice() {
        step(first, rest, until_arrow)
    } else if let Some((extra, after)) = next_word_until(rest, until_arrow) {
        Err(Unread {
            left: from_word(extra, after),
            wrong: Wrong::WordTooMany,
        })
    } else {
        Ok(Doing::Cut)
    }
}

/// The step of the actor that the first word is.
fn step(first: &[u8], rest: &[u8], until_arrow: bool) -> Result<Doing, Unread>
    ensures actor { IfOk result (λ doing. DoingFits doing) }
    ensures read { told result
        ≡ tested (acting_tests first.now (words_until until_arrow (words_in rest.now)))
        (Step (actor_in first.now) (op_in (words_until until_arrow (words_in rest.now)))) }
{
    let actor = actor(first, from_word(first, rest))?;
    let op = op(rest, until_arrow)?;
    Ok(Doing::Step { actor, op })
}

/// The actor that a word names; the word begins this many bytes before the line's end.
#[tactic(auto, using(crate::proofs::ArgumentsIn::actor_read, crate::proofs::ArgumentsIn::actor_unread))]
fn actor(word: &[u8], left: usize) -> Result<Actor, Unread>
    ensures fits { IfOk result (λ actor. FitsKept actor) }
    ensures read { told result ≡ tested (actor_test word.now ∷ []) (actor_in word.now) }
{
    if word == b"c".as_slice() {
        return Ok(Actor::Clock);
    }
    match number(word, LAST_HART) {
        Some(hart) => Ok(Actor::Hart(hart)),
        None => Err(Unread {
            left,
            wrong: Wrong::BadNumber,
        }),
    }
}

/// The operation that a text's words are, or its words before the first arrow.
fn op(text: &[u8], until_arrow: bool) -> Result<Op, Unread>
    ensures { told result ≡ tested (named_tests form_of (words_until until_arrow (words_in text.now)))
        (op_in (words_until until_arrow (words_in text.now))) }
{
    let (word, rest) = next_word_until(text, until_arrow).ok_or(missing(text))?;
    let name = op_name(word).ok_or(Unread {
        left: from_word(word, rest),
        wrong: Wrong::UnknownOperation,
    })?;
    let arguments = arguments_in(rest, until_arrow, &name.places())?;
    Ok(name.op(&arguments))
}

/// The guest's operation that a word names, with the arguments that a text's words are.
pub fn guest_op(word: &[u8], rest: &[u8]) -> Result<Op, Unread>
    ensures { told result ≡ tested (named_tests guest_form_of (word.now ∷ words_in rest.now))
        (named_in guest_form_of Advance (word.now ∷ words_in rest.now)) }
{
    let name = guest_name(word).ok_or(Unread {
        left: from_word(word, rest),
        wrong: Wrong::UnknownOperation,
    })?;
    let arguments = arguments_in(rest, false, &name.places())?;
    Ok(name.op(&arguments))
}

/// The operation that a word names.
#[tactic(auto, using(crate::proofs::Named::unnamed_op, crate::proofs::Named::named_op))]
fn op_name(word: &[u8]) -> Option<OpName>
    ensures { MatchOption result (form_of word.now ≡ None) (λ name. form_of word.now ≡ Some (op_form name)) }
{
    OpName::of(word)
}

/// The guest's operation that a word names.
#[tactic(auto, using(crate::proofs::Named::not_for_guests, crate::proofs::Named::unnamed_op))]
fn guest_name(word: &[u8]) -> Option<OpName>
    ensures { MatchOption result (guest_form_of word.now ≡ None)
        (λ name. guest_form_of word.now ≡ Some (op_form name)) }
{
    match OpName::of(word) {
        Some(name) if name.is_guests() => Some(name),
        _ => None,
    }
}

/// The one number that a text's words are.
pub fn one_number(text: &[u8]) -> Result<u64, Unread>
    ensures { told result ≡ tested (number_tests (words_in text.now)) (first_number (words_in text.now)) }
{
    let arguments = arguments_in(text, false, &any_numbers(1, 1))?;
    Ok(number_at(&arguments, 0))
}

/// What the words of a reply or a refusal say.
fn said(text: &[u8]) -> Result<Said, Unread>
    ensures { told result ≡ tested (said_tests (words_in text.now)) (said_in (words_in text.now)) }
{
    let (word, rest) = next_word(text).ok_or(missing(text))?;
    if word == SaidName::Ret.word() {
        ret(rest)
    } else {
        named_said(word, rest)
    }
}

/// What a name and the words behind it say.
fn named_said(word: &[u8], rest: &[u8]) -> Result<Said, Unread>
    ensures { told result ≡ tested (form_tests (said_form_of word.now) (words_in rest.now))
        (made_by Done (said_form_of word.now) (words_in rest.now)) }
{
    let name = said_name(word).ok_or(Unread {
        left: from_word(word, rest),
        wrong: Wrong::UnknownReply,
    })?;
    let arguments = arguments_in(rest, false, &name.places())?;
    Ok(name.said(&arguments))
}

/// What a word names that is said of a step, but for `ret`.
#[tactic(auto, using(crate::proofs::Named::unnamed_said, crate::proofs::Named::named_said, crate::proofs::Named::ret_said))]
fn said_name(word: &[u8]) -> Option<SaidName>
    ensures { MatchOption result (said_form_of word.now ≡ None)
        (λ name. said_form_of word.now ≡ Some (said_form name)) }
{
    match SaidName::of(word) {
        Some(SaidName::Ret) | None => None,
        Some(name) => Some(name),
    }
}

/// An error and a value.
fn ret(text: &[u8]) -> Result<Said, Unread>
    ensures { told result ≡ tested (ret_tests (words_in text.now)) (ret_in (words_in text.now)) }
{
    let (error, behind) = next_word(text).ok_or(missing(text))?;
    let (value, rest) = next_word(behind).ok_or(missing(behind))?;
    if let Some((third, after)) = next_word(rest) {
        return Err(Unread {
            left: from_word(third, after),
            wrong: Wrong::WordTooMany,
        });
    }
    let left = from_word(value, rest);
    ret_of(error, from_word(error, behind), value, left)
}

/// The error and the value that two words spell; each begins this many bytes before the line's end.
#[tactic(auto, using(crate::proofs::Named::ret_good, crate::proofs::Named::ret_bad_error, crate::proofs::Named::ret_bad_value))]
fn ret_of(error: &[u8], error_left: usize, value: &[u8], value_left: usize) -> Result<Said, Unread>
    ensures { told result ≡ tested (ret_tests (error.now ∷ value.now ∷ [])) (ret_in (error.now ∷ value.now ∷ [])) }
{
    match signed_number(error) {
        None => Err(Unread {
            left: error_left,
            wrong: Wrong::BadNumber,
        }),
        Some(error) => match number(value, u64::MAX) {
            None => Err(Unread {
                left: value_left,
                wrong: Wrong::BadNumber,
            }),
            Some(value) => Ok(Said::Ret { error, value }),
        },
    }
}

/// A word is missing before the next one, or at the end.
fn missing(text: &[u8]) -> Unread
    ensures { result.wrong ≡ WordMissing }
{
    Unread {
        left: from_next(text),
        wrong: Wrong::WordMissing,
    }
}
