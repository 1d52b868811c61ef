//! Laws of names and their words.
ghost use Rattle.std.specs.Prelude.{◌≡◌, ℕ, List, Some};
ghost use Rattle.script_lines.specs.Names.{op_named, op_word, said_named, said_word};

use crate::op_name::OpName;
use crate::said_name::SaidName;

/// The word of an operation names only this operation, and no other word names it. A law: there is nothing to run.
#[tactic(auto, using(crate::proofs::NamesFound::op_is_named, crate::proofs::NamesFound::op_of_word))]
pub fn words_name_ops()
    ensures named { (name : OpName) → op_named (op_word name) ≡ Some name }
    ensures only { (word : List ℕ) (name : OpName) → op_named word ≡ Some name → word ≡ op_word name }
{}

/// The same for the words of replies and refusals. A law: there is nothing to run.
#[tactic(auto, using(crate::proofs::NamesFound::said_found, crate::proofs::NamesFound::said_of_word))]
pub fn words_name_saids()
    ensures named { (name : SaidName) → said_named (said_word name) ≡ Some name }
    ensures only { (word : List ℕ) (name : SaidName) → said_named word ≡ Some name → word ≡ said_word name }
{}
