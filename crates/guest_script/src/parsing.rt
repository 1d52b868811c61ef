//! A script of bytes that are there at once.
ghost use Rattle.std.specs.Prelude.{◌≡◌, ◌≢◌, IfErr, IfOk, MatchResult, Some};
ghost use Rattle.guest_script.specs.Grammar.{Reads, Written, written};
ghost use Rattle.guest_script.specs.FirstFault.{first_fault};
ghost use Rattle.guest_script.specs.Pieces.{IsAnswered};
ghost use Rattle.guest_script.specs.Reading.{plainly};

use crate::fault::{FaultKind, ScriptFault};
use crate::reader::Reader;
use crate::wrong::Misread;
use script_lines::Script;
use std::alloc::Global;

/// The script that the bytes are, or the first fault.
pub fn parse(alloc: Global, bytes: &[u8]) -> Result<Script, ScriptFault>
    // What is read is a script that the bytes are.
    ensures script { IfOk result (λ script. Reads bytes.now (written script)) }
    // Bytes that are a script are read as that one, unless memory runs out.
    ensures only { (s : Written) → Reads bytes.now s
        → MatchResult result (λ script. written script ≡ s) (λ e. e.fault ≡ FaultKind.NoMemory) }
    // Any other fault is the first one.
    ensures fault { IfErr result (λ e. e.fault ≢ FaultKind.NoMemory → first_fault bytes.now ≡ Some e) }
    ensures memory { IfErr result (λ e. e.fault ≡ FaultKind.NoMemory → e.line ≡ 0) }
{
    Reader::expecting(bytes.len()).end(alloc, bytes)
}

/// The same, with the place of the first fault in its line.
pub fn locate(alloc: Global, bytes: &[u8]) -> Result<Script, Misread>
    ensures { IsAnswered bytes.now (plainly result) }
{
    Reader::expecting(bytes.len()).locate(alloc, bytes)
}
