//! The atomic operation, or the store of part of a word, that a line's letters allow.
use amo::{AmoFunction, AmoName};
use script_lines::OpName;

/// The only atomic operation, or store of part of a word, that the letters allow.
pub(crate) fn amo_by_letters(bytes: &[u8]) -> Option<OpName> {
    let name = match bytes {
        [b'a', b'm', b'o', b'c', ..] => AmoName::Cas,
        [b'a', b'm', b'o', letters @ ..] => named_function(letters)?,
        [b's', b't', b'o', b'r', b'e', b'1', ..] => AmoName::Store1,
        [b's', b't', b'o', b'r', b'e', b'2', ..] => AmoName::Store2,
        [b's', b't', b'o', b'r', b'e', b'4', ..] => AmoName::Store4,
        _ => return None,
    };
    Some(OpName::Amo(name))
}

/// The operation that the letters behind `amo` allow: on 4 bytes if a dot follows its function's name, otherwise on 8.
fn named_function(letters: &[u8]) -> Option<AmoName> {
    let (function, rest) = function_by_letters(letters)?;
    Some(match rest {
        [b'.', ..] => AmoName::Half(function),
        _ => AmoName::Double(function),
    })
}

/// The function whose name the letters begin with, and the letters behind it.
fn function_by_letters(letters: &[u8]) -> Option<(AmoFunction, &[u8])> {
    match letters {
        [b's', b'w', b'a', b'p', rest @ ..] => Some((AmoFunction::Swap, rest)),
        [b'a', b'd', b'd', rest @ ..] => Some((AmoFunction::Add, rest)),
        [b'a', b'n', b'd', rest @ ..] => Some((AmoFunction::And, rest)),
        [b'o', b'r', rest @ ..] => Some((AmoFunction::Or, rest)),
        [b'x', b'o', b'r', rest @ ..] => Some((AmoFunction::Xor, rest)),
        [b'm', b'i', b'n', b'u', rest @ ..] => Some((AmoFunction::Minu, rest)),
        [b'm', b'i', b'n', rest @ ..] => Some((AmoFunction::Min, rest)),
        [b'm', b'a', b'x', b'u', rest @ ..] => Some((AmoFunction::Maxu, rest)),
        [b'm', b'a', b'x', rest @ ..] => Some((AmoFunction::Max, rest)),
        _ => None,
    }
}
