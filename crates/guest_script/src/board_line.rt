//! The first line: a board's numbers.
ghost use Rattle.std.specs.Prelude.{◌≡◌, ◌∷◌};
ghost use Rattle.guest_script.specs.FirstFault.{board_number_tests, board_tests, byte_test};
ghost use Rattle.guest_script.specs.Reading.{Gives, tested, told};
ghost use Rattle.guest_script.specs.Values.{arguments_in, board_in, config_of, words_in};
ghost use Rattle.guest_script.specs.Words.{last_number};

use crate::fault::FaultKind;
use crate::numbers::{MOST_ARGUMENTS, arguments_in};
use crate::wrong::{Unread, Wrong};
use arrayvec::ArrayVec;
use board_terms::{Config, USUAL_ASID_LEN, USUAL_WIDTH};
use line_words::{from_bad_byte, from_word, is_clean, next_word};
use script_lines::{any_numbers, number_at, number_or};

/// The board that a line's words name, if the line has words.
pub fn board_words(text: &[u8]) -> Result<Option<Config>, Unread>
    ensures { told result ≡ tested (byte_test text.now ∷ board_tests (words_in text.now)) (board_in (words_in text.now)) }
{
    if !is_clean(text) {
        return Err(Unread {
            left: from_bad_byte(text),
            wrong: Wrong::BadByte,
        });
    }
    match next_word(text) {
        None => Ok(None),
        Some((first, rest)) => {
            if first != b"board".as_slice() {
                return Err(Unread {
                    left: from_word(first, rest),
                    wrong: Wrong::NoBoardLine,
                });
            }
            let numbers = board_numbers(rest)?;
            Ok(Some(config(&numbers)))
        }
    }
}

/// The numbers that a text's words are: a board has six or eight.
fn board_numbers(text: &[u8]) -> Result<ArrayVec<Option<u64>, MOST_ARGUMENTS>, Unread>
    ensures { Gives (λ found. found.items) (told result)
        (tested (board_number_tests (words_in text.now)) (arguments_in last_number (words_in text.now))) }
{
    match arguments_in(text, false, &any_numbers(6, 6)) {
        Err(unread) => match unread.wrong.fault() {
            FaultKind::WordCount => arguments_in(text, false, &any_numbers(8, 8)),
            _ => Err(unread),
        },
        Ok(found) => Ok(found),
    }
}

/// The board of these numbers. Where the last two are left out, they are the usual ones.
#[tactic(auto, unfolding(crate::specs::Values::config_of))]
fn config(numbers: &[Option<u64>]) -> Config
    ensures { result ≡ config_of numbers.now }
{
    Config {
        harts: number_at(numbers, 0),
        pages: number_at(numbers, 1),
        limit: number_at(numbers, 2),
        boot_hart: number_at(numbers, 3),
        boot_addr: number_at(numbers, 4),
        boot_opaque: number_at(numbers, 5),
        asid_len: number_or(USUAL_ASID_LEN, numbers, 6),
        width: number_or(USUAL_WIDTH, numbers, 7),
    }
}
