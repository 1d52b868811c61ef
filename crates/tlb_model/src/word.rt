//! A fetched word.
ghost use Rattle.std.specs.Prelude.{◌≡◌};
ghost use Rattle.tlb_model.specs.Words.{covers_word, is_at};
ghost use Rattle.tlb_model.specs.Inside.ItemTags.{no_tag, pa_tag, word_tag};
ghost use Rattle.tlb_model.specs.Inside.TagLaws.{word_covered, word_held};

use crate::cache::Cached;
use crate::fence::Flush;

/// A fetched word.
#[derive(Clone, Copy, Debug, Default, PartialEq, Eq)]
pub struct FetchWord {
    /// The word's physical address.
    pub pa: u64,
    /// The value of the 8 bytes there when they were fetched.
    pub word: u64,
}

impl Cached for FetchWord {
    type Key = u64;

    ghost holds = { is_at };

    ghost covers = { covers_word };

    ghost tag = { word_tag };

    ghost key_tag = { pa_tag };

    ghost flush_tag = { no_tag };

    ghost held = { word_held };

    ghost covered = { word_covered };

    fn holds(&self, pa: u64) -> bool {
        self.pa == pa
    }

    fn is_covered_by(&self, flush: Flush) -> bool {
        match flush {
            Flush::Words => true,
            Flush::Entries(_) => false,
        }
    }

    fn tag(&self) -> u8 {
        pa_tag(self.pa)
    }

    fn key_tag(pa: u64) -> u8 {
        pa_tag(pa)
    }

    fn flush_tag(_flush: Flush) -> Option<u8> {
        None
    }
}

/// The low byte of a word's number.
fn pa_tag(pa: u64) -> u8
    ensures { result ≡ pa_tag pa }
{
    (pa / 8 % 256) as u8
}
