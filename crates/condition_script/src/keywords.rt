//! The words that conditions begin with.
ghost use Rattle.std.specs.Prelude.{◌≡◌, MatchOption, None};
ghost use Rattle.condition_script.specs.Grammar.{keyword_named, keyword_word};

/// The word that a condition begins with, `maybe` aside.
#[derive(Clone, Copy, PartialEq, Eq)]
pub enum Keyword {
    /// `never`
    Never,
    /// `some`
    Some,
    /// `each`
    Each,
    /// `end`
    End,
    /// `before`
    Before,
    /// `can`
    Can,
    /// `steady`
    Steady,
    /// `firm`
    Firm,
    /// `lenient`
    Lenient,
}

impl Keyword {
    /// The keyword that a word is.
    #[tactic(auto, unfolding(crate::specs::Grammar::keyword_named))]
    pub fn of(word: &[u8]) -> Option<Keyword>
        ensures { MatchOption result (keyword_named word.now ≡ None) (λ keyword. word.now ≡ keyword_word keyword) }
    {
        match word {
            b"never" => Some(Keyword::Never),
            b"some" => Some(Keyword::Some),
            b"each" => Some(Keyword::Each),
            b"end" => Some(Keyword::End),
            b"before" => Some(Keyword::Before),
            b"can" => Some(Keyword::Can),
            b"steady" => Some(Keyword::Steady),
            b"firm" => Some(Keyword::Firm),
            b"lenient" => Some(Keyword::Lenient),
            _ => None,
        }
    }
}
