//! What gives the texts of files.
ghost use Rattle.std.specs.Prelude.{◌≡◌, ℕ, IfOk, IfSome, List, Option, Some};

use std::io::{self, Read};

/// Gives the texts of files, by their names.
pub trait Texts {
    /// A text that is read.
    type Text: Read + Drop;

    // the bytes of the file of a name, where they are known
    ghost bytes: { Self → List ℕ → Option (List ℕ) };

    /// Opens the file of this name.
    ///
    /// # Errors
    ///
    /// It can't be opened.
    fn open(&self, name: &str) -> io::Result<Self::Text>
        ensures { IfOk result (λ text. IfSome (bytes self.now name.now) (λ all. Self.Text.remaining text ≡ Some all)) };
}
