//! A file under test.
use crate::options::Options;
use diagnostics::Case;
use guest_script::Script;

/// A file under test, with the runtime and the options.
#[derive(Drop)]
pub struct Trial<'a, R> {
    /// The runtime.
    pub rt: &'a R,
    /// The options.
    pub options: &'a Options<'a>,
    /// The file's text and conditions.
    pub case: Case<'a>,
    /// How the names of its records begin, which no other file's do, and no tested file's own name.
    pub record: &'a str,
    /// The script.
    pub script: &'a Script,
}
