//! What kind of line a line is, by its first words.
ghost use Rattle.std.specs.Prelude.{◌≡◌};
ghost use Rattle.guest_script.specs.Values.{begins_actor_line, kind_of, words_in};

use line_words::has_arrow;

/// What a line is.
#[derive(Clone, Copy)]
pub enum LineKind {
    /// A block's head.
    Head,
    /// An actor's step or a cut, of a schedule or of a trace.
    Step {
        /// Whether it says what the step gave.
        in_trace: bool,
    },
    /// An operation alone.
    Operation,
}

impl LineKind {
    /// What a line is by its first word, and whether an arrow stands behind that.
    pub fn of(first: &[u8], rest: &[u8]) -> LineKind
        ensures { result ≡ kind_of first.now (words_in rest.now) }
    {
        match first {
            b"at" | b"clock" => LineKind::Head,
            _ => {
                if begins_actor_line(first) {
                    LineKind::Step {
                        in_trace: has_arrow(rest),
                    }
                } else {
                    LineKind::Operation
                }
            }
        }
    }
}

/// Whether a line with this first word is an actor's, or a cut.
fn begins_actor_line(first: &[u8]) -> bool
    ensures { result ≡ begins_actor_line first.now }
{
    matches!(first, b"cut" | b"c" | [b'0'..=b'9', ..])
}
