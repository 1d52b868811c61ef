//! The line of an event.
ghost use Rattle.std.specs.Prelude.{◌^◌, ◌<◌, Ok};
ghost use Rattle.printed_lines.specs.Sinks.{Puts};
ghost use Rattle.printed_lines.specs.Words.{event_words, as_line};

use board_core::Event;
use printed_lines::{Failed, Sink, print_line};
use script_lines::Doing;

/// Prints the line of an accepted step.
///
/// # Errors
///
/// A write failed.
pub fn print_event<W: Sink>(event: &Event, sink: &mut W) -> Result<(), Failed>
    requires { W.failures sink.old < 2 ^ 63 }
    ensures { Puts W.written W.failures sink.old sink.new result
        (as_line (event_words event.now.actor event.now.op (Ok event.now.reply))) }
{
    let step = Doing::Step {
        actor: event.actor(),
        op: event.op(),
    };
    print_line(step, Ok(event.reply()), sink)
}
