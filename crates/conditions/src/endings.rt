//! How runs end, by the names that conditions use.
ghost use Rattle.std.specs.Prelude.{◌≡◌};
ghost use Rattle.conditions.specs.Endings.{ending};

use condition_script::Ending;
use guest_programs::End;

/// The name of an end, if conditions have one.
pub fn ending(end: End) -> Option<Ending>
    ensures { result ≡ ending end }
{
    match end {
        End::Off => Some(Ending::Off),
        End::HistoryFull => Some(Ending::HistoryFull),
        End::Quiet => Some(Ending::Quiet),
        End::Stuck => Some(Ending::Stuck),
        End::GateLimit => None,
    }
}
