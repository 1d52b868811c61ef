//! Rows of what no script shows: components, printed lines, and devices that fail.
//!
//! The program must print its file stdout. The worked rows are scripts, in `tests/rows`.
#![tactic(auto)]

mod built;
mod components;
mod devices;
mod judging;
mod needs;
mod printing;

use anyhow::Result;

fn main(rt: HostRuntime) -> Result<()> {
    show(&rt)?;
    devices::show_devices(&rt)
}

/// Shows what no script can.
fn show<R: AllocGlobal + Print + Eprint>(rt: &R) -> Result<()> {
    components::show_sets(rt)?;
    components::show_software_interrupts(rt)?;
    components::show_timers(rt)?;
    components::show_errors(rt)?;
    components::show_faults(rt)?;
    components::show_endings(rt)?;
    components::show_entry(rt)?;
    printing::show_lines(rt)?;
    built::show_built(rt)?;
    needs::show_needs(rt)
}
