//! Whether all that walks of page tables may give an access is what it must be.
ghost use Rattle.std.specs.Prelude.{◌≡◌, ◌<◌, ◌^◌, IfOk};
ghost use Rattle.sv39.specs.Memory.{word_in};
ghost use Rattle.sv39.specs.Pages.{levels_from, part};
ghost use Rattle.sv39.specs.Paging.{scheme};
ghost use Rattle.sv39.specs.Satp.{paging_of, root_address};
ghost use Rattle.walk_watch.specs.Inside.Fits.{counted_fits, fits_from, former_fits, is_counted, satp_fits, satps_fit, spot_of};

use crate::former::{FormerSatp, WalkNote};
use crate::ordering::Walkers;
use crate::sight::{Spot, words_seen};
use crate::table_word::{is_end_global, is_global, is_pointer, outcome, table_of};
use crate::wanted::Wanted;
use std::alloc::{AllocError, Global};
use sv39::{Cause, Leaf, Level, PAGE_BYTES, Paging, Ram, Satp};

/// Walks for an access: those by one ASID that meet no G or, with `met`, those that meet G; and what they must give.
#[derive(Clone, Copy)]
pub(crate) struct Sought {
    pub(crate) wanted: Wanted,
    pub(crate) met: bool,
    pub(crate) asid: u64,
}

impl Sought {
    /// Whether all results of these walks fit, from a table of the first of these levels on.
    ///
    /// # Errors
    ///
    /// Out of memory.
    fn fits_from(
        self,
        alloc: Global,
        notes: &[WalkNote],
        ram: &Ram,
        levels: &[Level],
        table: u64,
        global: bool,
    ) -> Result<bool, AllocError>
        requires { table < 2 ^ 56 }
        ensures { IfOk result (λ fits. fits ≡ fits_from self notes.now (word_in ram.now) levels.now table global) }
    {
        let Some((level, under)) = levels.split_first() else {
            return Ok(self.counted_fits(global, Err(self.wanted.kind.page_fault())));
        };
        let level = *level;
        let spot = self.spot(level, table + 8 * part(level, self.wanted.va));
        let words = words_seen(alloc, notes, spot, word_at(ram, spot.at))?;
        let mut fits = true;
        for seen in &words {
            let word = *seen;
            let fit = if is_pointer(word, level) {
                let met = global || is_global(word);
                self.fits_from(alloc, notes, ram, under, table_of(word), met)?
            } else {
                let met = global || is_end_global(word);
                let found = outcome(word, self.wanted.va, self.wanted.kind, level, global);
                self.counted_fits(met, found)
            };
            fits = fits && fit;
        }
        Ok(fits)
    }

    /// Whether the result of a walk that met G, or didn't, fits, if the walk is sought.
    fn counted_fits(self, global: bool, found: Result<Leaf, Cause>) -> bool
        ensures { result ≡ counted_fits self global found }
    {
        self.met != global || self.wanted.fits(found)
    }

    /// A place that these walks read.
    fn spot(self, level: Level, at: u64) -> Spot
        ensures { result ≡ spot_of self level at }
    {
        Spot {
            walkers: Walkers {
                hart: self.wanted.hart,
                va: self.wanted.va,
                met: self.met,
                asid: self.asid,
            },
            level,
            at,
        }
    }
}

/// Whether all results of walks that meet no G or, with `met`, of those that meet G fit: by the hart's present satp, and
/// by former ones.
///
/// # Errors
///
/// Out of memory.
pub(crate) fn satps_fit(
    wanted: Wanted,
    alloc: Global,
    met: bool,
    notes: &[WalkNote],
    ram: &Ram,
    present: Satp,
    satps: &[FormerSatp],
) -> Result<bool, AllocError>
    ensures { IfOk result (λ fits. fits ≡ satps_fit wanted met notes.now (word_in ram.now) present satps.now) }
{
    let mut fits = satp_fits(wanted, alloc, met, notes, ram, present, present)?;
    for former in satps {
        let fit = former_fits(wanted, alloc, met, notes, ram, present, *former)?;
        fits = fits && fit;
    }
    Ok(fits)
}

/// The same by a former satp, if it was the hart's.
fn former_fits(
    wanted: Wanted,
    alloc: Global,
    met: bool,
    notes: &[WalkNote],
    ram: &Ram,
    present: Satp,
    former: FormerSatp,
) -> Result<bool, AllocError>
    ensures { IfOk result (λ fits. fits ≡ former_fits wanted met notes.now (word_in ram.now) present former) }
{
    if former.hart != wanted.hart {
        return Ok(true);
    }
    satp_fits(wanted, alloc, met, notes, ram, present, former.satp)
}

/// The same by a satp, if walks by it count.
fn satp_fits(
    wanted: Wanted,
    alloc: Global,
    met: bool,
    notes: &[WalkNote],
    ram: &Ram,
    present: Satp,
    satp: Satp,
) -> Result<bool, AllocError>
    ensures { IfOk result (λ fits. fits ≡ satp_fits wanted met notes.now (word_in ram.now) present satp) }
{
    if !is_counted(met, present, wanted.va, satp) {
        return Ok(true);
    }
    let sought = Sought {
        wanted,
        met,
        asid: satp.asid(),
    };
    let table = root(satp);
    match satp.paging() {
        Paging::Sv39 => {
            let levels = [Level::Giga, Level::Mega, Level::Kilo];
            sought.fits_from(alloc, notes, ram, &levels, table, false)
        }
        Paging::Sv48 => {
            let levels = [Level::Tera, Level::Giga, Level::Mega, Level::Kilo];
            sought.fits_from(alloc, notes, ram, &levels, table, false)
        }
    }
}

/// Whether walks by a satp count, for an access by this one: it translates the address and, of walks that meet no G, it is
/// of the same address space.
fn is_counted(met: bool, present: Satp, va: u64, satp: Satp) -> bool
    ensures { result ≡ is_counted met present va satp }
{
    satp.translates() && (satp.is_valid(va) && (met || satp.asid() == present.asid()))
}

/// The physical address of a satp's root page table.
fn root(satp: Satp) -> u64
    ensures root { result ≡ root_address satp }
    ensures small { result < 2 ^ 56 }
{
    satp.bits() % (1 << 44) * PAGE_BYTES
}

/// The index of an address's entry in a table of a level: the address's VPN part (Privileged 4.4.1, 4.5.1).
fn part(level: Level, va: u64) -> u64
    ensures part { result ≡ part level va }
    ensures small { result < 512 }
{
    va / level.size() % 512
}

/// The word of the RAM at a physical address, if it has one.
fn word_at(ram: &Ram, at: u64) -> Option<u64>
    ensures { result ≡ word_in ram.now at }
{
    if ram.holds(at) {
        Some(ram.load(at))
    } else {
        None
    }
}
