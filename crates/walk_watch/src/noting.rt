//! The lists that a log of walks keeps.
ghost use Rattle.std.specs.Prelude.{◌≡◌, IfOk, None, Some};
ghost use Rattle.tlb_watch.specs.declared.effect.CacheEffect.TheVariants.{Applied};
ghost use Rattle.walk_watch.specs.Logged.{is_ordered, is_same_satp, satps_after, with_fence, with_former, with_word};

use crate::former::{FormerSatp, FormerWord, WalkNote};
use crate::ordering::orders_pointers;
use std::alloc::AllocError;
use tlb_model::Flush;

/// Drops the satps that a fence at a hart orders.
pub(crate) fn spare(satps: &mut Vec<FormerSatp>, met: bool, hart: u64, flush: Flush)
    ensures { satps.new.items ≡ satps_after met (Applied hart flush) None satps.old.items }
{
    satps.retain(|former| !is_ordered(met, hart, flush, *former));
}

/// Whether a fence at a hart orders a satp.
fn is_ordered(met: bool, hart: u64, flush: Flush, former: FormerSatp) -> bool
    ensures { result ≡ is_ordered met hart flush former }
{
    former.hart == hart && orders_pointers(met, former.satp.asid(), flush)
}

/// Adds the satp that changed, if one did, to both lists. Each is kept once.
pub(crate) fn put_satp(
    own: &mut Vec<FormerSatp>,
    global: &mut Vec<FormerSatp>,
    former: Option<FormerSatp>,
) -> Result<(), AllocError>
    ensures own { IfOk result (λ _. own.new.items ≡ with_former former own.old.items) }
    ensures global { IfOk result (λ _. global.new.items ≡ with_former former global.old.items) }
{
    let Some(FormerSatp { hart, satp }) = former else {
        return Ok(());
    };
    put_one(own, FormerSatp { hart, satp })?;
    put_one(global, FormerSatp { hart, satp })
}

/// Adds a satp, and drops an older note of it.
fn put_one(satps: &mut Vec<FormerSatp>, former: FormerSatp) -> Result<(), AllocError>
    ensures { IfOk result (λ _. satps.new.items ≡ with_former (Some former) satps.old.items) }
{
    satps.retain(|other| !is_same_satp(*other, former));
    satps.push(former)?;
    Ok(())
}

/// Whether two are the same satp of the same hart.
fn is_same_satp(a: FormerSatp, b: FormerSatp) -> bool
    ensures { result ≡ is_same_satp a b }
{
    a.hart == b.hart && a.satp.bits() == b.satp.bits()
}

/// Adds the word that changed, if one did.
pub(crate) fn put_word(
    notes: &mut Vec<WalkNote>,
    word: Option<FormerWord>,
) -> Result<(), AllocError>
    ensures { IfOk result (λ _. notes.new.items ≡ with_word word notes.old.items) }
{
    if let Some(word) = word {
        notes.insert(0, WalkNote::Was(word))?;
    }
    Ok(())
}

/// Adds a fence at a hart, if it is one of translations.
pub(crate) fn put_fence(
    notes: &mut Vec<WalkNote>,
    hart: u64,
    flush: Flush,
) -> Result<(), AllocError>
    ensures { IfOk result (λ _. notes.new.items ≡ with_fence hart flush notes.old.items) }
{
    match flush {
        Flush::Words => {}
        Flush::Entries(_) => notes.insert(0, WalkNote::Fence(hart, flush))?,
    }
    Ok(())
}
