//! Orders that are tried on several processors.
ghost use Rattle.std.specs.Prelude.{◌≡◌, ◌≤◌, ◌<◌, ◌+◌, ◌*◌, ◌-◌, ◌^◌, ℕ, [], length, slice_index_or, ◌⊎◌, IfErr, IfOk, IsErrOf};
ghost use Rattle.board_terms.specs.Limits.{IsGood};
ghost use Rattle.guest_script.specs.Grammar.{content};
ghost use Rattle.guest_programs.specs.Programs.{IsProgram};
ghost use Rattle.guest_programs.specs.declared.ends.RunFault.TheVariants.{BadConfig, NoMemory};
ghost use Rattle.outcome_statistics.specs.Findings.{AreFound, AreFoundOf};
ghost use Rattle.outcome_statistics.specs.Inside.Shares.{AreShares, IsShare, edge};

use crate::batch::Batch;
use crate::findings::Findings;
use crate::orders::try_orders;
use guest_programs::RunFault;
use std::alloc::{AllocError, Global};
use std::thread::{self, Threads};

/// Tries orders as `try_orders` does, in as many jobs at a time as given, each of which tries a share. The findings don't
/// depend on the number of jobs.
///
/// # Errors
///
/// The board line is outside the board's limits, or memory was refused.
pub fn try_in_jobs<R: Threads + Sync>(
    rt: &R,
    alloc: Global,
    jobs: u64,
    batch: &Batch<'_>,
) -> Result<Findings, RunFault>
    requires program { IsProgram (content batch.now.script.now.body) }
    requires up { batch.now.from ≤ batch.now.to }
    requires some { 0 < jobs }
    ensures bad { IsErrOf result BadConfig → ¬ IsGood batch.now.script.now.config }
    ensures fault { IfErr result (λ fault. (fault ≡ BadConfig) ⊎ (fault ≡ NoMemory)) }
    ensures found { IfOk result (AreFoundOf batch.now.script.now.config (content batch.now.script.now.body)
        batch.now.conditions.now batch.now.seed batch.now.from batch.now.to) }
{
    if jobs == 1 {
        return try_orders(alloc, batch);
    }
    let share = (batch.to - batch.from) / jobs + 1;
    let all = try_shares(rt, alloc, jobs, batch, share)?;
    let found = Findings::new(alloc, batch.conditions.len())?;
    joined(batch, share, found, all)
}

/// Tries all shares of the orders, at most as many at a time as threads can be started.
fn try_shares<R: Threads + Sync>(
    rt: &R,
    alloc: Global,
    jobs: u64,
    batch: &Batch<'_>,
    share: u64,
) -> Result<Vec<Result<Findings, RunFault>>, AllocError>
    requires program { IsProgram (content batch.now.script.now.body) }
    requires up { batch.now.from ≤ batch.now.to }
    ensures many { IfOk result (λ v. length v.items ≡ jobs) }
    ensures each { IfOk result (λ v. (i : ℕ) (d : _) → i < jobs
        → IsShare batch.now.script.now.config (content batch.now.script.now.body) batch.now.conditions.now batch.now.seed
        (edge batch.now.from batch.now.to share) i (slice_index_or v.items i d)) }
{
    thread::map_indices(
        rt,
        alloc,
        jobs as usize,
        &|i| { try_share(alloc, batch, share, i as u64) },
    )
}

/// Tries share `i` of the orders.
fn try_share(alloc: Global, batch: &Batch<'_>, share: u64, i: u64) -> Result<Findings, RunFault>
    requires program { IsProgram (content batch.now.script.now.body) }
    requires up { batch.now.from ≤ batch.now.to }
    requires few { i < 2 ^ 64 - 1 }
    ensures { IsShare batch.now.script.now.config (content batch.now.script.now.body) batch.now.conditions.now batch.now.seed
        (edge batch.now.from batch.now.to share) i result }
{
    let from = edge(batch.from, batch.to, share, i);
    let to = edge(batch.from, batch.to, share, i + 1);
    try_orders(alloc, &Batch { from, to, ..*batch })
}

/// Where share `i` of the orders begins, and share `i - 1` ends.
fn edge(from: u64, to: u64, share: u64, i: u64) -> u64
    requires { from ≤ to }
    ensures { result ≡ edge from to share i }
{
    from.saturating_add(share.saturating_mul(i)).min(to)
}

/// The findings of all shares, in their order.
fn joined(
    batch: &Batch<'_>,
    share: u64,
    mut found: Findings,
    all: Vec<Result<Findings, RunFault>>,
) -> Result<Findings, RunFault>
    requires none { AreFound batch.now.script.now.config.harts batch.now.conditions.now [] found }
    requires up { batch.now.from ≤ batch.now.to }
    requires whole { batch.now.to - batch.now.from < length all.items * share }
    requires shares { AreShares batch.now.script.now.config (content batch.now.script.now.body) batch.now.conditions.now
        batch.now.seed (edge batch.now.from batch.now.to share) 0 all.items }
    ensures bad { IsErrOf result BadConfig → ¬ IsGood batch.now.script.now.config }
    ensures fault { IfErr result (λ fault. (fault ≡ BadConfig) ⊎ (fault ≡ NoMemory)) }
    ensures found { IfOk result (AreFoundOf batch.now.script.now.config (content batch.now.script.now.body)
        batch.now.conditions.now batch.now.seed batch.now.from batch.now.to) }
{
    for tried in all {
        let more = tried?;
        found.add(more)?;
    }
    Ok(found)
}
