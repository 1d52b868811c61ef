//! Actors and operations.
use amo::Amo;
use sbi_abi::Regs;

/// Who makes a step.
#[derive(Clone, Copy, Debug, PartialEq, Eq)]
pub enum Actor {
    /// The hart of this id.
    Hart(u64),
    /// The clock.
    Clock,
}

/// What an actor does in one step.
#[derive(Clone, Copy, Debug, PartialEq, Eq)]
pub enum Op {
    /// A guest calls the firmware by ECALL (SBI 3).
    Ecall(Regs),
    /// A guest loads the word of 8 bytes at a virtual address.
    Load(u64),
    /// A guest stores a word of 8 bytes at a virtual address: the address, and the word.
    Store(u64, u64),
    /// A guest fetches the word of 8 bytes at a virtual address.
    Fetch(u64),
    /// A guest reads and writes memory at a virtual address in one step, by an AMO or a compare-and-swap; or it stores
    /// 1, 2 or 4 bytes there (unprivileged ISA 8.4, 2.6; Zacas).
    Amo(u64, Amo),
    /// A guest writes satp (Privileged 4.1.11). This fences nothing.
    WriteSatp(u64),
    /// A guest writes sie (Privileged 4.1.3).
    WriteSie(u64),
    /// A guest enables or disables its hart's interrupts (Privileged 4.1.1, sstatus.SIE).
    WriteSstatusSie(bool),
    /// A guest reads sip (Privileged 4.1.3).
    ReadSip,
    /// A guest clears SSIP of its hart (Privileged 4.1.3).
    ClearSsip,
    /// A guest waits for an interrupt (Privileged 3.3.3, WFI). The step is accepted only while an enabled interrupt is
    /// pending (profile).
    Wfi,
    /// A guest's local SFENCE.VMA (Privileged 4.2.1): of this virtual address or, with None, of all; in the address
    /// space of this ASID or, with None, in all.
    Sfence(Option<u64>, Option<u64>),
    /// A guest's local FENCE.I (Zifencei).
    FenceI,
    /// The firmware ends its hart's fence call, which waits for no hart any more. The call returns (profile).
    Poll,
    /// The firmware applies the first remote fence that waits at its hart (profile).
    Serve,
    /// The firmware advances its hart by one state (SBI 9; that it is a step: profile).
    Advance,
    /// The time advances by so many ticks (profile).
    Tick(u64),
}
