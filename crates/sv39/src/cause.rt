//! Kinds of accesses, and the causes of their faults.
ghost use Rattle.std.specs.Prelude.{◌≡◌};
ghost use Rattle.sv39.specs.Causes.{access_fault, cause_number, misaligned, page_fault};

/// The kinds of access (Privileged 4.1.8).
#[derive(Clone, Copy, Debug, PartialEq, Eq)]
pub enum Kind {
    /// An instruction fetch.
    Fetch,
    /// A load.
    Load,
    /// A store.
    Store,
    /// An access that reads and writes in one step: an AMO.
    Amo,
}

impl Kind {
    /// The cause if the address isn't aligned (Privileged 4.1.8).
    pub fn misaligned(self) -> Cause
        ensures { result ≡ misaligned self }
    {
        match self {
            Kind::Fetch => Cause::InstructionAddressMisaligned,
            Kind::Load => Cause::LoadAddressMisaligned,
            Kind::Store | Kind::Amo => Cause::StoreAddressMisaligned,
        }
    }

    /// The cause if the physical address is outside the RAM (Privileged 4.1.8).
    pub fn access_fault(self) -> Cause
        ensures { result ≡ access_fault self }
    {
        match self {
            Kind::Fetch => Cause::InstructionAccessFault,
            Kind::Load => Cause::LoadAccessFault,
            Kind::Store | Kind::Amo => Cause::StoreAccessFault,
        }
    }

    /// The cause if no page allows the access (Privileged 4.1.8).
    pub fn page_fault(self) -> Cause
        ensures { result ≡ page_fault self }
    {
        match self {
            Kind::Fetch => Cause::InstructionPageFault,
            Kind::Load => Cause::LoadPageFault,
            Kind::Store | Kind::Amo => Cause::StorePageFault,
        }
    }
}

/// Why an access failed (Privileged 4.1.8).
#[derive(Clone, Copy, Debug, PartialEq, Eq)]
pub enum Cause {
    /// Instruction address misaligned.
    InstructionAddressMisaligned,
    /// Instruction access fault.
    InstructionAccessFault,
    /// Load address misaligned.
    LoadAddressMisaligned,
    /// Load access fault.
    LoadAccessFault,
    /// Store/AMO address misaligned.
    StoreAddressMisaligned,
    /// Store/AMO access fault.
    StoreAccessFault,
    /// Instruction page fault.
    InstructionPageFault,
    /// Load page fault.
    LoadPageFault,
    /// Store/AMO page fault.
    StorePageFault,
}

impl Cause {
    /// The exception code, as scause holds it (Privileged 4.1.8).
    pub fn number(self) -> u64
        ensures { result ≡ cause_number self }
    {
        match self {
            Cause::InstructionAddressMisaligned => 0,
            Cause::InstructionAccessFault => 1,
            Cause::LoadAddressMisaligned => 4,
            Cause::LoadAccessFault => 5,
            Cause::StoreAddressMisaligned => 6,
            Cause::StoreAccessFault => 7,
            Cause::InstructionPageFault => 12,
            Cause::LoadPageFault => 13,
            Cause::StorePageFault => 15,
        }
    }
}
