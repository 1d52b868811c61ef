//! Fences, and what they cover.
ghost use Rattle.std.specs.Prelude.{◌≡◌, ◌<◌, ◌≤◌, ◌+◌, None};
ghost use Rattle.tlb_model.specs.Fences.{fence_of_address, fence_of_range, is_full, is_wrong_range, low_asid, meets};

use sv39::Spaces;

/// A range of virtual addresses. Its end doesn't wrap: it may be 2^64 or more.
#[derive(Clone, Copy, Debug, PartialEq, Eq)]
pub struct Range {
    /// The first address.
    pub start: u64,
    /// The number of bytes.
    pub size: u64,
}

impl Range {
    /// Whether the range and the page of `size` bytes from `page` on have an address in common.
    pub fn meets(self, page: u64, size: u64) -> bool
        requires { 0 < size }
        ensures { result ≡ meets self page size }
    {
        if self.start <= page {
            page - self.start < self.size
        } else {
            self.size > 0 && self.start - page < size
        }
    }
}

/// A fence of translations: an SFENCE.VMA (Privileged 4.2.1), or a remote one (SBI 8).
#[derive(Clone, Copy, Debug, PartialEq, Eq)]
pub struct Fence {
    /// The address space. None: all address spaces, and global mappings.
    pub asid: Option<u16>,
    /// The virtual addresses. None: all addresses.
    pub range: Option<Range>,
}

impl Fence {
    /// The fence of an SFENCE.VMA with these operands, where None stands for x0 (Privileged 4.2.1). The ASID's low
    /// ASIDLEN bits count. An address that isn't valid by the board's widest mode covers no page (profile).
    pub fn of_address(spaces: Spaces, va: Option<u64>, asid: Option<u64>) -> Fence
        requires { spaces.asid_len ≤ 16 }
        ensures { result ≡ fence_of_address spaces va asid }
    {
        Fence {
            asid: low_asid(spaces, asid),
            range: match va {
                None => None,
                Some(start) => Some(Range {
                    start,
                    size: spaces.widest.is_valid(start) as u64,
                }),
            },
        }
    }

    /// The fence of a remote SFENCE.VMA, with an ASID or without. The range is all addresses if `start` and `size` are
    /// 0, or `size` is 2^64-1 (SBI 8). The ASID's low ASIDLEN bits count (profile).
    pub fn of_range(spaces: Spaces, start: u64, size: u64, asid: Option<u64>) -> Fence
        requires { spaces.asid_len ≤ 16 }
        ensures { result ≡ fence_of_range spaces start size asid }
    {
        Fence {
            asid: low_asid(spaces, asid),
            range: if is_full(start, size) {
                None
            } else {
                Some(Range { start, size })
            },
        }
    }
}

/// Whether a remote SFENCE.VMA of this range is an invalid address: it isn't all addresses, and `start + size` is more
/// than 2^64 (SBI 8, SBI_ERR_INVALID_ADDRESS; that no other range is invalid: profile).
pub fn is_wrong_range(start: u64, size: u64) -> bool
    ensures { result ≡ is_wrong_range start size }
{
    !is_full(start, size) && start as u128 + size as u128 > 1 << 64
}

/// Whether this range means all addresses (SBI 8).
fn is_full(start: u64, size: u64) -> bool
    ensures { result ≡ is_full start size }
{
    start == 0 && size == 0 || size == u64::MAX
}

/// The low ASIDLEN bits of the ASID in a register (Privileged 4.2.1).
fn low_asid(spaces: Spaces, asid: Option<u64>) -> Option<u16>
    requires { spaces.asid_len ≤ 16 }
    ensures { result ≡ low_asid spaces asid }
{
    match asid {
        None => None,
        Some(register) => Some(spaces.cut_asid(register) as u16),
    }
}

/// A fence, by what it drops from a hart's caches.
#[derive(Clone, Copy, Debug, PartialEq, Eq)]
pub enum Flush {
    /// All fetched words, as FENCE.I does (Zifencei).
    Words,
    /// The translations that an SFENCE.VMA covers.
    Entries(Fence),
}
