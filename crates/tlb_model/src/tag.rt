//! Tags: a byte for each place of a cache, all of which are compared at once.
ghost use Rattle.std.specs.Prelude.{◌≡◌, ◌+◌, ◌<◌, ◌≤◌, ◌%◌, ◌^◌, ℕ, Some, slice_index};
ghost use Rattle.std.specs.Int.{bit_at};
ghost use Rattle.tlb_model.specs.Inside.Tags.{Suits};

use std::simd::prelude::*;

/// The tag of an item that any key and any fence suits.
pub const ANY: u8 = u8::MAX;

/// A bit for each place of an item that a key or a fence of this tag suits.
#[inline(always)]
pub fn with_tag(tags: &[u8; 16], tag: u8) -> u32
    ensures { (place : ℕ) → place < 16 → Suits (slice_index tags.now place) tag → bit_at result place ≡ 1 }
{
    let lanes = u8x16::from_array(*tags);
    let same = lanes.simd_eq(u8x16::splat(tag)).to_bitmask();
    let any = lanes.simd_eq(u8x16::splat(ANY)).to_bitmask();
    (same | any) as u32
}

/// The same, or a bit for each place if there is no tag.
#[inline(always)]
pub fn suspects(tags: &[u8; 16], tag: Option<u8>) -> u32
    ensures { (place : ℕ) → place < 16 → ((wanted : ℕ) → tag ≡ Some wanted → Suits (slice_index tags.now place) wanted)
        → bit_at result place ≡ 1 }
{
    match tag {
        Some(tag) => with_tag(tags, tag),
        None => 0xFFFF,
    }
}

/// The marks of places, those of the latest fills on top: bit 31 is the mark of the last one before fill `next`.
#[inline(always)]
pub fn newest_first(marks: u32, next: u64) -> u32
    requires { marks < 2 ^ 16 }
    ensures order { (bit : ℕ) → 16 ≤ bit → bit < 32 → bit_at result bit ≡ bit_at marks ((next + bit) % 16) }
    ensures low { (bit : ℕ) → bit < 16 → bit_at result bit ≡ 0 }
{
    (marks << 16 | marks) >> (next % 16) << 16
}
