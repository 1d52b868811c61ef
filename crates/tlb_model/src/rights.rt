//! A leaf's rights, and whether it is global, in a byte.
ghost use Rattle.std.specs.Prelude.{◌≡◌, ◌≤◌, ◌<◌};
ghost use Rattle.sv39.specs.Entries.{has_bit};
ghost use Rattle.tlb_model.specs.Inside.KeptRights.{bit, leaf_in, rights_of};

use sv39::{Leaf, Level};

// The bits of the byte.

const GLOBAL: u64 = 0;

pub const R: u64 = 1;

pub const W: u64 = 2;

pub const X: u64 = 3;

pub const D: u64 = 4;

/// The rights of a leaf, one bit each.
pub fn rights_of(leaf: Leaf) -> u8
    ensures { result ≡ rights_of leaf }
{
    let data = bit(leaf.r) + 2 * (bit(leaf.w) + 2 * (bit(leaf.x) + 2 * bit(leaf.d)));
    bit(leaf.global) + 2 * data
}

/// The leaf of a page with these rights.
pub fn leaf_in(page: u64, pa: u64, level: Level, rights: u8) -> Leaf
    ensures { result ≡ leaf_in page pa level rights }
{
    Leaf {
        page,
        pa,
        level,
        global: is_global(rights),
        r: has(rights, R),
        w: has(rights, W),
        x: has(rights, X),
        d: has(rights, D),
    }
}

/// Whether the page is global.
pub fn is_global(rights: u8) -> bool
    ensures { result ≡ has_bit 0 rights }
{
    has(rights, GLOBAL)
}

/// Whether this bit of the byte is 1.
pub fn has(rights: u8, bit: u64) -> bool
    requires { bit < 8 }
    ensures { result ≡ has_bit bit rights }
{
    rights >> bit & 1 == 1
}

/// 1 for true, 0 for false.
fn bit(is: bool) -> u8
    ensures value { result ≡ bit is }
    ensures bound { result ≤ 1 }
{
    u8::from(is)
}
