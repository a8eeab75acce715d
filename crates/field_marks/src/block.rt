//! Masks of 64 bytes: bit k tells of byte k.
ghost use Rattle.std.specs.Prelude.{◌≡◌, ◌≢◌, ◌↔◌, ◌+◌, ◌<◌, ◌≤◌, ℕ, true, false, length, slice_index, IsTrue};
ghost use Rattle.std.specs.Int.{bit_at};
ghost use Rattle.memchr.specs.Find.{is_byte2};
ghost use Rattle.copy_text.specs.Marks.{tab, newline};
ghost use Rattle.field_marks.specs.Marks.{AreMarksFrom, is_special};

use std::simd::prelude::*;

#[inline(always)]
fn load(text: &[u8], at: usize) -> u8x64
    requires { at + 64 ≤ length text.now }
    ensures { (k : ℕ) → k < 64 → slice_index result k ≡ slice_index text.now (at + k) }
{
    u8x64::from_slice(&text[at..])
}

#[inline(always)]
fn separators(v: u8x64) -> u64
    ensures { (k : ℕ) → (bit_at result k ≡ 1) ↔ (is_byte2 tab newline (slice_index v k) ≡ true) }
{
    (v.simd_eq(u8x64::splat(b'\t')) | v.simd_eq(u8x64::splat(b'\n'))).to_bitmask()
}

#[inline(always)]
fn specials(v: u8x64) -> u64
    ensures { (k : ℕ) → (bit_at result k ≡ 1) ↔ (is_special (slice_index v k) ≡ true) }
{
    (v.simd_eq(u8x64::splat(b'\\'))
        | v.simd_eq(u8x64::splat(b'\r'))
        | v.simd_ge(u8x64::splat(128))).to_bitmask()
}

/// Which of the 64 bytes from a place on are a tab or a newline.
#[inline(always)]
pub(crate) fn marks_at(text: &[u8], at: usize) -> u64
    requires { at + 64 ≤ length text.now }
    ensures { AreMarksFrom text.now at result }
{
    separators(load(text, at))
}

/// Whether none of the 64 bytes from a place on is a backslash, a carriage return or part of a longer character.
#[inline(always)]
pub(crate) fn are_plain(text: &[u8], at: usize) -> bool
    requires { at + 64 ≤ length text.now }
    ensures { IsTrue result → (k : ℕ) → at ≤ k → k < at + 64 → is_special (slice_index text.now k) ≡ false }
{
    specials(load(text, at)) == 0
}

/// The place of the lowest bit.
#[inline(always)]
pub(crate) fn lowest(bits: u64) -> usize
    requires { bits ≢ 0 }
    ensures bound { result < 64 }
    ensures set { bit_at bits result ≡ 1 }
    ensures below { (k : ℕ) → k < result → bit_at bits k ≡ 0 }
{
    bits.trailing_zeros() as usize
}

/// The bits above a place.
#[inline(always)]
pub(crate) fn above(bits: u64, at: usize) -> u64
    requires { at < 64 }
    ensures { (k : ℕ) → bit_at result k ≡ bit_at bits (at + 1 + k) }
{
    (bits >> at) >> 1
}
