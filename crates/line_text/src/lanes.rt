//! Hex digits, one in each lane of a vector.

ghost use Rattle.std.specs.Prelude.{◌≡◌, ◌↔◌, ◌≤◌, ◌++◌, IsTrue, Ok, Some, map};
ghost use Rattle.std.specs.List.{AllPass};
ghost use Rattle.hex.specs.Hex.{decode_of, hex_digit_value, is_hex_digit};

use std::simd::prelude::*;

/// Whether each character is a hex digit, of either case.
#[inline(always)]
pub(crate) fn are_digits<const N: usize>(text: Simd<u8, N>) -> bool
    requires { N ≤ 64 }
    ensures { IsTrue result ↔ AllPass is_hex_digit text.entry }
{
    let letters = text | Simd::splat(b'a' - b'A');
    let no_decimal = (text - Simd::splat(b'0')).simd_ge(Simd::splat(10));
    let no_letter = (letters - Simd::splat(b'a')).simd_ge(Simd::splat(6));
    (no_decimal & no_letter).to_bitmask() == 0
}

/// The numbers that hex digits say.
#[inline(always)]
fn values_of<const N: usize>(digits: Simd<u8, N>) -> Simd<u8, N>
    requires { AllPass is_hex_digit digits }
    ensures { map hex_digit_value digits.entry ≡ map Some result }
{
    let letters = digits | Simd::splat(b'a' - b'A');
    (digits - Simd::splat(b'0')).simd_min(letters - Simd::splat(b'a' - 10))
}

/// The bytes that 8 hex digits say.
#[inline(always)]
pub(crate) fn bytes_of_8(digits: u8x8) -> u8x4
    requires { AllPass is_hex_digit digits }
    ensures { decode_of digits ≡ Ok result }
{
    let values = values_of(digits);
    let high = values.swizzle::<4>([0, 2, 4, 6]);
    let low = values.swizzle::<4>([1, 3, 5, 7]);
    high * u8x4::splat(16) + low
}

/// The bytes that 16 hex digits say.
#[inline(always)]
pub(crate) fn bytes_of_16(digits: u8x16) -> u8x8
    requires { AllPass is_hex_digit digits }
    ensures { decode_of digits ≡ Ok result }
{
    let values = values_of(digits);
    let high = values.swizzle::<8>([0, 2, 4, 6, 8, 10, 12, 14]);
    let low = values.swizzle::<8>([1, 3, 5, 7, 9, 11, 13, 15]);
    high * u8x8::splat(16) + low
}

/// The characters of both, in order.
#[inline(always)]
pub(crate) fn side_by_side(first: u8x8, second: u8x8) -> u8x16
    ensures { result ≡ first ++ second }
{
    first.shuffle::<16>(
        second,
        [0, 1, 2, 3, 4, 5, 6, 7, 8, 9, 10, 11, 12, 13, 14, 15],
    )
}
