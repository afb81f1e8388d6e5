ghost use Rattle.std.specs.Prelude.{◌≡◌, ◌++◌, ◌⊎◌, IfNone, IfSome, OnOk, OnErr};
ghost use Rattle.std.specs.Int.{w8, w16, w32, w64};
ghost use Rattle.line_text.specs.Numbers.{digits_of, number_of};

use crate::lanes::{are_digits, bytes_of_8, bytes_of_16, side_by_side};
use std::alloc::AllocError;
use std::simd::prelude::*;

/// A small number from 2 hex digits of either case.
#[tactic(auto, unfolding(crate::specs::Numbers::number_of))]
#[inline(always)]
pub fn u8_of(field: &[u8]) -> Option<u8>
    ensures { result ≡ number_of w8 field.now }
{
    let mut bytes = [0u8; 1];
    hex::decode_to_slice(field, &mut bytes).ok()?;
    Some(u8::from_be_bytes(bytes))
}

/// A count from 4 hex digits of either case.
#[tactic(auto, unfolding(crate::specs::Numbers::number_of))]
pub fn u16_of(field: &[u8]) -> Option<u16>
    ensures { result ≡ number_of w16 field.now }
{
    let mut bytes = [0u8; 2];
    hex::decode_to_slice(field, &mut bytes).ok()?;
    Some(u16::from_be_bytes(bytes))
}

/// A word from 8 hex digits of either case.
#[tactic(auto, unfolding(crate::specs::Numbers::number_of))]
#[inline(always)]
pub fn u32_of(field: &[u8]) -> Option<u32>
    ensures { result ≡ number_of w32 field.now }
{
    if field.len() != 8 {
        return None;
    }
    let digits = u8x8::from_slice(field);
    if !are_digits(digits) {
        return None;
    }
    Some(u32::from_be_bytes(bytes_of_8(digits).to_array()))
}

/// Two words, each from 8 hex digits of either case.
#[tactic(auto, unfolding(crate::specs::Numbers::number_of))]
pub fn two_words_of(first: &[u8], second: &[u8]) -> Option<(u32, u32)>
    ensures some { IfSome result (λ words. (number_of w32 first.now ≡ Some words.0) × (number_of w32 second.now ≡ Some words.1)) }
    ensures none { IfNone result ((number_of w32 first.now ≡ None) ⊎ (number_of w32 second.now ≡ None)) }
{
    if first.len() != 8 || second.len() != 8 {
        return None;
    }
    let digits = side_by_side(u8x8::from_slice(first), u8x8::from_slice(second));
    if !are_digits(digits) {
        return None;
    }
    let bytes = bytes_of_16(digits);
    Some((
        u32::from_be_bytes(bytes.extract::<0, 4>().to_array()),
        u32::from_be_bytes(bytes.extract::<4, 4>().to_array()),
    ))
}

/// An address, a register's value or a position from 16 hex digits of either case.
#[tactic(auto, unfolding(crate::specs::Numbers::number_of))]
#[inline(always)]
pub fn u64_of(field: &[u8]) -> Option<u64>
    ensures { result ≡ number_of w64 field.now }
{
    if field.len() != 16 {
        return None;
    }
    let digits = u8x16::from_slice(field);
    if !are_digits(digits) {
        return None;
    }
    Some(u64::from_be_bytes(bytes_of_16(digits).to_array()))
}

/// Appends a small number, 2 digits.
#[tactic(auto, unfolding(crate::specs::Numbers::digits_of))]
pub fn push_u8(out: &mut Vec<u8>, n: u8) -> Result<(), AllocError>
    ensures ok { OnOk result (out.new.items ≡ out.old.items ++ digits_of w8 n) }
    ensures err { OnErr result (out.new.items ≡ out.old.items) }
{
    let mut digits = [0u8; 2];
    let _ = hex::encode_to_slice(n.to_be_bytes(), &mut digits);
    out.extend_from_slice(&digits)
}

/// Appends a count, 4 digits.
#[tactic(auto, unfolding(crate::specs::Numbers::digits_of))]
pub fn push_u16(out: &mut Vec<u8>, n: u16) -> Result<(), AllocError>
    ensures ok { OnOk result (out.new.items ≡ out.old.items ++ digits_of w16 n) }
    ensures err { OnErr result (out.new.items ≡ out.old.items) }
{
    let mut digits = [0u8; 4];
    let _ = hex::encode_to_slice(n.to_be_bytes(), &mut digits);
    out.extend_from_slice(&digits)
}

/// Appends a word, 8 digits.
#[tactic(auto, unfolding(crate::specs::Numbers::digits_of))]
pub fn push_u32(out: &mut Vec<u8>, n: u32) -> Result<(), AllocError>
    ensures ok { OnOk result (out.new.items ≡ out.old.items ++ digits_of w32 n) }
    ensures err { OnErr result (out.new.items ≡ out.old.items) }
{
    let mut digits = [0u8; 8];
    let _ = hex::encode_to_slice(n.to_be_bytes(), &mut digits);
    out.extend_from_slice(&digits)
}

/// Appends an address, a register's value or a position, 16 digits.
#[tactic(auto, unfolding(crate::specs::Numbers::digits_of))]
pub fn push_u64(out: &mut Vec<u8>, n: u64) -> Result<(), AllocError>
    ensures ok { OnOk result (out.new.items ≡ out.old.items ++ digits_of w64 n) }
    ensures err { OnErr result (out.new.items ≡ out.old.items) }
{
    let mut digits = [0u8; 16];
    let _ = hex::encode_to_slice(n.to_be_bytes(), &mut digits);
    out.extend_from_slice(&digits)
}
