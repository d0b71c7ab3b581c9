// Rows of a header: each is written where it is there, and tells its value. Once memory ran out nothing more is written.
ghost use Rattle.std.specs.Prelude.{◌≡◌, ◌+◌, ◌-◌, ◌*◌, ◌^◌, ◌<◌, ◌≤◌, true, if◌then◌else◌, pos, [], ◌∷◌};
ghost use Rattle.av1_header.specs.Rows.{InBits, WroteFlag, WroteNumber, WroteSigned, Grew, word_if, f, ns, only, leb, near};
ghost use Rattle.av1_model.specs.Bits.{bits_of, signed_bits_of, bits_of_bytes};
ghost use Rattle.av1_model.specs.Codes.{quniform, signed_refsubexp, leb128};

use av1_bits::{BCodeWriter, BitWriter, ULEB128Writer};

// A bit that is there on a condition, and else stands for another value.
pub(crate) fn flag_or(
    bits: &mut BitWriter,
    refused: &mut bool,
    there: bool,
    other: bool,
    value: bool,
) -> bool
    ensures { WroteFlag there other value result refused.old refused.new bits.old bits.new }
{
    if there && !*refused {
        *refused = bits.write_bit(value).is_err();
    }
    if there { value } else { other }
}

// The bits of a number, where it is there.
fn put_bits(bits: &mut BitWriter, refused: &mut bool, there: bool, n: u32, value: u32)
    requires few { n ≤ 64 }
    requires fits { there ≡ true → value < 2 ^ n }
    ensures { Grew (word_if there (bits_of n value) ∷ []) refused.old refused.new bits.old bits.new }
{
    if there && !*refused {
        *refused = bits.write_var(n, u64::from(value)).is_err();
    }
}

// The bits of a number with a sign, where it is there.
fn put_signed(bits: &mut BitWriter, refused: &mut bool, there: bool, n: u32, value: i16)
    requires some { 1 ≤ n }
    requires few { n ≤ 64 }
    ensures { Grew (word_if there (signed_bits_of n value) ∷ []) refused.old refused.new bits.old bits.new }
{
    if there && !*refused {
        *refused = bits.write_signed_var(n, i64::from(value)).is_err();
    }
}

// The word of one of `n` values.
fn put_quniform(bits: &mut BitWriter, refused: &mut bool, n: u16, value: u16)
    requires value { value < n }
    requires few { n ≤ 2 ^ 13 }
    ensures { Grew (quniform n value ∷ []) refused.old refused.new bits.old bits.new }
{
    if !*refused {
        *refused = bits.write_quniform(n, value).is_err();
    }
}

// A number as LEB128.
fn put_leb128(bits: &mut BitWriter, refused: &mut bool, value: u32)
    ensures { Grew (bits_of_bytes (leb128 value) ∷ []) refused.old refused.new bits.old bits.new }
{
    if !*refused {
        *refused = bits.write_uleb128(u64::from(value)).is_err();
    }
}

// 0 by its distance from 0, where it is there, among the numbers above `-n` and below `n`.
fn put_zero(bits: &mut BitWriter, refused: &mut bool, there: bool, n: u16)
    requires some { 1 ≤ n }
    requires few { n ≤ 4096 }
    ensures { Grew (word_if there (signed_refsubexp n 3 (pos 0) (pos 0)) ∷ []) refused.old refused.new bits.old bits.new }
{
    if there && !*refused {
        *refused = bits.write_s_refsubexpfin(n, 3, 0, 0).is_err();
    }
}

// A number of `n` bits that is there on a condition, and else stands for another value.
pub(crate) fn number_or(
    bits: &mut BitWriter,
    refused: &mut bool,
    there: bool,
    other: u32,
    n: u32,
    value: u32,
) -> u32
    requires few { n ≤ 64 }
    requires fits { there ≡ true → value < 2 ^ n }
    ensures { WroteNumber there other (f n) value result refused.old refused.new bits.old bits.new }
{
    put_bits(bits, refused, there, n, value);
    if there { value } else { other }
}

// A number that is always the same, where it is there.
pub(crate) fn fixed(bits: &mut BitWriter, refused: &mut bool, there: bool, n: u32, value: u32)
    requires few { n ≤ 64 }
    requires fits { value < 2 ^ n }
    ensures { WroteNumber there 0 (only n value) 0 0 refused.old refused.new bits.old bits.new }
{
    put_bits(bits, refused, there, n, value);
}

// One of `n` values in the quasi-uniform code.
pub(crate) fn quniform(bits: &mut BitWriter, refused: &mut bool, n: u16, value: u16) -> u16
    requires value { value < n }
    requires few { n ≤ 2 ^ 13 }
    ensures { WroteNumber true 0 (ns n) value result refused.old refused.new bits.old bits.new }
{
    put_quniform(bits, refused, n, value);
    value
}

// A number as LEB128.
pub(crate) fn leb128(bits: &mut BitWriter, refused: &mut bool, value: u32) -> u32
    ensures { WroteNumber true 0 leb value result refused.old refused.new bits.old bits.new }
{
    put_leb128(bits, refused, value);
    value
}

// 0 by its distance from 0, where it is there: the middle one of `2 * n - 1` numbers.
pub(crate) fn zero(bits: &mut BitWriter, refused: &mut bool, there: bool, n: u16)
    requires some { 1 ≤ n }
    requires few { n ≤ 4096 }
    ensures { WroteNumber there 0 (near (2 * n - 1) 3 (n - 1)) (n - 1) (if there then n - 1 else 0) refused.old refused.new bits.old bits.new }
{
    put_zero(bits, refused, there, n);
}

// A number with a sign of `n` bits that is there on a condition.
pub(crate) fn signed_if(bits: &mut BitWriter, refused: &mut bool, there: bool, n: u32, value: i16)
    requires some { 1 ≤ n }
    requires few { n ≤ 64 }
    requires fits { there ≡ true → InBits n value }
    ensures { WroteSigned there n value (if there then value else pos 0) refused.old refused.new bits.old bits.new }
{
    put_signed(bits, refused, there, n, value);
}
