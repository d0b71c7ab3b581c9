// Bits, numbers and codes as bytes.
use av1_bits::{BCodeWriter, BitWriter, LEWriter, ULEB128Writer};
use std::test::Fail;

// The bits, filled with zero bits to whole bytes.
fn filled(mut writer: BitWriter) -> Result<Vec<u8>, Fail> {
    writer.byte_align()?;
    Ok(writer.bytes())
}

fn coded<W: ULEB128Writer>(writer: &mut W, numbers: &[u32]) -> Result<(), Fail> {
    for number in numbers {
        writer.write_uleb128(u64::from(*number))?;
    }
    Ok(())
}

// A plain reader of LEB128: the first number, and how many bytes it takes.
fn read_leb128(bytes: &[u8]) -> (u64, usize) {
    let mut number = 0u64;
    for (i, byte) in bytes.iter().take(8).enumerate() {
        number |= u64::from(*byte & 0x7f) << (7 * i as u32);
        if *byte < 0x80 {
            return (number, i + 1);
        }
    }
    (number, 8)
}

#[test]
fn leb128_has_its_worked_values(rt: HostRuntime) -> Result<(), Fail> {
    let mut writer = BitWriter::new(rt.alloc());
    coded(&mut writer, &[0, 127, 128, 300])?;
    assert_eq!(rt;
        filled(writer)?.as_slice(),
        [0x00, 0x7f, 0x80, 0x01, 0xac, 0x02].as_slice()
    );
    Ok(())
}

#[test]
fn a_plain_reader_reads_leb128_back(rt: HostRuntime) -> Result<(), Fail> {
    let mut power = 1u64;
    for _ in 0..33 {
        for number in [power.saturating_sub(1), power, power.saturating_add(1)] {
            if number < 1 << 32 {
                let mut writer = BitWriter::new(rt.alloc());
                writer.write_uleb128(number)?;
                let bytes = filled(writer)?;
                assert_eq!(rt; read_leb128(&bytes), (number, bytes.len()));
            }
        }
        power = power.saturating_mul(2);
    }
    Ok(())
}

#[test]
fn numbers_go_out_highest_bit_first(rt: HostRuntime) -> Result<(), Fail> {
    let mut writer = BitWriter::new(rt.alloc());
    writer.write_bit(true)?;
    writer.write::<3>(1)?;
    writer.write_signed::<7>(-2)?;
    writer.write_signed_var(5, 3)?;
    // 1 001 1111110 00011
    assert_eq!(rt; filled(writer)?.as_slice(), [0x9f, 0xc3].as_slice());
    Ok(())
}

#[test]
fn bytes_go_out_behind_a_bit(rt: HostRuntime) -> Result<(), Fail> {
    let mut writer = BitWriter::new(rt.alloc());
    writer.write_var(64, 0x0123_4567_89ab_cdef)?;
    writer.write_bit(true)?;
    writer.write_bytes(&[0x80, 0x01])?;
    // the 64 bits, 1 10000000 00000001 and seven zero bits
    let wanted = [
        0x01, 0x23, 0x45, 0x67, 0x89, 0xab, 0xcd, 0xef, 0xc0, 0x00, 0x80,
    ];
    assert_eq!(rt; filled(writer)?.as_slice(), wanted.as_slice());
    Ok(())
}

#[test]
fn the_lowest_byte_goes_out_first(rt: HostRuntime) -> Result<(), Fail> {
    let mut writer = BitWriter::new(rt.alloc());
    writer.write_le(2, 258)?;
    writer.write_le(1, 7)?;
    assert_eq!(rt; filled(writer)?.as_slice(), [0x02, 0x01, 0x07].as_slice());
    Ok(())
}

// The words are worked out by hand from ns(n) and decode_subexp() of the AV1 specification.
#[test]
fn codes_have_their_worked_values(rt: HostRuntime) -> Result<(), Fail> {
    let mut writer = BitWriter::new(rt.alloc());
    // 110, 10 and nothing
    for (n, v) in [(5, 3), (5, 2), (1, 0)] {
        if v < n && n <= 20 {
            writer.write_quniform(n, v)?;
        }
    }
    // 11001, 1111111 and 01
    for (n, v) in [(20, 5), (20, 19), (9, 1)] {
        if v < n && n <= 20 {
            writer.write_subexpfin(n, 1, v)?;
        }
    }
    writer.write_refsubexpfin(9, 1, 2, 3)?; // 100
    writer.write_s_refsubexpfin(5, 1, 1, 2)?; // 01
    assert_eq!(rt; filled(writer)?.as_slice(), [0xd6, 0x7f, 0xb1].as_slice());
    Ok(())
}

#[test]
fn distances_go_above_and_below_in_turn(rt: HostRuntime) {
    let mut writer = BitWriter::new(rt.alloc());
    for (v, distance) in [(3, 0), (4, 2), (2, 1), (6, 6), (0, 5), (9, 9)] {
        assert_eq!(rt; writer.recenter_nonneg(3, v), distance);
    }
    assert_eq!(rt; writer.recenter_finite_nonneg(10, 8, 9), 1);
    assert_eq!(rt; writer.recenter_finite_nonneg(10, 8, 0), 9);
}
