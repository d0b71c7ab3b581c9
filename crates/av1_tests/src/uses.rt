use av1_ec::WriterEncoder;
use av1_uses::{cost_of, header_bits, one_block, two_symbols};
use std::test::Fail;

#[test]
fn callers_give_what_they_say(rt: HostRuntime) -> Result<(), Fail> {
    let alloc = rt.alloc();
    assert_eq!(rt; two_symbols(alloc)?.as_slice(), [0xa0].as_slice());
    assert_eq!(rt;
        header_bits(alloc)?.as_slice(),
        [0xb5, 0x80, 0x40].as_slice()
    );
    let mut w = WriterEncoder::new(alloc);
    assert_eq!(rt; cost_of(&mut w, 1, &[16384, 0])?, 8);
    let Ok((bytes, report)) = one_block(alloc) else {
        return Err("not written".into());
    };
    assert_eq!(rt; bytes.len(), 17);
    assert_eq!(rt; report.tiles.len(), 1);
    Ok(())
}
