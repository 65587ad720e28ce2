//! The CRC of a transfer of several frames.
use transfer_crc::Crc;

/// The published check value and two short texts.
#[test]
fn known_values(rt: HostRuntime) {
    let rows: [(&[u8], u16); 4] = [
        (b"123456789", 0x29B1),
        (b"", 0xFFFF),
        (b"A", 0xB915),
        (b"123456789\x29\xB1", 0),
    ];
    for (bytes, want) in rows {
        let mut crc = Crc::new();
        crc.add(bytes);
        assert_eq!(rt; crc.value(), want);
    }
}
