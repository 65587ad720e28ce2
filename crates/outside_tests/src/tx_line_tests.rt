//! The line on a frame that left a node, by itself.
use cy_bits::ShortList;
use report_lines::Tx;
use std::test::Fail;
use text_lines::tx_text;

#[test]
fn a_heartbeat_that_left(rt: HostRuntime) -> Result<(), Fail> {
    let mut bytes = ShortList::new();
    for byte in [1, 0, 0, 0, 0, 0, 0, 0xE1] {
        assert!(rt; bytes.len() < 64);
        bytes.push(byte);
    }
    let tx = Tx {
        moment: 1_000_250,
        bus: 1,
        ident: 0x107D_550A,
        bytes,
    };
    let text = tx_text(rt.alloc(), &tx, "can1")?;
    assert_eq!(rt;
        text.as_str(),
        "tx 1.000250 can1 107D550A 01000000000000E1\n"
    );
    Ok(())
}
