use log_gen::generate;
use std::test::Fail;

/// The log of a number: its bytes, their sum modulo 2^16, and how many frames of the first source it has.
#[derive(Drop)]
struct Row {
    number: u32,
    bytes: usize,
    sum: u16,
    frames: usize,
}

const ROWS: [Row; 3] = [
    Row {
        number: 0,
        bytes: 7_312_850,
        sum: 13_645,
        frames: 42_700,
    },
    Row {
        number: 2,
        bytes: 7_242_600,
        sum: 18_099,
        frames: 46_300,
    },
    Row {
        number: 4_294_967_295,
        bytes: 7_272_850,
        sum: 12_568,
        frames: 47_100,
    },
];

#[test]
fn logs_of_numbers(rt: HostRuntime) -> Result<(), Fail> {
    for row in ROWS {
        let made = generate(rt.alloc(), row.number)?;
        let mut sum = 0u16;
        for byte in made.log.as_slice() {
            sum = sum.wrapping_add(*byte as u16);
        }
        assert_eq!(rt;
            (made.log.len(), sum),
            (row.bytes, row.sum),
            "at {}",
            row.number
        );
        let frames = made.origins.get(0).map_or(0, |pairs| pairs.len());
        assert_eq!(rt;
            (made.sent.len(), frames),
            (4, row.frames),
            "at {}",
            row.number
        );
    }
    Ok(())
}
