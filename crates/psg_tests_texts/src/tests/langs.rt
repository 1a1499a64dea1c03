//! The texts, by their sizes and their Adler-32 sums.
use psg_langs::{CONSTS, LEVELS, MINI, SELF, TINY};

/// The Adler-32 sum of a text.
fn sum_of(text: &str) -> u64 {
    let mut low = 1u64;
    let mut high = 0u64;
    for byte in text.as_bytes() {
        low = (low + u64::from(*byte)) % 65_521;
        high = (high + low) % 65_521;
    }
    high * 65_536 + low
}

#[test]
fn texts_as_published(rt: HostRuntime) {
    let texts = [
        (CONSTS, 14, 286, 2_069_321_836),
        (LEVELS, 34, 862, 3_323_924_808),
        (MINI, 88, 2524, 3_259_573_640),
        (SELF, 103, 2627, 3_332_791_350),
        (TINY, 20, 454, 553_095_259),
    ];
    for (text, lines, bytes, sum) in texts {
        assert_eq!(rt; text.lines().count(), lines);
        assert_eq!(rt; text.len(), bytes);
        assert_eq!(rt; sum_of(text), sum);
    }
}
