use crate::{
    below, one_turning, pair_quality, plot_order_is_exact, proof_bytes, proof_values, quality,
    to_plot_order, to_proof_order, turnings_have_one_plot_order, turnings_have_one_quality,
};
use pos_tuple::{Challenge, Id, Size};
use sha2::{Digest, Sha256};

#[test]
fn the_last_difference_decides(rt: HostRuntime) {
    assert!(rt; below(&[1, 2], &[0, 3]));
    assert!(rt; !below(&[5, 2], &[1, 2]));
    assert!(rt; !below(&[1, 2], &[1, 2]));
}

#[test]
fn falling_values_are_turned_round(rt: HostRuntime) {
    let mut values = [0u64; 64];
    for i in 0..64 {
        values[i] = 63 - i as u64;
    }
    to_plot_order(&mut values);
    for i in 0..64 {
        assert_eq!(rt; values[i], i as u64);
    }
}

#[test]
fn the_values_of_bytes_are_their_fields(rt: HostRuntime) {
    let size = Size::of(12);
    let mut bytes = [0u8; 96];
    // the first two values are abc and def, the last one is 123
    bytes[0] = 0xab;
    bytes[1] = 0xcd;
    bytes[2] = 0xef;
    bytes[94] = 0x01;
    bytes[95] = 0x23;
    let values = proof_values(size, &bytes);
    assert_eq!(rt; values[0], 0xabc);
    assert_eq!(rt; values[1], 0xdef);
    assert_eq!(rt; values[63], 0x123);
}

#[test]
fn the_last_byte_of_the_challenge_chooses_the_pair(rt: HostRuntime) {
    let size = Size::of(12);
    // the values 2 and 1 and then zeros: in plot order 1 and 2 stand last
    let mut bytes = [0u8; 96];
    bytes[1] = 0x20;
    bytes[2] = 0x01;
    let values = proof_values(size, &bytes);
    // ff chooses the values 62 and 63, 20 the values 0 and 1
    let rows = [(0xff, [0, 0x10, 0x02]), (0x20, [0, 0, 0])];
    for (last, pair) in rows {
        let mut challenge = Challenge([7; 32]);
        challenge.0[31] = last;
        let mut hasher = Sha256::new();
        hasher.update(&challenge.0[..]);
        hasher.update(&pair[..]);
        assert_eq!(rt; quality(&challenge, size, &values), hasher.finalize());
    }
    let challenge = Challenge([7; 32]);
    let mut hasher = Sha256::new();
    hasher.update(&challenge.0[..]);
    hasher.update([0xab, 0xcd, 0xef].as_slice());
    assert_eq!(rt;
        pair_quality(&challenge, size, 0xabc, 0xdef),
        hasher.finalize()
    );
    turnings_have_one_plot_order();
    turnings_have_one_quality();
}

// A proof of size 12 for the id of zero bytes, by an independent program.
const PROOF: [u8; 96] = [
    0xc8, 0x89, 0xab, 0xa8, 0xb2, 0x38, 0x0f, 0x9b, 0xd6, 0xd0, 0x66, 0x51, 0xbb, 0xf4, 0x11, 0x47,
    0x33, 0xe6, 0xa2, 0x6a, 0xef, 0x37, 0x14, 0x24, 0xe2, 0x69, 0x75, 0x8f, 0xfb, 0xbb, 0x91, 0xe1,
    0x40, 0xc6, 0xac, 0xe2, 0x0d, 0xc8, 0xdc, 0x4b, 0xa3, 0xbf, 0x28, 0x96, 0x87, 0x9b, 0xd5, 0x0d,
    0xea, 0xb9, 0x7e, 0xc3, 0x9e, 0x9e, 0xe3, 0xbe, 0x7b, 0x58, 0x88, 0xa2, 0xaf, 0x03, 0x7c, 0xd7,
    0x9a, 0x84, 0x89, 0x0b, 0xab, 0x66, 0x91, 0x99, 0xc2, 0x90, 0x4e, 0xdb, 0x16, 0xcf, 0x97, 0x6a,
    0x08, 0x4b, 0x39, 0x8e, 0x91, 0x22, 0x97, 0xce, 0x15, 0xfb, 0x82, 0xf8, 0x9a, 0x24, 0xfb, 0xc0,
];

#[test]
fn halves_that_were_exchanged_are_turned_back(rt: HostRuntime) {
    let id = Id([0; 32]);
    let size = Size::of(12);
    // the halves of 32 values change places
    let mut bytes = [0u8; 96];
    for i in 0..48 {
        bytes[i] = PROOF[i + 48];
        bytes[i + 48] = PROOF[i];
    }
    let mut values = proof_values(size, &bytes);
    assert!(rt; to_proof_order(&id, size, &mut values));
    let mut out = [7u8; 512];
    let count = proof_bytes(size, &values, &mut out);
    assert_eq!(rt; count, 96);
    assert_eq!(rt; &out[..96], PROOF.as_slice());
    assert_eq!(rt; out[96], 7);
    let mut zeros = proof_values(size, &[0; 96]);
    assert!(rt; !to_proof_order(&id, size, &mut zeros));
    assert_eq!(rt; zeros[63], 0);
    one_turning();
    plot_order_is_exact();
}
