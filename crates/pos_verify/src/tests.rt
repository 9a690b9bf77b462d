use crate::{Verdict, at_most_one_verdict_is_right, verify};
use pos_tuple::{Challenge, Id, Size};
use sha2::{Digest, Sha256};

// A proof for the id of 32 zero bytes at k = 12 and for the challenge 8e b0 and thirty zeros, and its quality, of an
// independent program.
const PROOF: [u8; 96] = [
    0xc8, 0x89, 0xab, 0xa8, 0xb2, 0x38, 0x0f, 0x9b, 0xd6, 0xd0, 0x66, 0x51, 0xbb, 0xf4, 0x11, 0x47,
    0x33, 0xe6, 0xa2, 0x6a, 0xef, 0x37, 0x14, 0x24, 0xe2, 0x69, 0x75, 0x8f, 0xfb, 0xbb, 0x91, 0xe1,
    0x40, 0xc6, 0xac, 0xe2, 0x0d, 0xc8, 0xdc, 0x4b, 0xa3, 0xbf, 0x28, 0x96, 0x87, 0x9b, 0xd5, 0x0d,
    0xea, 0xb9, 0x7e, 0xc3, 0x9e, 0x9e, 0xe3, 0xbe, 0x7b, 0x58, 0x88, 0xa2, 0xaf, 0x03, 0x7c, 0xd7,
    0x9a, 0x84, 0x89, 0x0b, 0xab, 0x66, 0x91, 0x99, 0xc2, 0x90, 0x4e, 0xdb, 0x16, 0xcf, 0x97, 0x6a,
    0x08, 0x4b, 0x39, 0x8e, 0x91, 0x22, 0x97, 0xce, 0x15, 0xfb, 0x82, 0xf8, 0x9a, 0x24, 0xfb, 0xc0,
];

const QUALITY: [u8; 32] = [
    0xf5, 0xc4, 0x80, 0xfc, 0x25, 0xdc, 0x13, 0x52, 0x08, 0xb4, 0x97, 0x20, 0xeb, 0x0d, 0xf0, 0xb5,
    0x90, 0x70, 0x85, 0x44, 0xca, 0xec, 0xb9, 0x12, 0x5c, 0x8f, 0xc7, 0x11, 0x7d, 0xa3, 0x6b, 0x71,
];

// A challenge that the proof answers, with this last byte.
fn challenge(last: u8) -> Challenge {
    let mut challenge = Challenge([0; 32]);
    challenge.0[0] = 0x8e;
    challenge.0[1] = 0xb0;
    challenge.0[31] = last;
    challenge
}

#[test]
fn a_known_proof_is_accepted_with_its_quality(rt: HostRuntime) {
    let id = Id([0; 32]);
    let verdict = verify(&id, Size::of(12), &challenge(0), &PROOF);
    assert_eq!(rt; verdict, Verdict::Accepted(QUALITY));
    assert!(rt; verdict.is_accepted());
    at_most_one_verdict_is_right();
}

#[test]
fn the_last_byte_of_the_challenge_chooses_the_pair(rt: HostRuntime) {
    let id = Id([0; 32]);
    // in plot order the proof has 2430 and 3755 in the places 62 and 63, and 881 and 1060 in the places 0 and 1
    let rows = [(0xff, [0x97, 0xee, 0xab]), (0x20, [0x37, 0x14, 0x24])];
    for (last, pair) in rows {
        let challenge = challenge(last);
        let mut hasher = Sha256::new();
        hasher.update(&challenge.0[..]);
        hasher.update(&pair[..]);
        let wanted = Verdict::Accepted(hasher.finalize());
        assert_eq!(rt; verify(&id, Size::of(12), &challenge, &PROOF), wanted);
    }
}

#[test]
fn a_changed_proof_is_refused_by_its_first_failing_pair(rt: HostRuntime) {
    let id = Id([0; 32]);
    let size = Size::of(12);
    // the first two values exchanged
    let mut exchanged = PROOF;
    exchanged[0] = 0x9a;
    exchanged[1] = 0xbc;
    exchanged[2] = 0x88;
    let verdict = verify(&id, size, &challenge(0), &exchanged);
    assert_eq!(rt; verdict, Verdict::NoMatch { level: 1, pair: 0 });
    // the last bit turned
    let mut turned = PROOF;
    turned[95] = 0xc1;
    let verdict = verify(&id, size, &challenge(0), &turned);
    assert_eq!(rt; verdict, Verdict::NoMatch { level: 1, pair: 31 });
    // no bytes
    let verdict = verify(&id, size, &challenge(0), &[]);
    assert_eq!(rt; verdict, Verdict::WrongLength { want: 96, found: 0 });
    // zeros
    let verdict = verify(&id, size, &challenge(0), &[0; 96]);
    assert_eq!(rt; verdict, Verdict::NoMatch { level: 1, pair: 0 });
}
