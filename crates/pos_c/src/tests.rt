use crate::{Answer, Request, pos_explain_proof, pos_verify_proof, pos_verify_proofs, pos_version};

// A proof for the id of 32 zero bytes at k = 12 and for the challenge 8e b0 and thirty zeros, and its quality, of an
// independent program.
const PROOF: [u8; 96] = [
    0xc8, 0x89, 0xab, 0xa8, 0xb2, 0x38, 0x0f, 0x9b, 0xd6, 0xd0, 0x66, 0x51, 0xbb, 0xf4, 0x11, 0x47,
    0x33, 0xe6, 0xa2, 0x6a, 0xef, 0x37, 0x14, 0x24, 0xe2, 0x69, 0x75, 0x8f, 0xfb, 0xbb, 0x91, 0xe1,
    0x40, 0xc6, 0xac, 0xe2, 0x0d, 0xc8, 0xdc, 0x4b, 0xa3, 0xbf, 0x28, 0x96, 0x87, 0x9b, 0xd5, 0x0d,
    0xea, 0xb9, 0x7e, 0xc3, 0x9e, 0x9e, 0xe3, 0xbe, 0x7b, 0x58, 0x88, 0xa2, 0xaf, 0x03, 0x7c, 0xd7,
    0x9a, 0x84, 0x89, 0x0b, 0xab, 0x66, 0x91, 0x99, 0xc2, 0x90, 0x4e, 0xdb, 0x16, 0xcf, 0x97, 0x6a,
    0x08, 0x4b, 0x39, 0x8e, 0x91, 0x22, 0x97, 0xce, 0x15, 0xfb, 0x82, 0xf8, 0x9a, 0x24, 0xfb, 0xc0,
];

const QUALITY: [u8; 32] = [
    0xf5, 0xc4, 0x80, 0xfc, 0x25, 0xdc, 0x13, 0x52, 0x08, 0xb4, 0x97, 0x20, 0xeb, 0x0d, 0xf0, 0xb5,
    0x90, 0x70, 0x85, 0x44, 0xca, 0xec, 0xb9, 0x12, 0x5c, 0x8f, 0xc7, 0x11, 0x7d, 0xa3, 0x6b, 0x71,
];

const ID: [u8; 32] = [0; 32];

// A challenge with these first two bytes and zeros behind them.
fn challenge(first: u8, second: u8) -> [u8; 32] {
    let mut challenge = [0; 32];
    challenge[0] = first;
    challenge[1] = second;
    challenge
}

// An answer that nothing was told in yet.
fn blank() -> Answer {
    Answer {
        want: 7,
        found: 7,
        verdict: 7,
        level: 7,
        pair: 7,
        quality: [7; 32],
    }
}

#[test]
fn each_answer_has_its_number_and_its_reason(rt: HostRuntime) {
    assert_eq!(rt; pos_version(), 1);
    let right = challenge(0x8e, 0xb0);
    let other = challenge(0x8e, 0xc0);
    let mut quality = [7u8; 32];
    assert_eq!(rt;
        pos_verify_proof(&ID, 12, &right, &PROOF[..95], &mut quality),
        1
    );
    assert_eq!(rt;
        pos_verify_proof(&ID, 12, &right, &[0; 96], &mut quality),
        2
    );
    assert_eq!(rt; pos_verify_proof(&ID, 12, &other, &PROOF, &mut quality), 3);
    assert_eq!(rt;
        pos_verify_proof(&ID[..31], 12, &right, &PROOF, &mut quality),
        4
    );
    assert_eq!(rt; quality, [7u8; 32]);
    assert_eq!(rt; pos_verify_proof(&ID, 12, &right, &PROOF, &mut quality), 0);
    assert_eq!(rt; quality, QUALITY);
    let mut answer = blank();
    assert_eq!(rt; pos_explain_proof(&ID, 12, &other, &PROOF, &mut answer), 3);
    let wanted = Answer {
        want: 0x8ec,
        found: 0x8eb,
        verdict: 3,
        level: 0,
        pair: 0,
        quality: [7; 32],
    };
    assert_eq!(rt; answer, wanted);
}

#[test]
fn each_request_has_its_own_answer(rt: HostRuntime) {
    let right = Request {
        id: ID,
        challenge: challenge(0x8e, 0xb0),
        start: 0,
        length: 96,
        size: 12,
    };
    let cut = Request {
        start: 1,
        length: 95,
        ..right
    };
    let outside = Request { start: 1, ..right };
    let mut answers = [blank(), blank(), blank()];
    let done = pos_verify_proofs(&[outside, right, cut], &PROOF, &mut answers);
    assert_eq!(rt; done, 0);
    assert_eq!(rt; answers[0].verdict, 4);
    assert_eq!(rt; answers[1].verdict, 0);
    assert_eq!(rt; answers[1].quality, QUALITY);
    assert_eq!(rt; answers[2].verdict, 1);
    assert_eq!(rt; answers[2].found, 95);
    let fewer = pos_verify_proofs(&[right], &PROOF, &mut answers);
    assert_eq!(rt; fewer, 4);
    assert_eq!(rt; answers[0].verdict, 4);
}
