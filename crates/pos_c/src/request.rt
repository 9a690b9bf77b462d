// One of many proofs that a call judges.
ghost use Rattle.std.specs.Prelude.{◌≡◌};
ghost use Rattle.pos_c.specs.Requests.{TellsRequest};

use crate::answer::{Answer, judged, told, told_none};

/// A proof to judge. It has no pointer: whatever its bytes are, it is answered.
#[repr(C)]
#[derive(Clone, Copy, Debug, PartialEq, Eq)]
pub struct Request {
    /// The plot's id.
    pub id: [u8; 32],
    /// The challenge that the proof is to answer.
    pub challenge: [u8; 32],
    /// Where the proof begins among the bytes of all proofs.
    pub start: u64,
    /// How many bytes it has.
    pub length: u64,
    /// The plot's size k.
    pub size: u32,
}

// The answer to a request, over the one that stood there.
pub fn answered(request: &Request, proofs: &[u8], old: &Answer) -> Answer
    ensures { TellsRequest request.now proofs.now old.now result }
{
    let count = proofs.len() as u64;
    if request.start > count || request.length > count - request.start {
        return told_none(old);
    }
    let start = request.start as usize;
    let proof = &proofs[start..start + request.length as usize];
    match judged(&request.id, request.size, &request.challenge, proof) {
        Some(verdict) => told(&verdict, old),
        None => told_none(old),
    }
}
