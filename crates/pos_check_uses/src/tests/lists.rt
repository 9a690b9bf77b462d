//! The spans, the proofs and the qualities of two small plot files.
ghost use Rattle.pos_reader.specs.Plots.{IsOpen};

use crate::tests::{FILE, FILE_TWO, disk_of, small_file};
use pos_edge::Disk;
use pos_harvest::{
    ListRefusal, a_plots_proofs_are_listed, a_plots_span_is_shown, a_whole_files_places_are_shown,
    damages_are_of_the_file, damages_have_their_causes, find, list_proofs, list_qualities,
    proof_at, quality_at,
};
use pos_layout::Damage;
use pos_reader::{Plot, ReadRefusal};
use pos_tuple::Challenge;
use std::alloc::Global;
use std::process::Abort;
use std::test::Fail;

// SHA-256 of 32 zeros and of the values 0 and 1 as two strings of 10 bits.
const QUALITY: [u8; 32] = [
    0x62, 0xb5, 0xcf, 0x44, 0xb8, 0x10, 0x62, 0x52, 0x06, 0xd7, 0x3b, 0xa6, 0xc2, 0x92, 0x01, 0x19,
    0x05, 0x5d, 0x53, 0xed, 0x81, 0x38, 0x6c, 0xc8, 0x60, 0x34, 0x54, 0x66, 0xc8, 0xa8, 0x35, 0x00,
];

/// The spans of two challenges in the small file.
fn has_spans<D: Disk>(rt: &impl Abort, plot: &mut Plot, disk: &mut D)
    requires { IsOpen plot.old (D.view disk.old) }
    ensures { IsOpen plot.new (D.view disk.new) }
{
    assert_eq!(rt; find(plot, disk, &Challenge([0; 32])), Ok((0, 1)));
    assert_eq!(rt; find(plot, disk, &Challenge([255; 32])), Ok((1, 1)));
}

/// The one place of table 7 of the small file shows a quality and no proof.
fn has_a_quality<D: Disk>(rt: &impl Abort, plot: &mut Plot, disk: &mut D)
    requires { IsOpen plot.old (D.view disk.old) }
    ensures { IsOpen plot.new (D.view disk.new) }
{
    let zeros = Challenge([0; 32]);
    if plot.count(7) == 1 {
        assert_eq!(rt; quality_at(plot, disk, &zeros, 0), Ok(QUALITY));
        assert_eq!(rt;
            proof_at(plot, disk, &zeros, 0),
            Err(ReadRefusal::Damage(Damage::NotAProof { at: 0 }))
        );
    }
}

/// The qualities that a plot has for a challenge.
fn lists_qualities<D: Disk>(
    rt: &impl Abort,
    alloc: Global,
    plot: &mut Plot,
    disk: &mut D,
    challenge: &Challenge,
    want: [u8; 32],
) -> Result<(), Fail>
    requires { IsOpen plot.old (D.view disk.old) }
    ensures { IsOpen plot.new (D.view disk.new) }
{
    let qualities = list_qualities(alloc, plot, disk, challenge)?;
    assert_eq!(rt; qualities.as_slice(), [want].as_slice());
    Ok(())
}

/// The proofs that a plot has for a challenge.
fn lists_proofs<D: Disk>(
    rt: &impl Abort,
    alloc: Global,
    plot: &mut Plot,
    disk: &mut D,
    challenge: &Challenge,
    want: &[[u64; 64]],
) -> Result<(), Fail>
    requires { IsOpen plot.old (D.view disk.old) }
    ensures { IsOpen plot.new (D.view disk.new) }
{
    let proofs = list_proofs(alloc, plot, disk, challenge)?;
    assert_eq!(rt; proofs.as_slice(), want);
    Ok(())
}

#[test]
fn the_small_file_has_a_quality_and_no_proof(rt: HostRuntime) -> Result<(), Fail> {
    let alloc = rt.alloc();
    let bytes = small_file(alloc)?;
    let mut disk = disk_of(alloc, bytes.as_slice())?;
    let mut plot = Plot::open(alloc, &mut disk, "p")?;
    has_spans(&rt, &mut plot, &mut disk);
    has_a_quality(&rt, &mut plot, &mut disk);
    let zeros = Challenge([0; 32]);
    assert_eq!(rt;
        list_proofs(alloc, &mut plot, &mut disk, &zeros).err(),
        Some(ListRefusal::Damage(Damage::NotAProof { at: 0 }))
    );
    lists_qualities(&rt, alloc, &mut plot, &mut disk, &zeros, QUALITY)
}

// A proof for the id of 32 zero bytes and the challenge 8e b0 and thirty zeros, and its quality, by an independent program.
const VALUES: [u64; 64] = [
    3208, 2475, 2699, 568, 249, 3030, 3334, 1617, 3007, 1041, 1139, 998, 2598, 2799, 881, 1060,
    3622, 2421, 2303, 3003, 2334, 320, 3178, 3298, 220, 2268, 1210, 959, 649, 1671, 2493, 1293,
    3755, 2430, 3129, 3742, 3643, 3707, 1416, 2210, 2800, 892, 3449, 2692, 2192, 2987, 1641, 409,
    3113, 78, 3505, 1743, 2422, 2568, 1203, 2446, 2322, 663, 3297, 1531, 2095, 2202, 591, 3008,
];

const VALUES_QUALITY: [u8; 32] = [
    0xf5, 0xc4, 0x80, 0xfc, 0x25, 0xdc, 0x13, 0x52, 0x08, 0xb4, 0x97, 0x20, 0xeb, 0x0d, 0xf0, 0xb5,
    0x90, 0x70, 0x85, 0x44, 0xca, 0xec, 0xb9, 0x12, 0x5c, 0x8f, 0xc7, 0x11, 0x7d, 0xa3, 0x6b, 0x71,
];

/// The file of one proof, in either layout, lists it and its quality.
fn lists_one_proof(rt: &impl Abort, alloc: Global, file: &[u8]) -> Result<(), Fail> {
    let mut disk = disk_of(alloc, file)?;
    let mut plot = Plot::open(alloc, &mut disk, "p")?;
    let mut challenge = Challenge([0; 32]);
    challenge.0[0] = 0x8e;
    challenge.0[1] = 0xb0;
    let before = disk.calls();
    lists_proofs(rt, alloc, &mut plot, &mut disk, &challenge, &[VALUES])?;
    // the head of the one park for each end of the span, the park for the second, and 64 numbers, each by two reads
    assert_eq!(rt; disk.calls().wrapping_sub(before), 132);
    lists_qualities(rt, alloc, &mut plot, &mut disk, &challenge, VALUES_QUALITY)?;
    challenge.0[1] = 0xaf;
    lists_proofs(rt, alloc, &mut plot, &mut disk, &challenge, &[])
}

#[test]
fn a_file_of_one_proof_lists_it_and_its_quality(rt: HostRuntime) -> Result<(), Fail> {
    lists_one_proof(&rt, rt.alloc(), &FILE)
}

#[test]
fn a_file_of_the_second_layout_lists_the_same(rt: HostRuntime) -> Result<(), Fail> {
    lists_one_proof(&rt, rt.alloc(), &FILE_TWO)
}

#[test]
fn the_laws_are_called(rt: HostRuntime) {
    let _ = rt;
    a_plots_span_is_shown();
    a_whole_files_places_are_shown();
    a_plots_proofs_are_listed();
    damages_have_their_causes();
    damages_are_of_the_file();
}
