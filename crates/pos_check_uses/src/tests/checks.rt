//! Checks of two small plot files.
ghost use Rattle.std.specs.Prelude.{◌≤◌};
ghost use Rattle.pos_reader.specs.Plots.{IsOpen};

use crate::tests::{FILE, FILE_TWO, disk_of, small_file};
use pos_check::{
    Summary, a_plots_summary_is_of_its_proofs, a_whole_files_summary_is_one, check,
    check_challenge, survey_id,
};
use pos_edge::Disk;
use pos_layout::Damage;
use pos_reader::{Plot, ReadRefusal};
use pos_tuple::{Challenge, Id};
use std::process::Abort;
use std::test::Fail;

// SHA-256 of no bytes.
const NOTHING: [u8; 32] = [
    0xe3, 0xb0, 0xc4, 0x42, 0x98, 0xfc, 0x1c, 0x14, 0x9a, 0xfb, 0xf4, 0xc8, 0x99, 0x6f, 0xb9, 0x24,
    0x27, 0xae, 0x41, 0xe4, 0x64, 0x9b, 0x93, 0x4c, 0xa4, 0x95, 0x99, 0x1b, 0x78, 0x52, 0xb8, 0x55,
];

// By an independent program: of that plot, challenge number 1559 is the first for which it has a proof, and number 10053 the
// second. These are the digests of one quality and of both.
const ONE: [u8; 32] = [
    0x59, 0x0a, 0xdc, 0xb8, 0x42, 0x0f, 0x70, 0x8b, 0x4e, 0x14, 0x52, 0x86, 0xbb, 0x2b, 0x63, 0xed,
    0x98, 0xcc, 0x48, 0x28, 0x11, 0x26, 0x19, 0x6c, 0xe6, 0x19, 0x24, 0x6b, 0x99, 0x3a, 0x2c, 0x21,
];

const BOTH: [u8; 32] = [
    0xc1, 0x11, 0xa3, 0x69, 0x3f, 0xa6, 0x80, 0x83, 0xf8, 0x6b, 0x40, 0xd5, 0x2e, 0x2d, 0x21, 0x43,
    0x5e, 0xf1, 0xb7, 0x12, 0xef, 0x60, 0x88, 0xb3, 0x2f, 0xa8, 0x19, 0x9b, 0x32, 0x07, 0x27, 0x26,
];

// SHA-256 of the bytes 1 to 4 and 0 to 31, and of `survey-plot-` and the bytes 1 to 8.
const CHALLENGE: [u8; 32] = [
    0x76, 0xe4, 0xbc, 0xe5, 0xf7, 0x34, 0x88, 0x85, 0x80, 0xfc, 0xfc, 0xec, 0x85, 0xdf, 0x18, 0x6d,
    0x93, 0x79, 0x53, 0xb5, 0x1b, 0x1d, 0x36, 0xb4, 0x4d, 0xff, 0xaf, 0x24, 0x1e, 0x54, 0x43, 0x55,
];

const SURVEYED: [u8; 32] = [
    0x67, 0xb1, 0xc8, 0xa2, 0xcf, 0x66, 0xa1, 0x81, 0xcc, 0xd2, 0x58, 0x59, 0x3f, 0x7c, 0xca, 0x01,
    0x22, 0x06, 0xc1, 0x43, 0x3b, 0x3f, 0x85, 0xf7, 0x2c, 0xd0, 0x66, 0x8d, 0x58, 0xcf, 0x6f, 0x80,
];

#[test]
fn challenges_and_ids_follow_from_their_numbers(rt: HostRuntime) -> Result<(), Fail> {
    let mut id = Id([0; 32]);
    for i in 0..32 {
        id.0[i] = i as u8;
    }
    assert_eq!(rt; check_challenge(&id, 0x01020304), Challenge(CHALLENGE));
    assert_eq!(rt; survey_id(0x0102030405060708), Id(SURVEYED));
    Ok(())
}

/// What a check by n challenges finds.
fn finds<D: Disk>(
    rt: &impl Abort,
    plot: &mut Plot,
    disk: &mut D,
    n: u32,
    proofs: u128,
    digest: [u8; 32],
)
    requires is_open { IsOpen plot.old (D.view disk.old) }
    requires few { n ≤ 1000000 }
    ensures { IsOpen plot.new (D.view disk.new) }
{
    let wanted = Summary {
        challenges: n,
        proofs,
        digest,
    };
    assert_eq!(rt; check(plot, disk, n), Ok(wanted));
}

/// A check by n challenges ends at this place.
fn ends_at<D: Disk>(rt: &impl Abort, plot: &mut Plot, disk: &mut D, n: u32, place: u64)
    requires is_open { IsOpen plot.old (D.view disk.old) }
    requires few { n ≤ 1000000 }
{
    assert_eq!(rt;
        check(plot, disk, n),
        Err(ReadRefusal::Damage(Damage::NotAProof { at: place }))
    );
}

#[test]
fn a_check_counts_the_proofs_and_digests_their_qualities(rt: HostRuntime) -> Result<(), Fail> {
    let alloc = rt.alloc();
    let mut disk = disk_of(alloc, &FILE)?;
    let mut plot = Plot::open(alloc, &mut disk, "p")?;
    finds(&rt, &mut plot, &mut disk, 1559, 0, NOTHING);
    finds(&rt, &mut plot, &mut disk, 1560, 1, ONE);
    finds(&rt, &mut plot, &mut disk, 10_054, 2, BOTH);
    a_plots_summary_is_of_its_proofs();
    a_whole_files_summary_is_one();
    Ok(())
}

#[test]
fn a_check_of_the_second_layout_finds_the_same(rt: HostRuntime) -> Result<(), Fail> {
    let alloc = rt.alloc();
    let mut disk = disk_of(alloc, &FILE_TWO)?;
    let mut plot = Plot::open(alloc, &mut disk, "p")?;
    finds(&rt, &mut plot, &mut disk, 1560, 1, ONE);
    Ok(())
}

#[test]
fn a_place_without_a_proof_ends_a_check(rt: HostRuntime) -> Result<(), Fail> {
    let alloc = rt.alloc();
    let bytes = small_file(alloc)?;
    let mut disk = disk_of(alloc, bytes.as_slice())?;
    let mut plot = Plot::open(alloc, &mut disk, "p")?;
    // by an independent program, challenge number 1815 is the first that begins with ten zero bits
    finds(&rt, &mut plot, &mut disk, 1815, 0, NOTHING);
    ends_at(&rt, &mut plot, &mut disk, 1816, 0);
    Ok(())
}
