//! The plot of a number, made and checked.

use pos_check::{Summary, SurveyFault, survey};
use pos_edge::MemoryDisk;
use pos_plot::{Counts, Name, PlotFault};
use pos_tuple::Size;
use std::test::Fail;

// By an independent program: the plot of number 1 at size 12 has two proofs for its first 200 challenges, and this is the digest
// of their qualities.
const OF_ONE: [u8; 32] = [
    0x03, 0xce, 0x29, 0x80, 0xa4, 0x15, 0xe9, 0xb5, 0x6d, 0xe7, 0x2f, 0x53, 0x27, 0x43, 0xe6, 0x46,
    0x4f, 0xef, 0x6b, 0xe0, 0xa3, 0xec, 0x65, 0x44, 0xde, 0x18, 0x72, 0x48, 0x7b, 0x9c, 0xfe, 0xdb,
];

#[test]
fn a_survey_makes_and_checks_the_plot_of_a_number(rt: HostRuntime) -> Result<(), Fail> {
    let alloc = rt.alloc();
    let mut disk = MemoryDisk::new(alloc, Vec::new(alloc));
    assert_eq!(rt;
        survey(alloc, Size::of(12), 1, 200, "p", "s", &mut disk),
        Ok((
            Counts {
                tables: [1389, 869, 489, 268, 144, 81, 81],
                length: 5656
            },
            Summary {
                challenges: 200,
                proofs: 2,
                digest: OF_ONE
            }
        ))
    );
    assert_eq!(rt;
        survey(alloc, Size::of(12), 1, 200, "p", "s", &mut disk),
        Err(SurveyFault::Plot(PlotFault::Exists(Name::Plot)))
    );
    Ok(())
}
