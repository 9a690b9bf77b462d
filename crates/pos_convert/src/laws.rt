//! What follows from the contract of a conversion: each law is what a function with an empty body ensures.
ghost use Rattle.pos_convert.specs.ConversionLaws.{CanConvertIsConverted, DamageIsSaid, KeepsLists, NoneWhereDamaged, OneConverted, OneStop};

use pos_edge::Disk;

/// At most one file is the converted one, and that of a whole file has the same lists: so all that is said of lists, as which
/// proofs a challenge has, is the same of both.
pub fn a_converted_file_is_one()
    ensures one { OneConverted }
    ensures lists { KeepsLists }
{}

/// A file has at most one first damage, and where it has one nothing is its converted file.
pub fn a_first_damage_is_one()
    ensures one { OneStop }
    ensures none { NoneWhereDamaged }
{}

/// A conversion of a whole file to an absent name goes well, if no fault of the disk and no want of memory stops it.
pub fn what_can_be_converted_is<D: Disk>(before: &D, after: &D)
    ensures { CanConvertIsConverted (D.view before.now) (D.view after.now) }
{
    let _ = before;
    let _ = after;
}

/// A conversion of a file with a damage to an absent name says the first one, if no fault of the disk and no want of memory
/// stops it.
pub fn a_damage_is_said<D: Disk>(before: &D, after: &D)
    ensures { DamageIsSaid (D.view before.now) (D.view after.now) }
{
    let _ = before;
    let _ = after;
}
