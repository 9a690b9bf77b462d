//! What holds of the bytes of bit strings, whatever the code: each law is what a function with an empty body ensures.

ghost use Rattle.pos_bits.specs.BytesLaws.{BytesAreBytes, FewerThanEightZeroBits, OneSpelling, OneString};

/// The bits of a string's bytes are the string followed by fewer than eight 0 bits, and no other bytes have such bits.
pub fn bytes_are_the_one_spelling()
    ensures bytes { BytesAreBytes }
    ensures filled { FewerThanEightZeroBits }
    ensures one { OneSpelling }
{}

/// Strings of one length that have the same bytes are one string.
pub fn bytes_are_of_one_string()
    ensures { OneString }
{}
