//! From the bytes of a park to its numbers.
ghost use Rattle.sha2.specs.Sha256.{sha256};
ghost use Rattle.std.specs.Str.{bytes_eq};
ghost use Rattle.std.specs.Prelude.{◌≡◌, ◌-◌, ◌+◌, ◌*◌, ◌^◌, ◌<◌, ◌≤◌, count_by, length, nat_lt, take, true, IfErr, OnOk, Ok, Err};
ghost use Rattle.pos_layout.specs.Fields.{count_of};
ghost use Rattle.pos_layout.specs.Layouts.{digest_of};
ghost use Rattle.pos_layout.specs.Lists.{points_inside};
ghost use Rattle.pos_lists.specs.Pairs.{greater};
ghost use Rattle.pos_layout.specs.Reading.{is_listed, numbers_by};
ghost use Rattle.pos_layout.specs.Rules.{IsLaidOut};
ghost use Rattle.pos_reader.specs.Steps.{IsPark};
ghost use Rattle.pos_rice.specs.Park.{AreNumbers};

use crate::header::count_of;
use pos_layout::{Damage, Header, Layout, ParkEntry, park_digest};
use pos_rice::{MOST_NUMBERS, decode_park};
use pos_tuple::Size;

/// Writes the numbers of a park of table t to the first places of `numbers`, or answers what is wrong with the park: the
/// digest is tested, then the park's form, then the head of table 7. After an error `numbers` may hold anything.
pub(crate) fn park_numbers(
    header: &Header,
    t: u8,
    park: u64,
    entry: &ParkEntry,
    bytes: &[u8],
    numbers: &mut [u128],
) -> Result<(), Damage>
    requires laid_out { IsLaidOut header.now.layout header.now }
    requires park { IsPark header.now.layout header.now t park }
    requires listed { is_listed header.now.layout header.now t park entry.now ≡ true }
    requires room { MOST_NUMBERS ≤ length numbers.old }
    ensures ok { OnOk result (numbers_by header.now.layout header.now t park entry.now bytes.now ≡ Ok (take entry.now.count numbers.new)) }
    ensures numbers { OnOk result (AreNumbers header.now.size (take entry.now.count numbers.new)) }
    ensures damage { IfErr result (λ d. numbers_by header.now.layout header.now t park entry.now bytes.now ≡ Err d) }
{
    if !is_digested(header.layout, entry, bytes) {
        return Err(Damage::Digest { table: t, park });
    }
    let Ok(()) = decode_park(header.size.k(), entry.count, bytes, numbers) else {
        return Err(Damage::Form { table: t, park });
    };
    if t == 7 && u128::from(entry.head) != numbers[0] >> (header.size.k() + 1) {
        return Err(Damage::Directory { table: t, park });
    }
    Ok(())
}

/// Whether the digest of these bytes is the one that the entry says.
fn is_digested(layout: Layout, entry: &ParkEntry, bytes: &[u8]) -> bool
    ensures { result ≡ bytes_eq (take (digest_of layout) (sha256 bytes.now)) entry.now.digest }
{
    park_digest(layout, bytes).bytes() == entry.digest.bytes()
}

/// Whether a number of table t points inside the table before.
pub(crate) fn points_inside(header: &Header, t: u8, number: u128) -> bool
    requires laid_out { IsLaidOut header.now.layout header.now }
    requires first { 1 ≤ t }
    requires last { t ≤ 7 }
    ensures { result ≡ points_inside header.now.size t (count_of header.now (t - 1)) number }
{
    let values = values_of(header.size);
    if t == 1 {
        return is_point_below(number, values);
    }
    let before = u128::from(count_of(header, t - 1));
    if t == 7 {
        let places = 2 * values;
        return number / places < values && number % places < before;
    }
    is_point_below(number, before)
}

/// How many values a plot of this size can have in table 1.
fn values_of(size: Size) -> u128
    ensures values { result ≡ 2 ^ size }
    ensures small { result ≤ 2 ^ 50 }
{
    1 << size.k()
}

/// Whether the greater number of this line point's pair is below the limit: the line points of the numbers below it are
/// the first ones.
fn is_point_below(point: u128, limit: u128) -> bool
    requires { limit < 2 ^ 62 }
    ensures { result ≡ nat_lt (greater point) limit }
{
    point < limit * limit.saturating_sub(1) / 2
}

/// The least number of table 7 that has this f7.
pub(crate) fn least_with(size: Size, f7: u64) -> u128
    requires { f7 ≤ 2 ^ size }
    ensures { result ≡ f7 * 2 ^ (size + 1) }
{
    u128::from(f7) * (2 * values_of(size))
}

/// How many of the first numbers, so many, are below the limit.
pub(crate) fn count_below(numbers: &[u128], count: u32, limit: u128) -> u32
    requires { count ≤ length numbers.now }
    ensures { result ≡ count_by (λ n. nat_lt n limit) (take count numbers.now) }
{
    let front = &numbers[..count as usize];
    front.iter().filter(|number| **number < limit).count() as u32
}
