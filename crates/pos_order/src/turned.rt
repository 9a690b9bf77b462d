// The one order of halves in which a tuple's pairs match.
ghost use Rattle.std.specs.Prelude.{◌≡◌, ◌+◌, ◌*◌, ◌^◌, ◌<◌, ◌≤◌, All, IfNone, IfSome, IsSome, length, true, false};
ghost use Rattle.pos_tuple.specs.Node.{metadata_units, node};
ghost use Rattle.pos_order.specs.Order.{Turning};
ghost use Rattle.pos_order.specs.Turned.{HasNoTurning, IsTurnedTo};

use pos_tuple::{Entry, Id, Size, first, fx, matches};

/// Puts the 64 values of a tuple into the order of a proof: halves change places at any levels until every pair matches.
/// It is false exactly where no such order exists, and then the values are as before. There is never more than one.
///
/// Source of the rule: the Construction document, "proving".
pub fn to_proof_order(id: &Id, size: Size, values: &mut [u64; 64]) -> bool
    requires { All (λ x. x < 2 ^ size) values.old }
    ensures turned { result ≡ true → Turning 6 values.new values.old × IsSome (node id.now.0 size 6 values.new) }
    ensures none { result ≡ false → HasNoTurning id.now.0 size 6 values.old }
    ensures same { result ≡ false → values.new ≡ values.old }
    ensures small { All (λ x. x < 2 ^ size) values.new }
{
    entry_in_proof_order(id, size, values).is_some()
}

/// The same, with the entry of table 7 that the values then have, so that nobody hashes them again.
pub fn entry_in_proof_order(id: &Id, size: Size, values: &mut [u64; 64]) -> Option<Entry>
    requires { All (λ x. x < 2 ^ size) values.old }
    ensures turned { IfSome result (λ e. IsTurnedTo id.now.0 size 6 values.old values.new e) }
    ensures none { IfNone result (HasNoTurning id.now.0 size 6 values.old) }
    ensures same { IfNone result (values.new ≡ values.old) }
    ensures small { All (λ x. x < 2 ^ size) values.new }
{
    let mut turned = *values;
    let root = turn_group(id, size, 6, &mut turned)?;
    *values = turned;
    Some(root)
}

// Turns 2 ^ level values into the order in which they have an entry of table level + 1, and answers it. Where there is
// none, the values are left half turned. Each entry is made once.
fn turn_group(id: &Id, size: Size, level: u8, values: &mut [u64]) -> Option<Entry>
    requires count { length values.old ≡ 2 ^ level }
    requires few { level ≤ 6 }
    requires small { All (λ x. x < 2 ^ size) values.old }
    ensures turned { IfSome result (λ e. IsTurnedTo id.now.0 size level values.old values.new e) }
    ensures y { IfSome result (λ e. e.y < 2 ^ (size + 6)) }
    ensures meta { IfSome result (λ e. length e.meta ≡ size * metadata_units (level + 1)) }
    ensures none { IfNone result (HasNoTurning id.now.0 size level values.old) }
{
    if level == 0 {
        return Some(first(id, size, values[0]));
    }
    let (left, right) = values.split_at_mut(values.len() / 2);
    let before = turn_group(id, size, level - 1, left)?;
    let after = turn_group(id, size, level - 1, right)?;
    if matches(before.y, after.y) {
        return Some(fx(size, level + 1, &before, &after));
    }
    if !matches(after.y, before.y) {
        return None;
    }
    left.swap_with_slice(right);
    Some(fx(size, level + 1, &after, &before))
}
