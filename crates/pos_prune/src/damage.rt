// A pair that points outside of the table below.
ghost use Rattle.std.specs.Prelude.{◌≡◌, ◌<◌, ◌≤◌, ◌↔◌, IfSome, IsNone};

use pos_edge::ScratchDamage;

// What is wrong with the record at place `at` of the scratch file with this number, if one of its two places is not below the
// limit: the left one comes first.
pub(crate) fn place_damage(
    file: u32,
    at: u64,
    pair: (u64, u64),
    limit: u64,
) -> Option<ScratchDamage>
    ensures none { IsNone result ↔ ((pair.0 < limit) × (pair.1 < limit)) }
    ensures record_at { IfSome result (λ damage. (damage.file ≡ file) × (damage.at ≡ at)) }
    ensures range { IfSome result (λ damage. (damage.least ≡ 0) × (damage.limit ≡ limit) × (limit ≤ damage.found)) }
    ensures left { IfSome result (λ damage. limit ≤ pair.0 → damage.found ≡ pair.0) }
    ensures right { IfSome result (λ damage. pair.0 < limit → damage.found ≡ pair.1) }
{
    let (left, right) = pair;
    if left < limit && right < limit {
        return None;
    }
    let found = if left < limit { right } else { left };
    Some(ScratchDamage {
        file,
        at,
        found: u128::from(found),
        least: 0,
        limit: u128::from(limit),
    })
}
