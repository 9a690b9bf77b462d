// The order of tuples, and plot order.
ghost use Rattle.std.specs.Prelude.{◌≡◌, ◌↔◌, ◌^◌, ◌≤◌, length, IsTrue};
ghost use Rattle.pos_order.specs.Order.{Below, is_below, lesser_first, plot_order};

/// Whether the list `a` is below the list `b`: at the last place where they differ, `a` has the lesser value.
///
/// Source of the rule: chiapos, `CompareProofBits`.
pub fn below(a: &[u64], b: &[u64]) -> bool
    requires { length a.now ≡ length b.now }
    ensures below { IsTrue result ↔ Below a.now b.now }
    ensures tested { result ≡ is_below a.now b.now }
{
    let mut i = a.len();
    while i > 0 {
        i -= 1;
        if a[i] != b[i] {
            return a[i] < b[i];
        }
    }
    false
}

/// Puts the 64 values of a tuple into plot order: at each level, the lowest first, the lesser half of each group first.
///
/// Source of the rule: chiapos, `GetQualityString`.
pub fn to_plot_order(values: &mut [u64; 64])
    ensures { values.new ≡ plot_order 6 values.old }
{
    order_group(6, values);
}

// Puts 2 ^ level values into plot order.
fn order_group(level: u32, values: &mut [u64])
    requires count { length values.old ≡ 2 ^ level }
    requires small { level ≤ 6 }
    ensures { values.new ≡ plot_order level values.old }
{
    if level == 0 {
        return;
    }
    let (left, right) = values.split_at_mut(values.len() / 2);
    order_group(level - 1, left);
    order_group(level - 1, right);
    if below(right, left) {
        left.swap_with_slice(right);
    }
}
