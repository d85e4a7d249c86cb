//! The local cost of a value.
ghost use Rattle.std.specs.Prelude.{◌≡◌, ◌^◌, ◌<◌, ◌≤◌, pos, ◌+ℤ◌, length, All, unsigned_abs};
ghost use Rattle.window_median.specs.LocalCost.{HasSteps, cost_at, excess};

/// A reading that comes after a value, and the least and the greatest whole step that may lead to it.
#[derive(Clone, Copy, Debug, PartialEq, Eq)]
pub struct Near {
    /// The reading's value, in units.
    pub value: i64,
    /// The least whole step, in units.
    pub least: i64,
    /// The greatest whole step, in units; at least the least one in every use.
    pub most: i64,
}

/// What the value v costs beside its own reading and its successors, in units: its distance from its own reading
/// and, for each successor, how far that lies from what its steps allow after v. It takes no memory.
pub fn local_cost(v: i64, own: i64, near: &[Near]) -> i128
    requires steps { All HasSteps near.now }
    requires few { length near.now < 2 ^ 32 }
    ensures { result ≡ pos (cost_at own near.now v) }
{
    let mut cost = i128::from(v.abs_diff(own));
    for successor in near {
        cost += step_excess(v, *successor);
    }
    cost
}

/// How far the value of a successor lies from what its steps allow after v.
fn step_excess(v: i64, near: Near) -> i128
    requires { HasSteps near }
    ensures value { result ≡ pos (excess v near) }
    ensures small { excess v near ≤ 2 ^ 65 }
{
    let least = sum(v, near.least);
    let most = sum(v, near.most);
    let value = i128::from(near.value);
    if value < least {
        least - value
    } else if most < value {
        value - most
    } else {
        0
    }
}

/// The sum of two numbers.
fn sum(a: i64, b: i64) -> i128
    ensures value { result ≡ a +ℤ b }
    ensures small { unsigned_abs result ≤ 2 ^ 64 }
{
    i128::from(a) + i128::from(b)
}
