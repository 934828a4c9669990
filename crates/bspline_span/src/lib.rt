// The knot span of a parameter.
#![tactic(auto)]

ghost use Rattle.std.specs.Prelude.{◌≡◌, ◌≤◌, ◌<◌, ◌-◌};
ghost use Rattle.floats.specs.Numbers.{of_nat};
ghost use Rattle.layout.specs.Layout.{most_points};
ghost use Rattle.bspline_tables.specs.Tables.{span_in};

// The span of u, where hi is the curve's last parameter: the end lies in the last span.
pub fn span_of(u: f64, hi: f64, p: usize, n: usize) -> usize
    requires p_lt_n { (p < n) × (n ≤ most_points) }
    requires hi_value { hi ≡ of_nat (n - p) }
    ensures value { result ≡ span_in n p u }
    ensures lower_bound { (p ≤ result) × (result < n) }
{
    if u >= hi {
        return n - 1;
    }
    p + whole::trunc_count(u) as usize
}
