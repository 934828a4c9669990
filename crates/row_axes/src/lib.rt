// The axes in a list of codes, as a mask.
#![tactic(auto)]

ghost use Rattle.std.specs.Prelude.{◌≡◌, cond, ℕ, ltb};
ghost use Rattle.floats.specs.Lists.{member};
ghost use Rattle.layout.specs.Layout.{axis_codes};
ghost use Rattle.row_cells.specs.Bits.{mask_sum, with_bit};

use layout::AXIS_CODES;
use row_cells::set_bit;

// The mask m, with a code that is an axis.
fn with_axis(m: u64, code: u64) -> u64
    ensures { result ≡ cond (ltb code axis_codes) (with_bit m code) m }
{
    if code >= AXIS_CODES as u64 {
        return m;
    }
    set_bit(m, code)
}

pub fn axes_mask(codes: &[u64]) -> u64
    ensures { result ≡ mask_sum (λ (k : ℕ). member k codes.now) axis_codes }
{
    let mut m: u64 = 0;
    for code in codes {
        m = with_axis(m, *code);
    }
    m
}
