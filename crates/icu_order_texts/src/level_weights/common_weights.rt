//! Where two lists of weights begin to differ.

ghost use Rattle.std.specs.Prelude.{◌≡◌};
ghost use Rattle.icu_order_texts.specs.level_weights.CommonWeights.{common_length};

/// How many weights two lists begin with alike.
pub fn common_length(one: &[u64], other: &[u64]) -> usize
    ensures { result ≡ common_length one.now other.now }
{
    let mut alike = 0usize;
    'alike: while alike < one.len() && alike < other.len() && one[alike] == other[alike] {
        alike += 1;
    }
    alike
}
