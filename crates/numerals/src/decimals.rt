// A word as a decimal number.
ghost use Rattle.std.specs.Prelude.{◌≡◌, ◌+◌, ◌*◌, ◌≤◌};
ghost use Rattle.numerals.specs.Decimals.{capped, most_number, number_of, digit_of};

// A number in a place that holds none above `most`.
#[tactic(auto, unfolding(crate::specs::Decimals::capped))]
pub fn up_to(n: u64, most: u64) -> u64
    ensures { (result ≡ capped most n) × (result ≤ most) }
{
    n.min(most)
}

// A decimal digit's value.
#[tactic(auto, unfolding(crate::specs::Decimals::digit_of, digits::specs::Digits::is_digit))]
fn digit(b: u8) -> Option<u64>
    ensures { result ≡ digit_of b }
{
    match b {
        b'0'..=b'9' => Some(u64::from(b - b'0')),
        _ => None,
    }
}

// A number with one digit more behind it, up to the greatest that eight bytes hold.
#[tactic(auto, unfolding(crate::specs::Decimals::capped))]
fn with_digit(n: u64, d: u64) -> u64
    ensures { result ≡ capped most_number (n * 10 + d) }
{
    n.saturating_mul(10).saturating_add(d)
}

// One digit or more. A number above 18,446,744,073,709,551,615 counts as that.
pub fn number_of(word: &[u8]) -> Option<u64>
    ensures { result ≡ number_of word.now }
{
    if word.is_empty() {
        return None;
    }
    let mut n: u64 = 0;
    for &b in word {
        n = with_digit(n, digit(b)?);
    }
    Some(n)
}
