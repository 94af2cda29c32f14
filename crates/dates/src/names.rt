// The names of the months, written and found: #103, three capitals.
ghost use Rattle.std.specs.Prelude.{◌≡◌, ◌≤◌, ◌<◌, position};
ghost use Rattle.dates.specs.Dates.{letter, month_names};
ghost use Rattle.dates.specs.Reading.{month_named, is_named};

const NAMES: [[u8; 3]; 12] = [
    *b"JAN", *b"FEB", *b"MAR", *b"APR", *b"MAY", *b"JUN", *b"JUL", *b"AUG", *b"SEP", *b"OCT",
    *b"NOV", *b"DEC",
];

// A letter of a month's name.
#[tactic(auto, unfolding(crate::specs::Dates::letter))]
pub(crate) fn letter_of(month: u32, j: usize) -> u8
    requires { (month < 12) × (j < 3) }
    ensures { result ≡ letter month j }
{
    NAMES[month as usize][j]
}

fn is_named(name: &[u8; 3], a: u8, b: u8, c: u8) -> bool
    ensures { result ≡ is_named name.now a b c }
{
    name[0] == a && name[1] == b && name[2] == c
}

// The first month of a name.
fn first_named(a: u8, b: u8, c: u8) -> Option<usize>
    ensures { result ≡ position (λ name. is_named name a b c) month_names }
{
    NAMES.iter().position(|name| is_named(name, a, b, c))
}

// The month of a name; 12 where there is none, which no date has.
pub(crate) fn month_named(a: u8, b: u8, c: u8) -> u32
    ensures { (result ≡ month_named a b c) × (result ≤ 12) }
{
    first_named(a, b, c).unwrap_or(12) as u32
}
