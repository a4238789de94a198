//! Pairs of codes that one number counts.

ghost use Rattle.std.specs.Prelude.{◌≡◌, ◌+◌, ◌*◌, ◌<◌, ◌≤◌, length, drop, All, nat_lt, IsTrue, ◌↔◌, true};
ghost use Rattle.std.specs.List.{list_any};
ghost use Rattle.grib_coding.specs.Items.{pair_of, codes_of_pairs};

/// Whether a number is over 90, so that no coder writes it.
pub(crate) fn has_long(numbers: &[u64]) -> bool
    ensures { result ≡ list_any (λ number. nat_lt 90 number) numbers.now }
{
    numbers.iter().any(|number| *number > 90)
}

/// The codes of the pairs with these numbers, but for the first one.
pub(crate) fn spread_behind_reference(numbers: &[u64], codes: &mut [u64])
    requires some { 1 ≤ length numbers.now }
    requires short { All (λ number. number ≤ 90) numbers.now }
    requires room { length codes.old + 1 ≡ 2 * length numbers.now }
    ensures { codes.new ≡ drop 1 (codes_of_pairs numbers.now) }
{
    let (_first, second) = pair(numbers[0]);
    codes[0] = second;
    spread_pairs(&numbers[1..], &mut codes[1..]);
}

/// The codes of the pairs with these numbers.
pub(crate) fn spread_pairs(numbers: &[u64], codes: &mut [u64])
    requires short { All (λ number. number ≤ 90) numbers.now }
    requires room { length codes.old ≡ 2 * length numbers.now }
    ensures { codes.new ≡ codes_of_pairs numbers.now }
{
    for (place, number) in numbers.iter().enumerate() {
        let (first, second) = pair(*number);
        codes[2 * place] = first;
        codes[2 * place + 1] = second;
    }
}

/// The pair of codes with this number: pairs are counted by their sum, and those of one sum by the second code.
fn pair(number: u64) -> (u64, u64)
    requires { number ≤ 90 }
    ensures { pair_of number ≡ record { first = result.0; second = result.1 } }
{
    let mut second = number;
    for sum in 0..13 {
        if second <= sum {
            return (sum - second, second);
        }
        second -= sum + 1;
    }
    (0, 0)
}
