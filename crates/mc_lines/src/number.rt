ghost use Rattle.std.specs.Prelude.{◌≡◌, IsTrue};
ghost use Rattle.std.specs.List.{list_all};
ghost use Rattle.definitions.specs.Cache.{number_in};
ghost use Rattle.mc_lines.specs.Fields.{is_digit, value_in};

/// Whether all bytes are digits.
fn are_digits(field: &[u8]) -> bool
    ensures { result ≡ list_all is_digit field.now }
{
    field.iter().all(|byte| *byte >= b'0' && *byte <= b'9')
}

/// The number that the digits write, where it is below 2^64.
fn value(field: &[u8]) -> Option<u64>
    requires { IsTrue (list_all is_digit field.now) }
    ensures { result ≡ value_in field.now }
{
    let mut n: u64 = 0;
    for byte in field {
        let digit = u64::from(*byte - b'0');
        if n > (u64::MAX - digit) / 10 {
            return None;
        }
        n = n * 10 + digit;
    }
    Some(n)
}

/// The number that the field writes, where it is below 2^64: digits alone, and no 0 before another one.
#[tactic(auto, using(crate::proofs::Decimals::number_in_tested, crate::proofs::Decimals::number_in_untested))]
pub fn read_number(field: &[u8]) -> Option<u64>
    ensures { result ≡ number_in field.now }
{
    if field.is_empty() || (field[0] == b'0' && field.len() > 1) || !are_digits(field) {
        return None;
    }
    value(field)
}
