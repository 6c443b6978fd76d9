//! Numbers in decimal digits.
ghost use Rattle.std.specs.Prelude.{◌≡◌, ◌-◌, ◌^◌, min, option_map, true};
ghost use Rattle.std.specs.Char.{is_ascii_digit};
ghost use Rattle.std.specs.List.{list_all};
ghost use Rattle.std.specs.Str.Parse.{digits_value};
ghost use Rattle.ifmap_forms.specs.Values.{is_number, number_of_digits};

/// The number that one ASCII digit or more write, with leading zeros or without, or 2^64 - 1 where
/// it is greater; `None` exactly where the text is anything else.
pub fn number_of_digits(text: &str) -> Option<u64>
    ensures { result ≡ option_map (λ n. min n (2 ^ 64 - 1)) (number_of_digits text.now) }
{
    if !is_number(text) {
        return None;
    }
    Some(value_of_digits(text))
}

fn is_number(text: &str) -> bool
    ensures { result ≡ is_number text.now }
{
    !text.is_empty() && are_digits(text.as_bytes())
}

fn are_digits(bytes: &[u8]) -> bool
    ensures { result ≡ list_all is_ascii_digit bytes.now }
{
    bytes.iter().all(|byte| byte.is_ascii_digit())
}

fn value_of_digits(text: &str) -> u64
    requires { is_number text.now ≡ true }
    ensures { result ≡ min (digits_value 10 text.now) (2 ^ 64 - 1) }
{
    match text.parse::<u64>() {
        Ok(number) => number,
        Err(_) => u64::MAX,
    }
}
