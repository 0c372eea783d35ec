//! How a text writes a number.
ghost use Rattle.std.specs.Prelude.{◌≡◌, ◌<◌, ◌^◌, ◌==◌, IfSome};
ghost use Rattle.std.specs.List.{position};
ghost use Rattle.fill_text.specs.Numbers.{layer_numbers_of, natural_of, number_of};

/// The number that one to eighteen ASCII digits write.
fn natural(text: &[u8]) -> Option<u64>
    ensures value { result ≡ natural_of text.now }
    ensures small { IfSome result (λ n. n < 10 ^ 18) }
{
    if text.is_empty() || text.len() > 18 {
        return None;
    }
    let mut n = 0u64;
    for c in text {
        if !c.is_ascii_digit() {
            return None;
        }
        n = 10 * n + u64::from(*c - b'0');
    }
    Some(n)
}

/// The number that a text writes as one to eighteen ASCII digits, with or without a `-` before them.
pub fn number(text: &[u8]) -> Option<i64>
    ensures { result ≡ number_of text.now }
{
    match text {
        [b'-', digits @ ..] => {
            let n = natural(digits)?;
            Some(-(n as i64))
        }
        _ => {
            let n = natural(text)?;
            Some(n as i64)
        }
    }
}

/// Where the first `/` of a text stands.
fn slash_in(text: &[u8]) -> Option<usize>
    ensures { result ≡ position (λ c. c == 47) text.now }
{
    text.iter().position(|c| *c == b'/')
}

/// The numbers of the layer and of the data type that a text writes as `LAYER/DATATYPE`, each in one to eighteen ASCII digits.
pub fn layer_numbers(text: &[u8]) -> Option<(u64, u64)>
    ensures { result ≡ layer_numbers_of text.now }
{
    let slash = slash_in(text)?;
    let layer = natural(&text[..slash])?;
    let data_type = natural(&text[slash + 1..])?;
    Some((layer, data_type))
}
