//! Fields of INT columns as numbers, read from their bytes.
ghost use Rattle.std.specs.Prelude.{◌≡◌, ◌<◌, ◌≤◌, ◌^◌, IfSome, Some, true, nat_le, not, length};
ghost use Rattle.std.specs.Char.{digit_value, is_ascii_digit};
ghost use Rattle.std.specs.List.{prefix_len, list_all};
ghost use Rattle.std.specs.Str.Parse.{starts_with_minus, without_leading_sign};
ghost use Rattle.gq_load.specs.Numbers.{is_space, int_of, magnitude, number_of, signed};

/// The number that a field spells. Most fields are a few digits, and these are tried first.
#[inline]
pub fn int_of(field: &[u8]) -> Option<i64>
    ensures { result ≡ int_of field.now }
{
    let number = plain_number(field);
    if number.is_some() {
        number
    } else {
        with_sign_or_spaces(field)
    }
}

/// The number of a field of up to 18 digits. For `None` the field may still spell one, in another way.
#[inline(always)]
pub(crate) fn plain_number(field: &[u8]) -> Option<i64>
    ensures { IfSome result (λ n. int_of field.now ≡ Some n) }
{
    // Below 10^18, so that it is below 2^63.
    if field.len() >= FEW {
        return None;
    }
    match few_digits(field) {
        Some(value) => Some(value as i64),
        None => None,
    }
}

/// The number that a field spells. Most fields have no spaces, so the whole field is tried first.
#[tactic(auto, using(crate::proofs::Spelling::unspaced))]
#[cold]
fn with_sign_or_spaces(field: &[u8]) -> Option<i64>
    ensures { result ≡ int_of field.now }
{
    let number = number_of(field);
    if number.is_some() {
        number
    } else {
        between_spaces(field)
    }
}

/// The number that a field spells between spaces.
#[tactic(auto, unfolding(crate::specs::Numbers::int_of))]
#[cold]
fn between_spaces(field: &[u8]) -> Option<i64>
    ensures { result ≡ int_of field.now }
{
    let (_, body) = field.split_at(spaces_len(field));
    let (piece, rest) = body.split_at(piece_len(body));
    if is_blank(rest) {
        number_of(piece)
    } else {
        None
    }
}

fn spaces_len(bytes: &[u8]) -> usize
    ensures value { result ≡ prefix_len is_space bytes.now }
    ensures within { result ≤ length bytes.now }
{
    bytes.iter().take_while(|b| **b == b' ').count()
}

fn piece_len(bytes: &[u8]) -> usize
    ensures value { result ≡ prefix_len (λ b. not (is_space b)) bytes.now }
    ensures within { result ≤ length bytes.now }
{
    bytes.iter().take_while(|b| **b != b' ').count()
}

fn is_blank(bytes: &[u8]) -> bool
    ensures { result ≡ list_all is_space bytes.now }
{
    bytes.iter().all(|b| *b == b' ')
}

/// The number that a sign, or none, and digits spell, within 64 bits.
#[tactic(auto, unfolding(crate::specs::Numbers::number_of))]
fn number_of(piece: &[u8]) -> Option<i64>
    ensures { result ≡ number_of piece.now }
{
    let value = magnitude(without_sign(piece))?;
    signed(is_negative(piece), value)
}

fn is_negative(piece: &[u8]) -> bool
    ensures { result ≡ starts_with_minus piece.now }
{
    !piece.is_empty() && piece[0] == b'-'
}

/// What follows a sign, or all if there is no sign.
fn without_sign(piece: &[u8]) -> &[u8]
    ensures { result.now ≡ without_leading_sign piece.now }
{
    if !piece.is_empty() && (piece[0] == b'-' || piece[0] == b'+') {
        &piece[1..]
    } else {
        piece
    }
}

// Numbers with at most this many digits are below 2^64.
const FEW: usize = 19;

/// The number that one or more digits spell, if it is below 2^64.
fn magnitude(digits: &[u8]) -> Option<u64>
    ensures { result ≡ magnitude digits.now }
{
    if digits.len() <= FEW {
        few_digits(digits)
    } else {
        many_digits(digits)
    }
}

/// The number that a few digits spell.
#[tactic(auto, using(crate::proofs::Numbers::one_digit_more))]
#[inline(always)]
fn few_digits(digits: &[u8]) -> Option<u64>
    requires { length digits.now ≤ 19 }
    ensures value { result ≡ magnitude digits.now }
    ensures small { IfSome result (λ n. n < 10 ^ length digits.now) }
{
    if digits.is_empty() {
        return None;
    }
    let mut value = 0u64;
    for byte in digits {
        let digit = digit_of(*byte);
        if digit > 9 {
            return None;
        }
        value = value * 10 + digit;
    }
    Some(value)
}

// The value of a digit, and more than 9 for each other byte.
#[inline(always)]
fn digit_of(byte: u8) -> u64
    ensures digit { nat_le result 9 ≡ is_ascii_digit byte }
    ensures value { is_ascii_digit byte ≡ true → result ≡ digit_value byte }
{
    u64::from(byte).wrapping_sub(48)
}

/// The number that more digits spell, if it is below 2^64.
#[tactic(auto, using(crate::proofs::Numbers::filled_by_length))]
fn many_digits(digits: &[u8]) -> Option<u64>
    requires { 19 < length digits.now }
    ensures { result ≡ magnitude digits.now }
{
    let mut value = 0u64;
    for digit in digits {
        if !digit.is_ascii_digit() {
            return None;
        }
        value = value
            .checked_mul(10)?
            .checked_add(u64::from(*digit - b'0'))?;
    }
    Some(value)
}

/// A number and its sign as one of 64 bits.
fn signed(is_negative: bool, magnitude: u64) -> Option<i64>
    ensures { result ≡ signed is_negative magnitude }
{
    if is_negative {
        0i64.checked_sub_unsigned(magnitude)
    } else {
        i64::try_from(magnitude).ok()
    }
}
