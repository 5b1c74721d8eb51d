//! The durations of time literals.

ghost use Rattle.std.specs.Prelude.{◌≡◌, ◌≤◌, length, Some};
ghost use Rattle.fb_read.specs.Durations as spec;
ghost use Rattle.std.specs.Option.{ForSome};
ghost use Rattle.fb_read.specs.Limits.{most};

use crate::number::number;
use crate::token::MOST;

#[derive(Clone, Copy)]
enum Unit {
    Day,
    Hour,
    Minute,
    Second,
    Millisecond,
}

impl Unit {
    ghost use Rattle.fb_read.specs.Durations as spec;

    fn name(self) -> &'static [u8]
        ensures { result.now ≡ spec.name_of self }
    {
        match self {
            Unit::Day => b"D",
            Unit::Hour => b"H",
            Unit::Minute => b"M",
            Unit::Second => b"S",
            Unit::Millisecond => b"MS",
        }
    }

    fn ticks(self) -> u128
        ensures { result ≡ spec.ticks_of self }
    {
        match self {
            Unit::Day => 86_400_000,
            Unit::Hour => 3_600_000,
            Unit::Minute => 60_000,
            Unit::Second => 1_000,
            Unit::Millisecond => 1,
        }
    }
}

fn digits_len(z: &[u8]) -> usize
    ensures value { result ≡ spec.digits_len z.now }
    ensures within { result ≤ length z.now }
{
    for end in 0..z.len() {
        if z[end].is_ascii_alphabetic() {
            return end;
        }
    }
    z.len()
}

fn letters_len(z: &[u8]) -> usize
    ensures value { result ≡ spec.letters_len z.now }
    ensures within { result ≤ length z.now }
{
    for end in 0..z.len() {
        if !z[end].is_ascii_alphabetic() {
            return end;
        }
    }
    z.len()
}

fn next_part(z: &[u8]) -> &[u8]
    ensures { result.now ≡ spec.next_part z.now }
{
    match z {
        [b'_', rest @ ..] => rest,
        _ => z,
    }
}

fn small_product(a: Option<u128>, b: u128) -> Option<u128>
    ensures { result ≡ spec.small_product a b }
{
    let product = a?.checked_mul(b)?;
    if product <= MOST { Some(product) } else { None }
}

fn small_sum(a: Option<u128>, b: Option<u128>) -> Option<u128>
    ensures value { result ≡ spec.small_sum a b }
    ensures small { ForSome result (λ n. n ≤ most) }
{
    let sum = a?.checked_add(b?)?;
    if sum <= MOST { Some(sum) } else { None }
}

/// The ticks of one or more parts with only these units, in upper case. `None` if the text is not such parts, or if the
/// sum is too large.
#[tactic(auto, unfolding(crate::specs::Durations::parts))]
fn parts(units: &[Unit], z: &[u8]) -> Option<u128>
    ensures value { result ≡ spec.parts units.now z.now }
    ensures small { ForSome result (λ n. n ≤ most) }
{
    let [unit, less @ ..] = units else {
        return None;
    };
    let (digits, following) = z.split_at(digits_len(z));
    let (name, rest) = following.split_at(letters_len(following));
    if name != unit.name() {
        return parts(less, z);
    }
    let part = small_product(number(10, digits), unit.ticks());
    if rest.is_empty() {
        return small_sum(part, Some(0));
    }
    small_sum(part, parts(less, next_part(rest)))
}

/// The ticks of a duration in upper case.
pub fn duration(z: &[u8]) -> Option<u128>
    ensures value { result ≡ spec.duration z.now }
    ensures small { ForSome result (λ n. n ≤ most) }
{
    let falling = [
        Unit::Day,
        Unit::Hour,
        Unit::Minute,
        Unit::Second,
        Unit::Millisecond,
    ];
    parts(&falling, z)
}
