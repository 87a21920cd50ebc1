//! UTCTime and GeneralizedTime in their canonical form (X.690 11.7, 11.8).

ghost use Rattle.std.specs.Prelude.{◌≡◌, ◌≢◌, ◌<◌, ◌≤◌, ◌+◌, ◌^◌, length, min, slice_index};
ghost use Rattle.std.specs.Bool.{Decides};
ghost use Rattle.asn1_schema.specs.Times.{is_leap, days_of, IsMoment, IsDigit, AreDigits, pair_at, IsMomentAt, IsUtcTime, HasFraction, IsGeneralizedTime, IsTime};

use crate::number_source::NumberSource;
use crate::tables::TimeKind;

/// Returns whether a year has a 29 February.
fn is_leap(year: u16) -> bool
    ensures { result ≡ is_leap year }
{
    year % 4 == 0 && (year % 100 != 0 || year % 400 == 0)
}

/// Returns how many days a month has.
fn days_of(year: u16, month: u16) -> u16
    ensures { result ≡ days_of year month }
{
    if month == 2 {
        return if is_leap(year) { 29 } else { 28 };
    }
    if month == 4 || month == 6 || month == 9 || month == 11 {
        30
    } else {
        31
    }
}

/// Returns whether there is such a day.
fn is_day(year: u16, month: u16, day: u16) -> bool
    ensures { Decides result ((1 ≤ month) × (month ≤ 12) × (1 ≤ day) × (day ≤ days_of year month)) }
{
    1 <= month && month <= 12 && 1 <= day && day <= days_of(year, month)
}

/// Returns whether there is such a time of day.
fn is_time_of_day(hour: u16, minute: u16, second: u16) -> bool
    ensures { Decides result ((hour < 24) × (minute < 60) × (second < 60)) }
{
    hour < 24 && minute < 60 && second < 60
}

/// Returns whether a number is that of a digit.
pub(crate) fn is_digit(number: u64) -> bool
    ensures { Decides result (IsDigit number) }
{
    48 <= number && number <= 57
}

/// Returns whether the numbers from an index on are digits, up to another index.
pub(crate) fn are_digits<S: NumberSource>(source: &S, from: usize, to: usize) -> bool
    requires { to ≤ length (S.list source.now) }
    ensures { Decides result (AreDigits (S.list source.now) from to) }
{
    for index in from..to {
        if !is_digit(source.number(index)) {
            return false;
        }
    }
    true
}

/// Returns the number of the two digits at an index.
fn pair_at<S: NumberSource>(source: &S, index: usize) -> u16
    requires within { index + 1 < length (S.list source.now) }
    requires tens { IsDigit (slice_index (S.list source.now) index) }
    requires ones { IsDigit (slice_index (S.list source.now) (index + 1)) }
    ensures value { result ≡ pair_at (S.list source.now) index }
    ensures few { result < 100 }
{
    let _count = source.count();
    let tens = source.number(index);
    let ones = source.number(index + 1);
    (10 * (tens - 48) + (ones - 48)) as u16
}

/// Returns whether ten digits, from an index on, are those of a moment of a year.
fn is_moment_at<S: NumberSource>(source: &S, year: u16, from: usize) -> bool
    requires within { from + 10 < length (S.list source.now) }
    requires digits { AreDigits (S.list source.now) from (from + 10) }
    ensures { Decides result (IsMomentAt (S.list source.now) year from) }
{
    let _count = source.count();
    let month = pair_at(source, from);
    let day = pair_at(source, from + 2);
    let hour = pair_at(source, from + 4);
    let minute = pair_at(source, from + 6);
    let second = pair_at(source, from + 8);
    is_day(year, month, day) && is_time_of_day(hour, minute, second)
}

/// Returns whether characters are a UTCTime, YYMMDDhhmmssZ, of the years 1950 to 2049 (X.690 11.8,
/// RFC 5280 4.1.2.5.1).
fn is_utc_time<S: NumberSource>(source: &S) -> bool
    ensures { Decides result (IsUtcTime (S.list source.now)) }
{
    if source.count() != 13 || source.number(12) != 90 || !are_digits(source, 0, 12) {
        return false;
    }
    let pair = pair_at(source, 0);
    let year = if pair < 50 { 2000 + pair } else { 1900 + pair };
    is_moment_at(source, year, 2)
}

/// Returns whether the characters after the 14th are a full stop, digits of which the last is not 0,
/// and one more character.
fn has_fraction<S: NumberSource>(source: &S) -> bool
    ensures { Decides result (HasFraction (S.list source.now)) }
{
    let count = source.count();
    if count < 17 {
        return false;
    }
    source.number(14) == 46 && source.number(count - 2) != 48 && are_digits(source, 15, count - 1)
}

/// Returns whether characters are a GeneralizedTime, YYYYMMDDhhmmssZ, or YYYYMMDDhhmmss.fZ where the
/// last digit of the fraction f is not 0 (X.690 11.7).
fn is_generalized_time<S: NumberSource>(source: &S) -> bool
    ensures { Decides result (IsGeneralizedTime (S.list source.now)) }
{
    let count = source.count();
    if count != 15 && !has_fraction(source) {
        return false;
    }
    if source.number(count - 1) != 90 || !are_digits(source, 0, 14) {
        return false;
    }
    let century = pair_at(source, 0);
    let year = pair_at(source, 2);
    is_moment_at(source, 100 * century + year, 4)
}

/// Returns whether characters are a time of this kind, in its canonical form (X.690 11.7, 11.8).
pub fn is_time<S: NumberSource>(source: &S, kind: TimeKind) -> bool
    ensures { Decides result (IsTime kind (S.list source.now)) }
{
    match kind {
        TimeKind::Utc => is_utc_time(source),
        TimeKind::Generalized => is_generalized_time(source),
    }
}
