//! Serial numbers of zones (RFC 1982).
ghost use Rattle.std.specs.Prelude.{◌≡◌, ◌+◌, ◌%◌, ◌^◌, ◌↔◌, None};
ghost use Rattle.std.specs.declared.cmp.Ordering as Ordering;
ghost use Rattle.dnw_codes.specs.SerialNumber.{IsSerialLess, serial_distance};

use std::cmp::Ordering;
use std::marker::Model;
use std::ops::Add;

/// A number of 32 bits on a circle (RFC 1982).
#[derive(Clone, Copy, Debug, PartialEq, Eq, Hash)]
pub struct SerialNumber(u32);

impl Model for SerialNumber {
    ghost use Rattle.std.specs.Prelude.{ℕ};

    ghost Value = { ℕ };

    ghost view = { λ serial. serial.0 };

    ghost inverse = { λ number. record { 0 = number } };
}

impl SerialNumber {
    /// The serial number of this number.
    pub fn new(number: u32) -> SerialNumber
        ensures { result ≡ number }
    {
        SerialNumber(number)
    }

    /// The number itself.
    pub fn get(self) -> u32
        ensures { result ≡ self }
    {
        self.0
    }

    /// The order of two serial numbers (RFC 1982 3.2), which has no answer for two that are 2^31 apart.
    pub fn serial_cmp(self, other: SerialNumber) -> Option<Ordering>
        ensures less { (result ≡ Some Ordering.Less) ↔ IsSerialLess self other }
        ensures equal { (result ≡ Some Ordering.Equal) ↔ (self ≡ other) }
        ensures greater { (result ≡ Some Ordering.Greater) ↔ IsSerialLess other self }
        ensures undefined { (result ≡ None) ↔ (serial_distance self other ≡ 2 ^ 31) }
    {
        let ahead = other.0.wrapping_sub(self.0);
        match ahead.cmp(&(1 << 31)) {
            _ if ahead == 0 => Some(Ordering::Equal),
            Ordering::Less => Some(Ordering::Less),
            Ordering::Equal => None,
            Ordering::Greater => Some(Ordering::Greater),
        }
    }
}

impl From<u32> for SerialNumber {
    ghost from_gives = { λ number serial. serial ≡ number };

    fn from(number: u32) -> SerialNumber {
        SerialNumber::new(number)
    }
}

impl Add for SerialNumber {
    type Output = SerialNumber;

    ghost add_gives = { λ a b sum. sum ≡ (a + b) % 2 ^ 32 };

    /// The sum modulo 2^32 (RFC 1982 3.1).
    fn add(self, other: SerialNumber) -> SerialNumber {
        SerialNumber(self.0.wrapping_add(other.0))
    }
}
