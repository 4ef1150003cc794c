//! Values from outside, which are tested before they are used.
ghost use Rattle.std.specs.Prelude.{◌≡◌, ◌+◌, ◌-◌, ◌*◌, ◌<◌, ◌≤◌, ◌^◌, true, false, Err, Result, MatchResult, IfErr};
ghost use Rattle.std.specs.Fn.{FnReturnsAt};
ghost use Rattle.std.specs.Result.{OkIff};

use std::marker::Model;

/// A value from outside, which is to be tested before it is used. A contract sees it as the value.
#[derive(Clone, Copy, Debug, Drop)]
pub struct Restrict<T>(T);

impl<T> Model for Restrict<T> {
    ghost Value = { T };

    ghost view = { λ restricted. restricted.0 };

    ghost inverse = { λ value. record { 0 = value } };
}

impl<T> Restrict<T> {
    /// Puts a value under restriction.
    pub fn new(restricted: T) -> Restrict<T>
        ensures { result ≡ restricted }
    {
        Restrict(restricted)
    }

    /// Tests the value, and lends it with the answer.
    pub fn verify<F: Fn(&T) -> bool + Drop>(&self, f: F) -> Verified<'_, T>
        requires { F.IsAlwaysCallable f }
        ensures value { result.value.now ≡ self.now }
        ensures tested { FnReturnsAt F.Fn f self.now result.valid }
    {
        let value = &self.0;
        let valid = f(value);
        Verified { value, valid }
    }

    /// Tests the value, and gives it back, as `Ok` where it passed.
    pub fn verify_unwrap<F: Fn(&T) -> bool + Drop>(self, f: F) -> Result<T, T>
        requires { F.IsAlwaysCallable f }
        ensures { MatchResult result (λ value. (value ≡ self) × FnReturnsAt F.Fn f self true)
            (λ value. (value ≡ self) × FnReturnsAt F.Fn f self false) }
    {
        let valid = f(&self.0);
        let Restrict(value) = self;
        if valid { Ok(value) } else { Err(value) }
    }

    /// The value, without a test.
    pub fn unverified(self) -> T
        ensures { result ≡ self }
    {
        self.0
    }

    /// What a function makes of the value, under restriction again.
    pub fn map<R, F: Fn(T) -> R + Drop>(self, f: F) -> Restrict<R>
        requires { F.IsAlwaysCallable f }
        ensures { F.post f self result }
    {
        Restrict(f(self.0))
    }
}

/// A value that was tested, with the answer.
#[derive(Clone, Copy, Debug)]
pub struct Verified<'a, T> {
    value: &'a T,
    valid: bool,
}

impl<T> Verified<'_, T> {
    /// What a function makes of the value, under restriction again.
    pub fn then<R, F: Fn(&T) -> R + Drop>(&self, f: F) -> Restrict<R>
        requires { F.IsAlwaysCallable f }
        ensures { FnReturnsAt F.Fn f self.now.value.now result }
    {
        Restrict(f(self.value))
    }

    /// Whether the value passed its test.
    pub fn is_valid(&self) -> bool
        ensures { result ≡ self.now.valid }
    {
        self.valid
    }
}

/// Sums, differences and products that are refused where they don't fit, with the argument handed back.
pub trait RestrictedMath {
    /// The other number.
    type Arg: Copy;

    /// The result.
    type Value: Copy;

    ghost added: { Self → Self.Arg → Result Self.Value Self.Arg → Type 0 };

    ghost subtracted: { Self → Self.Arg → Result Self.Value Self.Arg → Type 0 };

    ghost multiplied: { Self → Self.Arg → Result Self.Value Self.Arg → Type 0 };

    /// The sum, or the argument where the sum doesn't fit.
    fn checked_add(&self, arg: Self::Arg) -> Result<Restrict<Self::Value>, Self::Arg>
        ensures { added self.now arg result };

    /// The difference, or the argument where it is greater.
    fn checked_sub(&self, arg: Self::Arg) -> Result<Restrict<Self::Value>, Self::Arg>
        ensures { subtracted self.now arg result };

    /// The product, or the argument where the product doesn't fit.
    fn checked_mul(&self, arg: Self::Arg) -> Result<Restrict<Self::Value>, Self::Arg>
        ensures { multiplied self.now arg result };
}

impl RestrictedMath for Restrict<u8> {
    type Arg = u8;

    type Value = u8;

    ghost added = { λ a b r. OkIff r (a + b < 2 ^ 8) (a + b) × IfErr r (λ e. e ≡ b) };

    ghost subtracted = { λ a b r. OkIff r (b ≤ a) (a - b) × IfErr r (λ e. e ≡ b) };

    ghost multiplied = { λ a b r. OkIff r (a * b < 2 ^ 8) (a * b) × IfErr r (λ e. e ≡ b) };

    fn checked_add(&self, arg: u8) -> Result<Restrict<u8>, u8> {
        match self.0.checked_add(arg) {
            Some(number) => Ok(Restrict(number)),
            None => Err(arg),
        }
    }

    fn checked_sub(&self, arg: u8) -> Result<Restrict<u8>, u8> {
        match self.0.checked_sub(arg) {
            Some(number) => Ok(Restrict(number)),
            None => Err(arg),
        }
    }

    fn checked_mul(&self, arg: u8) -> Result<Restrict<u8>, u8> {
        match self.0.checked_mul(arg) {
            Some(number) => Ok(Restrict(number)),
            None => Err(arg),
        }
    }
}

impl RestrictedMath for Restrict<u16> {
    type Arg = u16;

    type Value = u16;

    ghost added = { λ a b r. OkIff r (a + b < 2 ^ 16) (a + b) × IfErr r (λ e. e ≡ b) };

    ghost subtracted = { λ a b r. OkIff r (b ≤ a) (a - b) × IfErr r (λ e. e ≡ b) };

    ghost multiplied = { λ a b r. OkIff r (a * b < 2 ^ 16) (a * b) × IfErr r (λ e. e ≡ b) };

    fn checked_add(&self, arg: u16) -> Result<Restrict<u16>, u16> {
        match self.0.checked_add(arg) {
            Some(number) => Ok(Restrict(number)),
            None => Err(arg),
        }
    }

    fn checked_sub(&self, arg: u16) -> Result<Restrict<u16>, u16> {
        match self.0.checked_sub(arg) {
            Some(number) => Ok(Restrict(number)),
            None => Err(arg),
        }
    }

    fn checked_mul(&self, arg: u16) -> Result<Restrict<u16>, u16> {
        match self.0.checked_mul(arg) {
            Some(number) => Ok(Restrict(number)),
            None => Err(arg),
        }
    }
}

impl RestrictedMath for Restrict<usize> {
    type Arg = usize;

    type Value = usize;

    ghost added = { λ a b r. OkIff r (a + b < 2 ^ 64) (a + b) × IfErr r (λ e. e ≡ b) };

    ghost subtracted = { λ a b r. OkIff r (b ≤ a) (a - b) × IfErr r (λ e. e ≡ b) };

    ghost multiplied = { λ a b r. OkIff r (a * b < 2 ^ 64) (a * b) × IfErr r (λ e. e ≡ b) };

    fn checked_add(&self, arg: usize) -> Result<Restrict<usize>, usize> {
        match self.0.checked_add(arg) {
            Some(number) => Ok(Restrict(number)),
            None => Err(arg),
        }
    }

    fn checked_sub(&self, arg: usize) -> Result<Restrict<usize>, usize> {
        match self.0.checked_sub(arg) {
            Some(number) => Ok(Restrict(number)),
            None => Err(arg),
        }
    }

    fn checked_mul(&self, arg: usize) -> Result<Restrict<usize>, usize> {
        match self.0.checked_mul(arg) {
            Some(number) => Ok(Restrict(number)),
            None => Err(arg),
        }
    }
}

impl<R: RestrictedMath> RestrictedMath for Result<R, R::Arg> {
    type Arg = R::Arg;

    type Value = R::Value;

    ghost added = { λ a b r. MatchResult a (λ x. R.added x b r) (λ e. r ≡ Err e) };

    ghost subtracted = { λ a b r. MatchResult a (λ x. R.subtracted x b r) (λ e. r ≡ Err e) };

    ghost multiplied = { λ a b r. MatchResult a (λ x. R.multiplied x b r) (λ e. r ≡ Err e) };

    fn checked_add(&self, arg: R::Arg) -> Result<Restrict<R::Value>, R::Arg> {
        match self {
            Ok(number) => number.checked_add(arg),
            Err(earlier) => Err(*earlier),
        }
    }

    fn checked_sub(&self, arg: R::Arg) -> Result<Restrict<R::Value>, R::Arg> {
        match self {
            Ok(number) => number.checked_sub(arg),
            Err(earlier) => Err(*earlier),
        }
    }

    fn checked_mul(&self, arg: R::Arg) -> Result<Restrict<R::Value>, R::Arg> {
        match self {
            Ok(number) => number.checked_mul(arg),
            Err(earlier) => Err(*earlier),
        }
    }
}
