// What a number of a file is made of.
ghost use Rattle.std.specs.Prelude.{◌≡◌, true};
ghost use Rattle.std.specs.List.{list_all};
ghost use Rattle.std.specs.Char.{is_ascii_digit};

/// A power of ten: 10 to the power of `size`, or of `-size` if there is a minus.
#[derive(Clone, Copy, Debug, PartialEq, Eq)]
pub struct Exponent {
    pub minus: bool,
    pub size: u16,
}

/// The digits of a decimal before and after the point, which borrow its text, times a power of ten.
#[derive(Clone, Copy)]
pub struct Decimal<'a> {
    pub minus: bool,
    pub whole: &'a [u8],
    pub fraction: &'a [u8],
    pub exponent: Exponent,
    ghost whole_digits: { list_all is_ascii_digit whole.now ≡ true },
    ghost fraction_digits: { list_all is_ascii_digit fraction.now ≡ true },
}

/// A whole number times 2 to the power of `power`, divided by 2 to the power of `scale`.
#[derive(Clone, Copy, Debug, PartialEq, Eq)]
pub struct Binary {
    pub minus: bool,
    pub significand: u64,
    pub power: u16,
    pub scale: u16,
}

/// A number of a mesh file, exact.
#[derive(Clone, Copy)]
pub enum Number<'a> {
    Decimal(Decimal<'a>),
    Binary(Binary),
}
