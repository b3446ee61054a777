// Why a call is turned down: the reasons of documents 01 and 02, each with its number, and the detail.
ghost use Rattle.std.specs.Prelude.{◌≡◌};
ghost use Rattle.field.specs.Reasons.{number_of};

// The reasons, in the order of their numbers.
#[derive(Clone, Copy, Debug, PartialEq, Eq)]
pub enum Cause {
    // The sheet is too long, or its first line is missing or out of form.
    Sheet = 1,
    // p is none of the three primes.
    Prime = 2,
    // n is no number of rows that p has, or too great for a sheet.
    Rows = 3,
    // l exceeds n.
    Publics = 4,
    // A later line of the sheet is missing, extra or out of form.
    Line = 5,
    // A lent buffer's length differs from the one due.
    Length = 6,
    // A number is p or more.
    Element = 7,
    // A label is 3n or more.
    Label = 8,
    // A gate fails.
    Gate = 9,
    // A wire value differs from that of a lower position of the same label.
    Copy = 10,
    // A factor of some D(i) is 0.
    Factor = 11,
    // The list of polynomials is empty or too long.
    List = 12,
    // A number of the list names no polynomial.
    Polynomial = 13,
    // A row below l is no public row.
    PublicRow = 14,
    // The two sheets differ in p or in n.
    Unlike = 15,
    // p is retired.
    Retired = 16,
    // The block length does not divide n, or is no power of two.
    Block = 17,
}

impl Cause {
    // The number of document 01, or of document 02.
    pub fn number(self) -> u32
        ensures { result ≡ number_of self }
    {
        self as u32
    }
}

// The first reason that applies, and its detail.
#[derive(Clone, Copy, Debug, PartialEq, Eq)]
pub struct Refusal {
    pub cause: Cause,
    pub detail: u32,
}

// The outcome of a call that is turned down.
pub fn refused<T>(cause: Cause, detail: u32) -> Result<T, Refusal>
    ensures { result ≡ Err (record { cause = cause; detail = detail }) }
{
    Err(Refusal { cause, detail })
}
