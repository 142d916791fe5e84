//! Errors that are known by a number and a place.
ghost use Rattle.std.specs.Prelude.{◌≡◌, ℕ};

/// An error with a number, by which it is known outside, and the place where it lies.
pub trait Numbered {
    ghost numbered: { Self → ℕ × ℕ };

    /// The number by which the error is known.
    fn number(self) -> u8
        ensures { result ≡ (numbered self).0 };

    /// Where it lies: a length, a byte, an index or a record, as the case says.
    fn place(self) -> usize
        ensures { result ≡ (numbered self).1 };
}

/// The number and the place.
pub fn told<E: Numbered + Copy>(error: E) -> (u8, usize)
    ensures { result ≡ E.numbered error }
{
    (error.number(), error.place())
}
