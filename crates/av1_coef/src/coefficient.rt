// The types that hold a coefficient.
ghost use Rattle.std.specs.Prelude.{◌≡◌, ℤ};

/// A quantized coefficient of a transform: `i16` for 8 bits a sample, `i32` for more, as in rav1e.
pub trait Coefficient: Copy {
    ghost value: { Self → ℤ };

    /// The coefficient as a number.
    fn to_i32(self) -> i32
        ensures { result ≡ value self };
}

impl Coefficient for i16 {
    ghost value = { λ x. x };

    fn to_i32(self) -> i32 {
        i32::from(self)
    }
}

impl Coefficient for i32 {
    ghost value = { λ x. x };

    fn to_i32(self) -> i32 {
        self
    }
}
