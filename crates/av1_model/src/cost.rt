//! Laws of costs.

ghost use Rattle.std.specs.Prelude.{◌≤◌};
ghost use Rattle.av1_model.specs.Interval.{Interval, IsInterval, Token, IsToken, narrow};
ghost use Rattle.av1_model.specs.Eighths.{eighths};

/// A symbol never costs less than nothing, in eighths of a bit (rav1e's `ec.rs`, `tell_frac`).
pub fn law_of_costs()
    ensures rise { (i : Interval) (t : Token) → IsInterval i → IsToken t → eighths i ≤ eighths (narrow i t) }
{}
