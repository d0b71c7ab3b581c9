// What is wrong with a step.
use av1_geometry::Rule;

/// Why a step isn't written.
#[derive(Clone, Copy, Debug, PartialEq, Eq)]
pub enum StepFault {
    /// It would begin after more than 2^28 bits.
    TooLong,

    /// It breaks this rule, and none of a lower number.
    Broken(Rule),
}
