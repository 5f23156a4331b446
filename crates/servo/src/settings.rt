//! The gains of one motor as they are asked for.
use notch::notch::Coefficients;

/// Gains as plain numbers, in range or not.
#[derive(Clone, Copy, Default)]
pub struct GainSettings {
    pub kp: i64,
    pub kd: i64,
    pub kv: i64,
    pub ka: i64,
    pub ki: i64,
    /// E: the error counts up to this size.
    pub error_limit: i64,
    /// G: the integrator's size. Where it is negative, reaching it trips the axis.
    // The sign stays in the number, as it comes in: a flag beside the size would be no plainer.
    pub integrator_limit: i64,
    /// F: a larger following error trips the axis.
    pub following_limit: i64,
    /// O: no output is larger.
    pub output_limit: i64,
    pub notch: Coefficients,
}
