/// Why there are no delays.
#[derive(Clone, Copy, Debug, PartialEq, Eq)]
pub enum DelayError {
    /// No slave is a clock.
    NoReference,
    /// The position of the first measuring slave that has no measuring slave above it, or a clockless
    /// slave with several behind it on the way there. The first measuring slave of all is never
    /// that.
    Unmeasurable(u16),
}
