//! The parts of a viewpoint that can be asked for.

/// What is asked of a viewpoint (BCF API 3.0, 4.5.3, 4.5.5 to 4.5.7).
#[derive(Clone, Copy, Debug, PartialEq, Eq)]
pub enum ViewPart {
    /// The viewpoint itself, without its components.
    Whole,
    /// The components that it selects.
    Selection,
    /// The colors and the components that have them.
    Coloring,
    /// The components that it shows or hides.
    Visibility,
}
