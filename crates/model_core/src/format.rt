//! The forms in which beta functions are printed.

/// A printed form.
#[derive(Clone, Copy, Debug, PartialEq, Eq)]
pub enum Format {
    Text,
    Latex,
    Csv,
}
