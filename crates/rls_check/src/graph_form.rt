//! How a graph is written.

/// A language of pictures.
#[derive(Clone, Copy)]
pub enum Picture {
    Mermaid,
    Dot,
}

/// As lines, or as a picture.
#[derive(Clone, Copy)]
pub struct GraphForm {
    pub picture: Option<Picture>,
    /// Whether a picture has all transactions, or those with an rw-antidependency.
    pub all: bool,
}
