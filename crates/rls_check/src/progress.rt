//! What is told of long work while it lasts.

/// Whoever is told how far the work along the order has come. What comes of the work is the same, whatever it does.
pub trait Progress {
    /// So many transactions are done. It is called for each transaction or statement, and has to cost little.
    fn done(&mut self, transactions: usize);
}

/// Whoever needs no telling.
#[derive(Clone, Copy)]
pub struct Silent;

impl Progress for Silent {
    fn done(&mut self, _transactions: usize) {}
}
