//! How pieces are dealt to lanes.

/// To which lane each piece goes. The pieces of a lane come in rising order.
#[derive(Clone, Copy, Debug, Drop, PartialEq, Eq)]
pub enum Deal {
    /// Piece `i` goes to lane `i % n`, where there are `n` lanes.
    Round,
    /// All pieces go to lane 0.
    First,
}
