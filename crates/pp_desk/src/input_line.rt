//! What comes next from an input that is read line by line.

use pp_base::Text;

/// What comes next from an input that is read line by line, where nothing stops it.
#[derive(Debug, Drop)]
pub enum InputLine {
    /// A line without the line end behind it. A carriage return before the line end is a byte of the line.
    Line(Text),
    /// A line of more than 65,536 bytes, which was passed over.
    TooLong,
    /// The input has ended, and all its lines were given.
    End,
    /// 16,777,216 bytes of the input were read, and no line ends in what is left of them.
    InputTooLong,
}
