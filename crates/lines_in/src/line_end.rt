//! What follows a line.

/// How a line ends.
#[derive(Clone, Copy, Debug, PartialEq, Eq)]
pub enum LineEnd {
    /// The next line follows.
    Next,
    /// The line was `quit`.
    Quit,
    /// The run ends with this status: 4 where the device failed, 5 where it is damaged, 6 where the output failed.
    End(u8),
}
