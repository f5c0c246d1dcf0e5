//! What a name stands for.

/// What a name stands for in a module, with the width in bits.
#[derive(Clone, Copy, Debug, PartialEq, Eq)]
pub enum Meaning {
    Input(u8),
    Output(u8),
    Wire(u8),
    Register(u8),
    /// An array, with the width of a word.
    Array(u8),
    Nothing,
}
