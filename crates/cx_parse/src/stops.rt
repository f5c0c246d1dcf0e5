//! Why reading stops.

/// Why reading stops. A number tells how many tokens are left, from the one on at which it stops.
#[derive(Clone, Copy)]
pub enum Stop {
    Unexpected(usize),
    TooDeep(usize),
    Memory,
}
