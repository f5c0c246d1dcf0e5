//! The ports of a primitive.

ghost use Rattle.std.specs.Prelude.{◌≡◌};
ghost use Rattle.cx_prim.specs.PortNames.{text_of};

/// The name of a port of a primitive.
#[derive(Clone, Copy, Debug, PartialEq, Eq)]
pub enum PortName {
    In,
    Out,
    Left,
    Right,
    Cond,
    Tru,
    Fal,
    WriteEn,
    ContentEn,
    Go,
    Done,
    Addr0,
    Addr1,
    Addr2,
    Addr3,
    WriteData,
    ReadData,
    OutQuotient,
    OutRemainder,
}

/// What a port is to its primitive.
#[derive(Clone, Copy, Debug, PartialEq, Eq)]
pub enum Side {
    /// An input of one bit that is 0 where nothing drives it. It is looked at in every cycle.
    Enable,
    /// Another input. It is looked at where the primitive demands it or an output reads it.
    Plain,
    /// An output that may read inputs.
    Output,
    /// An output that reads the state alone.
    Registered,
}

/// A port: its name, what it is to its primitive, and its width in bits.
#[derive(Clone, Copy, Debug, PartialEq, Eq)]
pub struct PortRow {
    pub name: PortName,
    pub side: Side,
    pub width: u8,
}

/// An address is not below the size of its dimension. `port` is the number of the first such address port.
#[derive(Clone, Copy, Debug, PartialEq, Eq)]
pub struct OutOfRange {
    pub port: usize,
}

impl PortName {
    /// The port's name as designs write it.
    pub fn text(self) -> &'static str
        ensures value { result.now ≡ text_of self }
    {
        match self {
            PortName::In => "in",
            PortName::Out => "out",
            PortName::Left => "left",
            PortName::Right => "right",
            PortName::Cond => "cond",
            PortName::Tru => "tru",
            PortName::Fal => "fal",
            PortName::WriteEn => "write_en",
            PortName::ContentEn => "content_en",
            PortName::Go => "go",
            PortName::Done => "done",
            PortName::Addr0 => "addr0",
            PortName::Addr1 => "addr1",
            PortName::Addr2 => "addr2",
            PortName::Addr3 => "addr3",
            PortName::WriteData => "write_data",
            PortName::ReadData => "read_data",
            PortName::OutQuotient => "out_quotient",
            PortName::OutRemainder => "out_remainder",
        }
    }
}
