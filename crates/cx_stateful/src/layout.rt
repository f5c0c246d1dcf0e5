//! The shape of a memory, and the way from addresses to a word.

ghost use Rattle.std.specs.Prelude.{◌≡◌, IsTrue, ◌<◌, ◌≤◌, ◌^◌, None, Some, IfOk, IfErr, length, take, slice_get};
ghost use Rattle.cx_text.specs.Loading as loading;
ghost use Rattle.cx_prim.specs.MemoryRows as rows;
ghost use Rattle.cx_prim.specs.MemoryRows.{IsLayout, address_ports, first_beyond, are_sizes};

use cx_bits::Bits;
use cx_prim::{OutOfRange, PortName, PortRow, Side, input_at, number_at};

/// The width, the sizes and the address widths of a memory of up to four dimensions.
#[derive(Clone, Copy, Debug, PartialEq, Eq)]
pub struct Layout {
    pub width: u8,
    pub dimensions: usize,
    pub sizes: [u64; 4],
    pub address_widths: [u64; 4],
    pub count: u32,
    pub ghost few: { dimensions ≤ 4 },
    pub ghost within: { IsLayout width (take dimensions sizes) (take dimensions address_widths) },
    pub ghost counted: { count ≡ loading.word_count (take dimensions sizes) },
}

impl Layout {
    /// The sizes, the outermost first.
    pub fn sizes(&self) -> &[u64]
        ensures value { result.now ≡ take self.now.dimensions self.now.sizes }
    {
        &self.sizes[..self.dimensions]
    }

    /// An address port.
    pub fn address_port(&self, n: usize) -> PortRow
        requires within { n < self.now.dimensions }
        ensures value { slice_get (address_ports (take self.now.dimensions self.now.address_widths)) n ≡ Some result }
    {
        let name = match n {
            0 => PortName::Addr0,
            1 => PortName::Addr1,
            2 => PortName::Addr2,
            _ => PortName::Addr3,
        };
        PortRow {
            name,
            side: Side::Plain,
            width: self.address_widths[n] as u8,
        }
    }
}

/// Whether a value stands at each address port.
pub fn have_addresses(sizes: &[u64], inputs: &[Option<Bits>]) -> bool
    ensures value { result ≡ rows.have_addresses sizes.now 0 inputs.now }
{
    for port in 0..sizes.len() {
        if input_at(inputs, port).is_none() {
            return false;
        }
    }
    true
}

/// The number of the word at the addresses, in row-major order. Refused at the first address that is not below its size.
pub fn locate(sizes: &[u64], inputs: &[Option<Bits>]) -> Result<usize, OutOfRange>
    requires { IsTrue (are_sizes sizes.now) }
    ensures ok { IfOk result (λ number. first_beyond sizes.now 0 inputs.now ≡ None) }
    ensures value { IfOk result (λ number. number ≡ rows.word_number sizes.now 0 inputs.now) }
    ensures within { IfOk result (λ number. number < loading.word_count sizes.now) }
    ensures err { IfErr result (λ fault. first_beyond sizes.now 0 inputs.now ≡ Some fault.port) }
{
    let mut number: usize = 0;
    for (port, size) in sizes.iter().enumerate() {
        let address = number_at(inputs, port);
        if address >= u128::from(*size) {
            return Err(OutOfRange { port });
        }
        number = number * *size as usize + address as usize;
    }
    Ok(number)
}
