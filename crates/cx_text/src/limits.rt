//! The limits on what the program takes. Each stands here once.

/// Bytes of a design's text.
pub const DESIGN_BYTES: usize = 1_048_576;
/// Bytes of a data file.
pub const DATA_BYTES: usize = 16_777_216;
/// Bytes of a Verilog text.
pub const VERILOG_BYTES: usize = 83_886_080;
/// Bytes of an identifier or of a string between its quotes.
pub const NAME_BYTES: usize = 255;
/// Levels of nesting: of control, of guards, and of Verilog expressions, each by itself.
pub const NESTING: usize = 64;
/// Bits of the widest port, and of the widest net.
pub const WIDTH_BITS: u8 = 128;
/// Bits of the widest word of a data file.
pub const DATA_WORD_BITS: u8 = 64;
/// Cells of a component.
pub const CELLS: usize = 4_096;
/// Groups of a component, with one for each `invoke`.
pub const GROUPS: usize = 4_096;
/// Instances of components in the tree of `main`.
pub const INSTANCES: u64 = 4_096;
/// Depth of the instance tree, in which `main` alone is 1.
pub const INSTANCE_DEPTH: u64 = 32;
/// Memory words over the instance tree of a design, and array words over that of a Verilog text.
pub const MEMORY_WORDS: u64 = 4_194_304;
/// Occurrences in one island, counted before repetition.
pub const OCCURRENCES: u64 = 4_096;
/// The first length of an island, in cycles, and the first count of a `repeat`, that is too large.
pub const REPETITIONS: u64 = 4_294_967_296;
/// Weight of a design.
pub const WEIGHT: u64 = 65_536;
/// Size of a design that `compile` takes: the sum over its components of their size and 1.
pub const COMPILE_SIZE: u64 = 16_384;
/// The greatest budget word, in turns or cycles, and the greatest seed.
pub const BUDGET: u64 = 1_000_000_000_000;
/// Nets over the instance tree of a Verilog text, with ports and registers.
pub const VERILOG_NETS: u64 = 4_194_304;
/// Instances in the tree of a Verilog text.
pub const VERILOG_INSTANCES: u64 = 131_072;
