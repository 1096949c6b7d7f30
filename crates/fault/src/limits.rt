// The limits of the engine, each once. specs/Limits.antt has a definition of the same name.
// Code and proofs of every layer speak of these names, so that another value is one edit here and one there.
ghost use Rattle.std.specs.Prelude.{◌≡◌};
ghost use Rattle.fault.specs.Limits.{limits};

// Script text.
pub const SCRIPT_BYTES: usize = 16_384;

pub const NAME_BYTES: usize = 32;

pub const STRING_BYTES: usize = 255;

pub const INTEGER_MAX: u64 = 9_223_372_036_854_775_807;

pub const DEPTH: usize = 24;

// Names and types.
pub const COLUMNS: usize = 16;

pub const VARIABLES: usize = 64;

pub const ATTRIBUTES: usize = 512;

// Prepared scripts.
pub const NODES: usize = 16_384;

pub const INSTRUCTIONS: usize = 4_096;

pub const LITERALS: usize = 8_192;

// The row store.
pub const TABLES: usize = 256;

pub const CELLS: usize = 4_096;

// Texts and lines.
pub const TEXT_BYTES: usize = 65_536;

pub const LINE_BYTES: usize = 4_200;

pub const READ_STRINGS: usize = 1_024;

pub const READ_BYTES: usize = 32_768;

// The constants together, as one value.
#[derive(Clone, Copy)]
pub struct Limits {
    pub script_bytes: usize,
    pub name_bytes: usize,
    pub string_bytes: usize,
    pub integer_max: u64,
    pub depth: usize,
    pub columns: usize,
    pub variables: usize,
    pub attributes: usize,
    pub nodes: usize,
    pub instructions: usize,
    pub literals: usize,
    pub tables: usize,
    pub cells: usize,
    pub text_bytes: usize,
    pub line_bytes: usize,
    pub read_strings: usize,
    pub read_bytes: usize,
}

// Every limit: each constant is the definition of its name.
pub fn all_limits() -> Limits
    ensures { result ≡ limits }
{
    Limits {
        script_bytes: SCRIPT_BYTES,
        name_bytes: NAME_BYTES,
        string_bytes: STRING_BYTES,
        integer_max: INTEGER_MAX,
        depth: DEPTH,
        columns: COLUMNS,
        variables: VARIABLES,
        attributes: ATTRIBUTES,
        nodes: NODES,
        instructions: INSTRUCTIONS,
        literals: LITERALS,
        tables: TABLES,
        cells: CELLS,
        text_bytes: TEXT_BYTES,
        line_bytes: LINE_BYTES,
        read_strings: READ_STRINGS,
        read_bytes: READ_BYTES,
    }
}
