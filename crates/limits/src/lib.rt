// Document 01's limits and sizes as numbers of the code; the definition's stand in definition/specs/Limits.antt.
#![tactic(auto)]

// The greatest counts of an image, the greatest literal width in bits, and the nesting of groups.
pub const CONCATENATIONS: u32 = 16;

pub const COMPONENTS: u32 = 256;

pub const RECORDS: u32 = 2048;

pub const TEXT: u32 = 16384;

pub const LITERAL_BYTES: u32 = 8192;

pub const WIDTH: u32 = 4096;

pub const DEPTH: u32 = 32;

// The answer area: its head, and each concatenation and component.
pub const HEAD_SIZE: usize = 32;

pub const CONCATENATION_SIZE: usize = 20;

pub const COMPONENT_SIZE: usize = 72;

// An area that is long enough for any image.
pub const ANY_AREA: usize = HEAD_SIZE + CONCATENATION_SIZE * 16 + COMPONENT_SIZE * 256 + 8192;

// How much of an input is judged: a mode byte, and one byte more than the largest image has.
pub const MAX_INPUT: usize = 51306;

// No listing is longer.
pub const MAX_LISTING: usize = 140577;
