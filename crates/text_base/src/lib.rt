//! The base of every layer: files and a sink that callers pass in, numbers in digits, and lines of words. Tests: `text_tables`.
#![tactic(auto)]

pub mod digits;
pub mod laws;
pub mod lines;
pub mod memory;
pub mod outside;
pub mod writer;

pub use digits::{DigitFault, hex_glyph, read_dec, read_hex};
pub use lines::{Line, LineReader, Words};
pub use memory::{MemFiles, MemSink};
pub use outside::{FileFault, Files, Sink, SinkFault, put_all};
pub use writer::{LineWriter, hex_glyphs};
