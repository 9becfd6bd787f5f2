// Chunks of rows, one after the other, each read only where its statistics leave it open.
#![tactic(auto)]

mod chunk;
mod scanned;

pub use chunk::{ArrayChunk, Chunk};
pub use scanned::{ScannedChunks, scan_chunk, scan_chunks};
