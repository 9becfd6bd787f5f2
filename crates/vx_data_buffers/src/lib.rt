// Columns and arrays out of buffers of bytes, laid out as in the Arrow columnar format.
#![tactic(auto)]

mod array;
mod buffer;
mod bytes;
mod column;
mod counts;
mod error;
mod fault;
mod floats;
mod laid;
mod leaves;
mod numbers;
mod packed;
mod read_back;
mod rows;
mod spans;
mod spelled;
mod validity;
mod values;

pub use array::array_of;
pub use buffer::Buffer;
pub use column::column_of;
pub use error::{BufferError, LayoutError};
pub use laid::buffers_of;
