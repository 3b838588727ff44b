//! Elements of inputs and outputs in words and lines: a port and a place in brackets, as `out[1,0]`.
//!
//! - `reading`: a word that tells an element is read, exactly where it is one (`specs/Elements.antt`)
//! - `lines`: the lines that lineage and forward use come to, byte by byte (`specs/Lines.antt`)
//! - `laws`: what is read is exactly what is printed

pub mod laws;
mod lines;
mod reading;

pub use lines::label_lines;
pub use reading::read_element;
