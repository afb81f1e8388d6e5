//! Which words of memory lie in areas of one length, and which words are soiled.

mod areas;
mod bits;
mod ring_words;
mod soiled;

pub use areas::Areas;
pub use soiled::SoiledWords;
