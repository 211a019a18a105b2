//! The language of a transformation's text (QVT 1.3, 8.4): its tokens, its productions, the trees that
//! they make and the laws of its beginnings; readers of tokens as definitions, which are exact for it.
#![tactic(auto)]

pub mod laws;
pub mod named;
pub mod token;

pub use qvt_words::class;
