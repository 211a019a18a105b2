//! The files of the working folder.

use qvt_base::lists::Bytes;
use qvt_base::outside::{Files, ReadAnswer};
use std::alloc::Global;

/// The bytes of a file that has so many at most.
pub fn file_bytes<F: Files>(alloc: Global, files: &mut F, name: &str, limit: u32) -> Option<Bytes> {
    match files.read(alloc, name, limit) {
        ReadAnswer::Found(bytes) => Some(bytes),
        _ => None,
    }
}
