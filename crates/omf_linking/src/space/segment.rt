//! Segments of images in memory.

use crate::space::stretch::Owner;
use omf_image::Image;

/// A segment of an image at an address.
#[derive(Clone, Copy)]
pub struct PlacedSegment<'a> {
    /// Its module and index; the image has its bytes as the segment of this index.
    pub owner: Owner,
    /// Whether it is common (C = 6, TIS OMF 1.1, "SEGDEF").
    pub common: bool,
    /// The address of its offset 0.
    pub address: u32,
    /// The image.
    pub image: &'a Image,
}
