//! The runs of an image and their bytes.

ghost use Rattle.std.specs.Prelude.{◌≡◌, ◌++◌, OnOk, IfOk, flat_map, map};
ghost use Rattle.omf_image.specs.Inner.Joined.{runs_of};
ghost use Rattle.omf_image.specs.Overlay.{byte_at, spanned};
ghost use Rattle.omf_c.specs.Runs.{bytes_over, run_row, shown_of};

use crate::rows::RunRow;
use omf_image::Image;
use std::alloc::{AllocError, Global};
use std::marker::Model;

/// The runs of an image, and the bytes of all of them.
#[derive(Drop)]
pub(crate) struct Shown {
    pub(crate) runs: Vec<RunRow>,
    pub(crate) bytes: Vec<u8>,
}

impl Model for Shown {
    ghost use Rattle.omf_c.specs.Runs.{Shown as ShownModel};

    ghost Value = { ShownModel };

    ghost view = { λ s. record { runs = s.runs.items; bytes = s.bytes.items } };
}

/// A run of a segment from an offset on.
fn run_row(segment: u16, first: u32, bytes: &[u8]) -> RunRow
    ensures { result ≡ run_row segment (spanned first bytes.now) }
{
    RunRow {
        size: bytes.len() as u64,
        segment: u32::from(segment),
        offset: first,
    }
}

/// Appends the runs of a segment, and their bytes.
fn add_runs(
    runs: &mut Vec<RunRow>,
    laid: &mut Vec<u8>,
    image: &Image,
    segment: u16,
) -> Result<(), AllocError>
    ensures runs { OnOk result (runs.new.items ≡ runs.old.items ++ map (run_row segment) (runs_of image.now segment)) }
    ensures bytes { OnOk result (laid.new.items ≡ laid.old.items ++ flat_map (bytes_over (byte_at image.now segment)) (runs_of image.now segment)) }
{
    let mut k = 0;
    while let Some((first, bytes)) = image.run_with_bytes(segment, k) {
        laid.extend_from_slice(bytes)?;
        runs.push(run_row(segment, first, bytes))?;
        k += 1;
    }
    Ok(())
}

/// The runs of the segments 1 to `segments` of an image.
pub(crate) fn shown_of(alloc: Global, image: &Image, segments: u16) -> Result<Shown, AllocError>
    ensures { IfOk result (λ s. s ≡ shown_of segments (byte_at image.now) (runs_of image.now)) }
{
    let mut runs = Vec::new(alloc);
    let mut laid = Vec::new(alloc);
    for before in 0..segments {
        add_runs(&mut runs, &mut laid, image, before + 1)?;
    }
    Ok(Shown { runs, bytes: laid })
}
