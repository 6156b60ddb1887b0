//! Laws of the definitions. Each is the contract of an empty function.

ghost use Rattle.omf_image.specs.Laws.{BlocksAreRepeated, SizesAreLengths, BlocksAreRead, LengthsAreDecided, BlocksAreExpanded, BlockFaultsAreLeast, BlocksAreMeasured, LimitsMayGrow, LastPieceWins, RunsAreMaximal, ImagesAreOverlays, NoBytesCoverNothing, CoveredPiecesAreLost, SamePlacesAreLost};

/// The bytes of a block are those of its contents, taken as often as its repeat count says.
pub fn blocks_are_repeated()
    ensures { BlocksAreRepeated }
{}

/// The size of blocks is the number of bytes they expand to.
pub fn sizes_are_lengths()
    ensures { SizesAreLengths }
{}

/// Bytes spell exactly one list of blocks, or have a first fault; reading finds it.
pub fn blocks_are_read()
    ensures { BlocksAreRead }
{}

/// The computed length is the size of blocks within the limits, or their first fault.
pub fn lengths_are_decided()
    ensures { LengthsAreDecided }
{}

/// The blocks that bytes spell are those computed, without a fault; the bytes computed are those of the blocks.
pub fn blocks_are_expanded()
    ensures { BlocksAreExpanded }
{}

/// No fault of the blocks is computed exactly if the bytes spell blocks; a fault that is computed is the first of the blocks' faults.
pub fn block_faults_are_least()
    ensures { BlockFaultsAreLeast }
{}

/// For bytes that spell blocks, a fault of the length is computed exactly if the blocks expand to more bytes than the limit.
pub fn blocks_are_measured()
    ensures { BlocksAreMeasured }
{}

/// Blocks within some limits are within all larger limits.
pub fn limits_may_grow()
    ensures { LimitsMayGrow }
{}

/// One more piece sets the bytes that it covers, and leaves all others unchanged.
pub fn last_piece_wins()
    ensures { LastPieceWins }
{}

/// The computed runs are all the maximal covered intervals, in ascending order.
pub fn runs_are_maximal()
    ensures { RunsAreMaximal }
{}

/// In an image made by laying pieces in turn, the byte at a place is that of the last piece that covers it, and the maximal covered
/// intervals are those of the pieces together.
pub fn images_are_overlays()
    ensures { ImagesAreOverlays }
{}

/// An empty piece covers nothing.
pub fn no_bytes_cover_nothing()
    ensures { NoBytesCoverNothing }
{}

/// Pieces laid before others change neither bytes nor runs if the others cover all their places.
pub fn covered_pieces_are_lost()
    ensures { CoveredPiecesAreLost }
{}

/// If pieces are laid before others over the same intervals, the image is that of the others alone.
pub fn same_places_are_lost()
    ensures { SamePlacesAreLost }
{}
