//! The page size of a library that is made: the least with which its pages are numbered.

ghost use Rattle.std.specs.Prelude.{◌≡◌, ℕ, ◌<◌, true};
ghost use Rattle.std.specs.Bool.{OnFalse, OnTrue};
ghost use Rattle.std.specs.List.{AllByRecursion};
ghost use Rattle.omf_library.specs.Library.{is_page_size};
ghost use Rattle.omf_making.specs.Made.{ArePagesMany, pages_of};

use crate::making::Part;

/// The page sizes.
const PAGES: [usize; 12] = [
    16, 32, 64, 128, 256, 512, 1024, 2048, 4096, 8192, 16384, 32768,
];

/// Whether the pages of a library with this page size can be numbered: 65,536 at most, one of them for the header. No page size is 0.
fn is_numbered(page: usize, parts: &[Part]) -> bool
    ensures { OnFalse result (65536 < pages_of page parts.now) }
{
    if page == 0 {
        return true;
    }
    let mut left = 65_535usize;
    let mut rest = parts;
    while let [part, others @ ..] = rest {
        let pages = part.bytes.len().div_ceil(page);
        if left < pages {
            return false;
        }
        left -= pages;
        rest = others;
    }
    true
}

/// The least page size with which the pages can be numbered.
pub(crate) fn page_for(parts: &[Part]) -> Option<usize> {
    PAGES.iter().copied().find(|page| is_numbered(*page, parts))
}

/// Whether the pages are too many with each of these sizes that is less than a page.
fn are_too_many(sizes: &[usize], page: usize, parts: &[Part]) -> bool
    ensures { OnTrue result (AllByRecursion (λ p. p < page → 65536 < pages_of p parts.now) sizes.now) }
{
    let mut rest = sizes;
    while let [size, others @ ..] = rest {
        if *size < page && is_numbered(*size, parts) {
            return false;
        }
        rest = others;
    }
    true
}

/// Whether the pages are too many with each page size that is less than this one.
pub(crate) fn is_least(page: usize, parts: &[Part]) -> bool
    ensures { OnTrue result ((p : ℕ) → is_page_size p ≡ true → p < page → 65536 < pages_of p parts.now) }
{
    are_too_many(&PAGES, page, parts)
}

/// Whether the pages are too many with each of these sizes.
fn are_many(sizes: &[usize], parts: &[Part]) -> bool
    ensures { OnTrue result (AllByRecursion (λ p. 65536 < pages_of p parts.now) sizes.now) }
{
    let mut rest = sizes;
    while let [size, others @ ..] = rest {
        if is_numbered(*size, parts) {
            return false;
        }
        rest = others;
    }
    true
}

/// Whether the pages are too many with each page size.
pub(crate) fn are_pages_many(parts: &[Part]) -> bool
    ensures { OnTrue result (ArePagesMany parts.now) }
{
    are_many(&PAGES, parts)
}
