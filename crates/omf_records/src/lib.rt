//! Typed contents of the records of an object module.
//!
//! `view` decodes a record's contents and borrows from them, or returns their first layout fault. `put_rec` writes contents in
//! their shortest encoding. The items that a record repeats are an iterator, `Items`, which gives each with its offset in the
//! record: match a `Rec` by reference, and iterate over `items.iter()`. `view_known` decodes contents that were checked before: it
//! does not read the subrecords of a FIXUPP. `unread_fixups` and `plain_data` decode a FIXUPP and an LEDATA without a `Rec`.
//!
//! ```
//! let raw = RawRecord { kind: 0x96, body: b"\x00\x01T", number: 1, start: 6 };
//! if let Rec::Names(names) = &view(raw)? {
//!     for name in names.iter() {
//!         // name.item.0 is the name's bytes, name.within its offset in the record
//!     }
//! }
//! ```
//!
//! `specs/Values` defines the values, `specs/Records` and `specs/Entries` the layout of each record by means of `specs/Layout`, and
//! `specs/Shortest` the shortest contents. The readings of the same names (`RecordReaders`, `EntryReaders`, `FieldReaders`) compute
//! the layouts, and `laws` relates both. A new record type needs a layout and its reading, a row in `layout_of` and `whole_of`, a case
//! of `Contents` and of `Rec`, a function in `viewing` with its arm in `dispatch`, and one in `writing`.
#![tactic(auto)]

mod acbp;
mod at;
mod bits;
mod direct;
mod direct_fixup;
mod dispatch;
pub mod edges;
mod entry;
mod field;
mod fixup;
mod here;
mod item;
pub mod laws;
mod location;
mod method;
mod passing;
mod put;
mod record;
pub mod rows;
mod subrecord;
mod unread;
mod viewing;
mod writing;

pub use acbp::{Acbp, Alignment, Combination};
pub use at::{At, LayoutFault};
pub use bits::{FixByte, Locat, ThreadByte};
pub use direct_fixup::DirectFixup;
pub use dispatch::{plain_data, unread_fixups, view, view_known};
pub use entry::{Communal, CommunalSize, Extern, Member, Public};
pub use fixup::{FIXUP_LIMIT, put_fixup, put_reference};
pub use here::Here;
pub use item::{Cursor, Item, Items};
pub use location::LocationType;
pub use method::{FrameCode, Kind};
pub use record::{Blocks, PlainData, Rec, Segment};
pub use subrecord::{Part, Reference, Subrecord};
pub use unread::Unread;
pub use writing::put_rec;
