//! The packed bits of THREADs and FIXUPs (TIS OMF 1.1, "FIXUPP"). Each type keeps all bits of its field.
ghost use Rattle.std.specs.Prelude.{◌≡◌, ◌<◌, ◌≤◌, ◌+◌, ◌*◌, [], IfOk, if◌then◌else◌};
ghost use Rattle.omf_frame.specs.Bytes.{bits};
ghost use Rattle.omf_records.specs.Entries.{is_frame_method, wrong_methods, wrong_thread, wrong_location};
ghost use Rattle.omf_records.specs.Location.{location};
ghost use Rattle.omf_records.specs.Methods.{frame_code, frame_number, judged, kind_number, kind_of, refusal};
ghost use Rattle.omf_records.specs.Values.{thread_is_frame, thread_method, is_segment_relative, location_type, location_offset, frame_bits, target_bits};

use crate::location::LocationType;
use crate::method::{FrameCode, Kind};
use crate::subrecord::Reference;
use omf_frame::Reason;
use std::marker::Model;

/// What the index of a target method counts: segments, groups or externals.
#[inline(always)]
fn kind_of(method: u8) -> Kind
    ensures { result ≡ kind_of method }
{
    match method {
        0 => Kind::Segment,
        1 => Kind::Group,
        2.. => Kind::External,
    }
}

/// The frame method with a number.
#[inline(always)]
fn frame_code(method: u8) -> FrameCode
    ensures { result ≡ frame_code method }
{
    match method {
        0 => FrameCode::Of(Kind::Segment),
        1 => FrameCode::Of(Kind::Group),
        2 => FrameCode::Of(Kind::External),
        4 => FrameCode::Location,
        3 | 5.. => FrameCode::Target,
    }
}

/// The number of a target method.
#[inline(always)]
fn kind_number(kind: Kind) -> u8
    ensures { result ≡ kind_number kind }
{
    match kind {
        Kind::Segment => 0,
        Kind::Group => 1,
        Kind::External => 2,
    }
}

/// The number of a frame method.
#[inline(always)]
fn frame_number(frame: FrameCode) -> u8
    ensures { result ≡ frame_number frame }
{
    match frame {
        FrameCode::Of(kind) => kind_number(kind),
        FrameCode::Location => 4,
        FrameCode::Target => 5,
    }
}

/// Whether the frame method is F0, F1, F2, F4 or F5.
#[inline(always)]
fn is_frame_method(method: u8) -> bool
    ensures { result ≡ is_frame_method method }
{
    method < 3 || method == 4 || method == 5
}

/// The first byte of a THREAD: its kind in bit 6, its method in bits 4 to 2, its number in bits 1 and 0.
#[derive(Clone, Copy, Drop)]
pub struct ThreadByte(u8);

impl Model for ThreadByte {
    ghost use Rattle.std.specs.Prelude.{◌≡◌, ◌<◌, ℕ, []};
    ghost use Rattle.omf_records.specs.Entries.{wrong_thread};

    ghost Value = { ℕ };

    ghost view = { λ t. t.0 };

    ghost invariant = { λ t. (t.0 < 128) × (wrong_thread t.0 ≡ []) };

    ghost inverse = { λ n. record { 0 = n } };
}

impl ThreadByte {
    /// The first byte of a THREAD, unless its method is refused.
    #[inline(always)]
    pub fn new(byte: u8) -> Result<ThreadByte, Reason>
        requires { byte < 128 }
        ensures reason { refusal result ≡ wrong_thread byte }
        ensures ok { IfOk result (λ t. t ≡ byte) }
    {
        if byte / 64 % 2 == 1 {
            if !is_frame_method(byte / 4 % 8) {
                return Err(Reason::FrameMethod);
            }
        } else if byte / 4 % 4 == 3 {
            return Err(Reason::TargetMethod);
        }
        Ok(ThreadByte(byte))
    }

    /// The byte.
    #[inline(always)]
    pub fn byte(self) -> u8
        ensures { result ≡ self }
    {
        self.0
    }

    /// Whether the THREAD sets a frame thread; otherwise it sets a target thread.
    #[inline(always)]
    pub fn is_frame(self) -> bool
        ensures { result ≡ thread_is_frame self }
    {
        self.0 / 64 % 2 == 1
    }

    /// The number of the thread, 0 to 3.
    #[inline(always)]
    pub fn number(self) -> u8
        ensures { result ≡ bits self 0 2 }
    {
        self.0 % 4
    }

    /// The number of the method: 0, 1, 2, 4 or 5 of a frame thread, 0 to 2 of a target thread.
    #[inline(always)]
    pub(crate) fn method(self) -> u8
        ensures { result ≡ thread_method self }
    {
        if self.is_frame() {
            self.0 / 4 % 8
        } else {
            self.0 / 4 % 4
        }
    }

    /// The method of a frame thread.
    #[inline(always)]
    pub fn frame_method(self) -> FrameCode
        ensures { result ≡ frame_code (thread_method self) }
    {
        frame_code(self.method())
    }

    /// The method of a target thread.
    #[inline(always)]
    pub fn target_method(self) -> Kind
        ensures { result ≡ kind_of (thread_method self) }
    {
        kind_of(self.method())
    }
}

/// The first two bytes of a FIXUP, high byte first: bit M, the location type in bits 13 to 10, and the location's offset into the
/// data in bits 9 to 0.
#[derive(Clone, Copy, Drop)]
pub struct Locat(u16);

impl Model for Locat {
    ghost use Rattle.std.specs.Prelude.{◌≡◌, ◌≤◌, ℕ, []};
    ghost use Rattle.omf_records.specs.Entries.{wrong_location};

    ghost Value = { ℕ };

    ghost view = { λ l. l.0 };

    ghost invariant = { λ l. (32768 ≤ l.0) × (wrong_location l.0 ≡ []) };

    ghost inverse = { λ n. record { 0 = n } };
}

impl Locat {
    /// The first two bytes of a FIXUP, unless the location type is not defined, or may not be self-relative and is.
    #[inline(always)]
    pub fn new(number: u16) -> Result<Locat, Reason>
        requires { 32768 ≤ number }
        ensures reason { refusal result ≡ wrong_location number }
        ensures ok { IfOk result (λ l. l ≡ number) }
    {
        match LocationType::of(number / 1024 % 16) {
            None => Err(Reason::LocationType),
            Some(kind) if number / 16384 % 2 == 1 || kind.may_be_self_relative() => Ok(Locat(
                number,
            )),
            Some(_) => Err(Reason::SelfRelative),
        }
    }

    /// The first two bytes of a FIXUP, known to be valid.
    #[inline(always)]
    pub(crate) fn known(number: u16) -> Locat
        requires fixup { 32768 ≤ number }
        requires location { wrong_location number ≡ [] }
        ensures { result ≡ number }
    {
        Locat(number)
    }

    /// The two bytes as a number.
    #[inline(always)]
    pub fn number(self) -> u16
        ensures { result ≡ self }
    {
        self.0
    }

    /// Whether the FIXUP is segment-relative; otherwise it is self-relative.
    #[inline(always)]
    pub fn is_segment_relative(self) -> bool
        ensures { result ≡ is_segment_relative self }
    {
        self.0 / 16384 % 2 == 1
    }

    /// The location type.
    #[inline(always)]
    pub fn location_type(self) -> LocationType
        ensures { (location result).number ≡ location_type self }
    {
        match LocationType::of(self.0 / 1024 % 16) {
            Some(kind) => kind,
            None => unreachable!(),
        }
    }

    /// The location's offset into the data, 0 to 1,023.
    #[inline(always)]
    pub fn offset(self) -> u16
        ensures { result ≡ location_offset self }
    {
        self.0 % 1024
    }
}

/// The fix data byte: bit F, the frame's method or thread in bits 6 to 4, bit T, bit P, the target's method or thread in bits 1 and 0.
#[derive(Clone, Copy, Drop)]
pub struct FixByte(u8);

impl Model for FixByte {
    ghost use Rattle.std.specs.Prelude.{◌≡◌, ◌<◌, ℕ, []};
    ghost use Rattle.omf_records.specs.Entries.{wrong_methods};

    ghost Value = { ℕ };

    ghost view = { λ f. f.0 };

    ghost invariant = { λ f. (f.0 < 256) × (wrong_methods f.0 ≡ []) };

    ghost inverse = { λ n. record { 0 = n } };
}

impl FixByte {
    /// The fix data byte, unless a method is refused.
    #[inline(always)]
    pub fn new(byte: u8) -> Result<FixByte, Reason>
        ensures { result ≡ judged (wrong_methods byte) byte }
    {
        if byte / 128 == 0 && !is_frame_method(byte / 16 % 8) {
            return Err(Reason::FrameMethod);
        }
        if byte / 8 % 2 == 0 && byte % 4 == 3 {
            return Err(Reason::TargetMethod);
        }
        Ok(FixByte(byte))
    }

    /// The fix data byte, known to be valid.
    #[inline(always)]
    pub(crate) fn known(byte: u8) -> FixByte
        requires { wrong_methods byte ≡ [] }
        ensures { result ≡ byte }
    {
        FixByte(byte)
    }

    /// The fix data byte with these methods, and no thread.
    #[inline(always)]
    pub fn of(frame: FrameCode, target: Kind, has_displacement: bool) -> FixByte
        ensures { result ≡ 16 * frame_number frame + kind_number target + (if has_displacement then 0 else 4) }
    {
        let methods = 16 * frame_number(frame) + kind_number(target);
        FixByte(if has_displacement {
            methods
        } else {
            methods + 4
        })
    }

    /// The byte.
    #[inline(always)]
    pub fn byte(self) -> u8
        ensures { result ≡ self }
    {
        self.0
    }

    /// The frame method, if no thread gives the frame.
    #[inline(always)]
    pub fn frame_method(self) -> FrameCode
        ensures { result ≡ frame_code (frame_bits self) }
    {
        frame_code(self.0 / 16 % 8)
    }

    /// The target method, if no thread gives the target.
    #[inline(always)]
    pub fn target_method(self) -> Kind
        ensures { result ≡ kind_of (target_bits self) }
    {
        kind_of(self.0 % 4)
    }
}

impl Reference {
    ghost use Rattle.std.specs.Prelude.{◌≡◌, Some, None, if◌then◌else◌};
    ghost use Rattle.omf_records.specs.Methods.{frame_code, kind_of};
    ghost use Rattle.omf_frame.specs.Bytes.{bits};
    ghost use Rattle.omf_records.specs.Values.{frame_by_thread, frame_bits, target_by_thread, target_bits};

    /// The number of the frame thread, 0 to 3, if the frame is given by a thread.
    #[inline(always)]
    pub fn frame_thread(&self) -> Option<u8>
        ensures { result ≡ (if frame_by_thread self.now.fix.item then Some (bits self.now.fix.item 4 2) else None) }
    {
        let fix = self.fix.item.byte();
        if fix / 128 % 2 == 1 {
            Some(fix / 16 % 4)
        } else {
            None
        }
    }

    /// The frame method, if no thread gives the frame.
    #[inline(always)]
    pub fn frame_method(&self) -> FrameCode
        ensures { result ≡ frame_code (frame_bits self.now.fix.item) }
    {
        self.fix.item.frame_method()
    }

    /// The number of the target thread, 0 to 3, if the target is given by a thread.
    #[inline(always)]
    pub fn target_thread(&self) -> Option<u8>
        ensures { result ≡ (if target_by_thread self.now.fix.item then Some (target_bits self.now.fix.item) else None) }
    {
        let fix = self.fix.item.byte();
        if fix / 8 % 2 == 1 {
            Some(fix % 4)
        } else {
            None
        }
    }

    /// The target method, if no thread gives the target.
    #[inline(always)]
    pub fn target_method(&self) -> Kind
        ensures { result ≡ kind_of (target_bits self.now.fix.item) }
    {
        self.fix.item.target_method()
    }
}
