//! The sample description box, `stsd`.

ghost use Rattle.std.specs.Prelude.{◌≡◌, ◌+◌, ◌-◌, ◌^◌, ◌≤◌, Some, None, length, min, take, ◌++◌, ◌↔◌, IsTrue, IfOk};
ghost use Rattle.std.specs.Prelude.{IfErr};
ghost use Rattle.mp4_frame.specs.Bytes.{be_bytes};
ghost use Rattle.mp4_frame.specs.Format.{write_laws};
ghost use Rattle.mp4_frame.specs.OneChild.{child_content};
ghost use Rattle.mp4_frame.specs.OptionalChild.{WritableOptional};
ghost use Rattle.mp4_frame.specs.Reading.{AnswersAs, map_reading};
ghost use Rattle.mp4_frame.specs.declared.box_type.BoxType.TheVariants as names;
ghost use Rattle.mp4_frame.specs.declared.error.Error.TheVariants.{OutOfMemory};
ghost use Rattle.mp4_sound.specs.Stsd.{kinds_of_entry, format_entry, entry_if_known, with_entry, entry_stsd, size_stsd};
ghost use Rattle.mp4_sound.specs.Stsd.{reads_stsd, format_stsd};
ghost use Rattle.mp4_sound.specs.StsdLaws.{laws_stsd};

use crate::mp4a::Mp4aBox;
use mp4_entries::{Avc1Box, Hev1Box, Tx3gBox, Vp09Box};
use mp4_frame::{
    BoxLaws, BoxType, Frame, Mp4Box, Parent, ReadBox, Result, TryClone, WriteBox, child_content,
    child_head, codes, expect_bytes, put_child, put_full_box, put_u32, u8_at, u24_at,
};
use std::alloc::Global;

/// Evaluates `$value` for the first entry of `$stsd` that is present, in the order `avc1`, `hev1`, `vp09`, `mp4a`,
/// `tx3g`, or `$none` if no entry is present.
macro_rules! first_entry {
    ($stsd:expr, $entry:ident => $value:expr, $none:expr) => {
        if let Some($entry) = &$stsd.avc1 {
            $value
        } else if let Some($entry) = &$stsd.hev1 {
            $value
        } else if let Some($entry) = &$stsd.vp09 {
            $value
        } else if let Some($entry) = &$stsd.mp4a {
            $value
        } else if let Some($entry) = &$stsd.tx3g {
            $value
        } else {
            $none
        }
    };
}

/// The sample descriptions of a track (`stsd`, ISO/IEC 14496-12, 8.5.2). Reading keeps the first entry if it has one of
/// the five types here, even if it ends after the `stsd`. Later entries are not read. Writing writes only the first
/// entry that is present, in the order `avc1`, `hev1`, `vp09`, `mp4a`, `tx3g`. Only this entry has to be writable.
#[derive(Debug, Drop, PartialEq, Eq)]
pub struct StsdBox {
    /// The version of the box, usually 0. Other values are kept.
    pub version: u8,
    /// The flags, below 2^24, usually 0.
    pub flags: u32,
    /// The entry of AVC video.
    pub avc1: Option<Avc1Box>,
    /// The entry of HEVC video.
    pub hev1: Option<Hev1Box>,
    /// The entry of VP9 video.
    pub vp09: Option<Vp09Box>,
    /// The entry of MPEG-4 audio.
    pub mp4a: Option<Mp4aBox>,
    /// The entry of timed text.
    pub tx3g: Option<Tx3gBox>,
}

impl StsdBox {
    /// Creates a box of version 0 with flags 0 and no entry.
    fn empty() -> StsdBox
        ensures { result ≡ record
            { version = 0; flags = 0; avc1 = None; hev1 = None; vp09 = None; mp4a = None; tx3g = None } }
    {
        StsdBox {
            version: 0,
            flags: 0,
            avc1: None,
            hev1: None,
            vp09: None,
            mp4a: None,
            tx3g: None,
        }
    }

    /// Creates a box of version 0 with flags 0 and no entry. This takes no memory.
    pub fn default_in(_alloc: Global) -> StsdBox
        ensures { result ≡ record
            { version = 0; flags = 0; avc1 = None; hev1 = None; vp09 = None; mp4a = None; tx3g = None } }
    {
        StsdBox::empty()
    }

    /// Returns whether the entry that is written can be written. Without an entry this is true.
    fn is_entry_writable(&self) -> bool
        ensures { IsTrue result ↔ WritableOptional format_entry (entry_stsd self.now) }
    {
        first_entry!(self, entry => entry.is_writable(), true)
    }

    /// Returns the type of the box, like `box_type`.
    pub fn get_type(&self) -> BoxType
        ensures { result ≡ names.StsdBox }
    {
        self.box_type()
    }

    /// Returns the number of bytes of the box, like `box_size`.
    pub fn get_size(&self) -> u64
        ensures { result ≡ min (size_stsd self.now) (2 ^ 64 - 1) }
    {
        self.box_size()
    }
}

/// Sets `clone` to a clone of `entry`, which may be `None`.
fn clone_entry<T: TryClone + Drop>(entry: &Option<T>, clone: &mut Option<T>) -> Result<()>
    ensures clone { IfOk result (λ _. clone.new ≡ entry.now) }
    ensures memory { IfErr result (λ e. e ≡ OutOfMemory) }
{
    *clone = match entry {
        Some(entry) => Some(entry.try_clone()?),
        None => None,
    };
    Ok(())
}

impl TryClone for StsdBox {
    fn try_clone(&self) -> Result<StsdBox> {
        let mut clone = StsdBox::empty();
        clone.version = self.version;
        clone.flags = self.flags;
        clone_entry(&self.avc1, &mut clone.avc1)?;
        clone_entry(&self.hev1, &mut clone.hev1)?;
        clone_entry(&self.vp09, &mut clone.vp09)?;
        clone_entry(&self.mp4a, &mut clone.mp4a)?;
        clone_entry(&self.tx3g, &mut clone.tx3g)?;
        Ok(clone)
    }
}

impl Mp4Box for StsdBox {
    ghost format = { format_stsd };

    fn box_type(&self) -> BoxType {
        BoxType::StsdBox
    }

    fn box_size(&self) -> u64 {
        first_entry!(self, entry => entry.box_size().saturating_add(16), 16)
    }
}

/// Reads the content of the entry with the frame `child`, and stores it in `entry`.
fn read_content_of<T: ReadBox + Drop>(
    alloc: Global,
    parent: &Parent,
    child: Frame,
    entry: &mut Option<T>,
) -> Result<()>
    requires { child.start ≤ length parent.now.bytes.now }
    ensures { AnswersAs (λ _. entry.new) result
        (map_reading (λ v. Some v) (child_content T.reads parent.now.bytes.now parent.now.start child)) }
{
    *entry = Some(child_content(alloc, parent, child)?);
    Ok(())
}

/// Reads the content of the entry with the frame `child` and stores it in `stsd`, if `name` is that of a type of
/// entries. Other entries are skipped.
fn read_entry(
    alloc: Global,
    parent: &Parent,
    name: BoxType,
    child: Frame,
    stsd: &mut StsdBox,
) -> Result<()>
    requires { child.start ≤ length parent.now.bytes.now }
    ensures { AnswersAs (λ _. stsd.new) result
        (map_reading (with_entry stsd.old)
        (entry_if_known (kinds_of_entry name) parent.now.bytes.now parent.now.start child)) }
{
    match name {
        BoxType::Avc1Box => read_content_of(alloc, parent, child, &mut stsd.avc1),
        BoxType::Hev1Box => read_content_of(alloc, parent, child, &mut stsd.hev1),
        BoxType::Vp09Box => read_content_of(alloc, parent, child, &mut stsd.vp09),
        BoxType::Mp4aBox => read_content_of(alloc, parent, child, &mut stsd.mp4a),
        BoxType::Tx3gBox => read_content_of(alloc, parent, child, &mut stsd.tx3g),
        _ => Ok(()),
    }
}

impl ReadBox for StsdBox {
    ghost reads = { reads_stsd };

    const LEAST: u64 = 0;

    #[tactic(auto, unfolding(crate::specs::Stsd::reads_stsd))]
    fn read_content(alloc: Global, bytes: &[u8], start: u64, size: u64) -> Result<StsdBox> {
        expect_bytes(bytes, 8, 8)?;
        let mut stsd = StsdBox::default_in(alloc);
        stsd.version = u8_at(bytes, 8);
        stsd.flags = u24_at(bytes, 9);
        if size > 16 {
            let parent = Parent {
                bytes,
                start,
                size,
                too_large: "stsd box contains a box with a larger size than it",
            };
            let child = child_head(&parent, 16)?;
            read_entry(alloc, &parent, BoxType::from(child.code), child, &mut stsd)?;
        }
        Ok(stsd)
    }
}

/// Puts the count 1 and `entry`.
fn put_entry<T: WriteBox>(out: &mut [u8], at: usize, entry: &T)
    requires writable { T.format.Writable entry.now }
    requires room { at + 4 + T.format.size entry.now ≡ length out.old }
    ensures { out.new ≡ (take at out.old ++ be_bytes 4 1) ++ T.format.bytes entry.now }
{
    let at = put_u32(out, at, 1);
    put_child(out, at, entry);
}

impl WriteBox for StsdBox {
    fn is_writable(&self) -> bool {
        // For the prover: a value that was read has the range of its type.
        let _version = self.version;
        self.is_entry_writable() && self.flags < 1 << 24 && self.box_size() < 1 << 32
    }

    #[tactic(auto, unfolding(crate::specs::Stsd::bytes_stsd, mp4_frame::specs::Bytes::bytes_of_fields, mp4_frame::specs::Bytes::bytes_of_fields_onto))]
    fn put_box(&self, out: &mut [u8]) {
        let size = self.box_size() as u32;
        let at = put_full_box(out, size, codes::STSD, self.version, self.flags);
        first_entry!(self, entry => put_entry(out, at, entry), { put_u32(out, at, 0); })
    }

    ghost write_laws = { write_laws laws_stsd };
}

impl BoxLaws for StsdBox {
    ghost laws = { laws_stsd };
}
