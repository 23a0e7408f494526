//! The path of a box: the boxes around it, outermost first, and the box itself.

ghost use Rattle.std.specs.Prelude.{◌≡◌, ◌==◌, ◌∷◌, [], ℕ, Some, IfOk, OnOk, List, slice_index_or, take};
ghost use Rattle.std.specs.Prelude.{unwrap_or, if◌then◌else◌};
ghost use Rattle.std.specs.BTreeMap.{get};
ghost use Rattle.std.specs.Ordering.{nat_cmp};
ghost use Rattle.std.specs.declared.option.Option.{Option};
ghost use Rattle.mp4_frame.specs.declared.four_cc.FourCC.{FourCC};
ghost use Rattle.mp4_content.specs.Paths.{AreOpen, code_key, entered, in_file, in_fragment, in_track, IsOpen, part_of};
ghost use Rattle.mp4_content.specs.Paths.{next, parts_of, single};

use mp4_frame::codes::{MOOF, MOOV, TRAF, TRAK};
use mp4_show::Result;
use mp4_stream::FourCC;
use mp4_walk::TreeBox;
use std::alloc::Global;
use std::collections::BTreeMap;

/// A part of a path: a code, and the number of earlier boxes with this code in the box around it. Bytes that have no
/// whole header have no code.
#[derive(Clone, Copy, Debug, PartialEq, Eq)]
pub struct Part {
    /// The code.
    pub code: Option<FourCC>,
    /// The number of earlier boxes with this code.
    pub index: u64,
}

/// Returns the key of a code in a map: the number of the code, or the number after all codes.
fn code_key(code: Option<FourCC>) -> u64
    ensures { result ≡ code_key code }
{
    match code {
        Some(code) => u64::from(u32::from(code)),
        None => 1 << 32,
    }
}

/// Adds one to the number that `counts` has for `key`, and returns the number before that.
fn count_one(key: u64, counts: &mut BTreeMap<u64, u64>) -> Result<u64>
    ensures earlier { IfOk result (λ index. index ≡ unwrap_or (get nat_cmp counts.old key) 0) }
    ensures counts { OnOk result ((q : ℕ) → get nat_cmp counts.new q
        ≡ (if key == q then Some (next (unwrap_or (get nat_cmp counts.old key) 0)) else get nat_cmp counts.old q)) }
{
    let index = counts.get(&key).copied().unwrap_or(0);
    counts.insert(key, index.saturating_add(1))?;
    Ok(index)
}

/// A level: its last box, and the number of boxes of each code.
#[derive(Drop)]
pub struct OpenLevel {
    /// The last box.
    pub last: Part,
    /// The number of boxes of each code.
    pub counts: BTreeMap<u64, u64>,
}

impl OpenLevel {
    /// Returns a level without boxes.
    fn new(alloc: Global) -> OpenLevel
        ensures { IsOpen [] result }
    {
        OpenLevel {
            last: Part {
                code: None,
                index: 0,
            },
            counts: BTreeMap::new(alloc),
        }
    }

    /// Returns the level after one more box, with the code `code`.
    fn with(self, code: Option<FourCC>) -> Result<OpenLevel>
        ensures { (codes : List (Option FourCC)) → IsOpen codes self
            → IfOk result (λ level. IsOpen (code ∷ codes) level) }
    {
        let OpenLevel {
            last: _,
            mut counts,
        } = self;
        let index = count_one(code_key(code), &mut counts)?;
        Ok(OpenLevel {
            last: Part { code, index },
            counts,
        })
    }
}

/// The levels that are open at a box of a file, as the boxes are entered in order.
#[derive(Drop)]
pub struct BoxPaths {
    /// The open levels, outermost first.
    pub levels: Vec<OpenLevel>,
}

impl BoxPaths {
    /// Returns the levels before the first box of a file.
    pub fn new(alloc: Global) -> BoxPaths
        ensures { AreOpen [] result.levels.items }
    {
        BoxPaths {
            levels: Vec::new(alloc),
        }
    }

    /// Takes the level of `depth` out, and drops all deeper levels.
    fn take_level(&mut self, alloc: Global, depth: usize) -> OpenLevel
        ensures { (opened : List (List (Option FourCC))) → AreOpen opened self.old.levels.items
            → AreOpen (take depth opened) self.new.levels.items × IsOpen (slice_index_or opened depth []) result }
    {
        if self.levels.len() <= depth {
            return OpenLevel::new(alloc);
        }
        self.levels.truncate(depth + 1);
        match self.levels.pop() {
            Some(level) => level,
            None => OpenLevel::new(alloc),
        }
    }

    /// Enters the box `found`.
    pub fn enter(&mut self, alloc: Global, found: &TreeBox) -> Result<()>
        ensures { (opened : List (List (Option FourCC))) → AreOpen opened self.old.levels.items
            → OnOk result (AreOpen (entered opened found.now) self.new.levels.items) }
    {
        let taken = self.take_level(alloc, found.depth as usize);
        let level = taken.with(found.code)?;
        self.levels.push(level)?;
        Ok(())
    }

    /// Returns the path of the box that was entered last.
    pub fn path(&self, alloc: Global) -> Result<Vec<Part>>
        ensures { (opened : List (List (Option FourCC))) → AreOpen opened self.now.levels.items
            → IfOk result (λ path. path.items ≡ parts_of opened) }
    {
        let mut path = Vec::with_capacity(alloc, self.levels.len())?;
        for level in &self.levels {
            path.push(level.last)?;
        }
        Ok(path)
    }
}

/// Returns the part with the code `code` after `index` others.
fn single(code: u32, index: u64) -> Part
    ensures { result ≡ single code index }
{
    Part {
        code: Some(FourCC::from(code)),
        index,
    }
}

/// Returns the path of the box with the code `code` after `index` others at the top level.
pub fn in_file(alloc: Global, code: u32, index: u64) -> Result<Vec<Part>>
    ensures { IfOk result (λ path. path.items ≡ in_file code index) }
{
    let mut path = Vec::with_capacity(alloc, 1)?;
    path.push(single(code, index))?;
    Ok(path)
}

/// Returns the path of the boxes `codes` in track `number` of the movie, each the first with its code.
pub fn in_track(alloc: Global, number: u64, codes: &[u32]) -> Result<Vec<Part>>
    ensures { IfOk result (λ path. path.items ≡ in_track number codes.now) }
{
    let mut path = Vec::with_capacity(alloc, 6)?;
    path.push(single(MOOV, 0))?;
    path.push(single(TRAK, number))?;
    for code in codes {
        path.push(single(*code, 0))?;
    }
    Ok(path)
}

/// Returns the path of the boxes `codes` in `traf` number `traf` of `moof` number `moof`, each the first with its code.
pub fn in_fragment(alloc: Global, moof: u64, traf: u64, codes: &[u32]) -> Result<Vec<Part>>
    ensures { IfOk result (λ path. path.items ≡ in_fragment moof traf codes.now) }
{
    let mut path = Vec::with_capacity(alloc, 3)?;
    path.push(single(MOOF, moof))?;
    path.push(single(TRAF, traf))?;
    for code in codes {
        path.push(single(*code, 0))?;
    }
    Ok(path)
}
