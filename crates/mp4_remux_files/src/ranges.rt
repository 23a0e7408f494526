//! Ranges of bytes.

ghost use Rattle.std.specs.Prelude.{◌≡◌, IsTrue};
ghost use Rattle.mp4_remux_files.specs.Movie.{between};

/// Returns whether the bytes of `new` from `from` to `to` are those of `old` from `begin` to `end`.
pub fn are_same(old: &[u8], begin: u64, end: u64, new: &[u8], from: u64, to: u64) -> bool
    ensures { IsTrue result → between new.now from to ≡ between old.now begin end }
{
    if begin > end || end > old.len() as u64 || from > to || to > new.len() as u64 {
        return false;
    }
    let before = &old[begin as usize..end as usize];
    let after = &new[from as usize..to as usize];
    after == before
}
