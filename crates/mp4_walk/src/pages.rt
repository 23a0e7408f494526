//! A source that is read one page at a time.

ghost use Rattle.std.specs.Prelude.{◌≡◌, ◌+◌, ◌≤◌, [], length, vec_len, IfOk, OnOk, OnErr, IfSome, Some};
ghost use Rattle.mp4_walk.specs.Source.{IsWindow, IsPage, piece};

use crate::content::read_piece;
use crate::source::Source;
use std::alloc::Global;
use std::io;
use std::marker::Model;

/// The number of bytes of a page.
const PAGE: u64 = 8192;

/// A source, its number of bytes, and the page of it that was read last.
#[derive(Drop)]
pub struct Pages<S: Source> {
    source: S,
    length: u64,
    start: u64,
    page: Vec<u8>,
}

impl<S: Source> Model for Pages<S> {
    ghost use Rattle.mp4_walk.specs.Source.{Known, IsPage};

    ghost Value = { Known };

    ghost view = { λ p. record { bytes = S.all p.source; length = p.length } };

    ghost invariant = { λ p. IsPage (S.all p.source) p.length p.start p.page.items };
}

/// Reads `len` bytes of `source`, starting at position `at`, into `page`. After an error the page is empty.
fn read_page<S: Source>(source: &mut S, at: u64, len: u64, page: &mut Vec<u8>) -> io::Result<()>
    ensures length { OnOk result (vec_len page.new ≡ len) }
    ensures bytes { OnOk result (IfSome (S.all source.old) (λ B. IsWindow B at page.new.items)) }
    ensures empty { OnErr result (page.new.items ≡ []) }
    ensures keeps { S.all source.new ≡ S.all source.old }
{
    page.clear();
    page.resize(len as usize, 0)?;
    match source.read_at(at, page) {
        Ok(()) => Ok(()),
        Err(e) => {
            page.clear();
            Err(e)
        }
    }
}

/// Ensures that `page` has the `len` bytes starting at position `at`. It reads another page unless the present one
/// has them. `start` is the position of the page, and `total` the number of bytes of the source.
fn turn_to<S: Source>(
    source: &mut S,
    total: u64,
    start: &mut u64,
    page: &mut Vec<u8>,
    at: u64,
    len: u64,
) -> io::Result<()>
    requires page { IsPage (S.all source.old) total start.old page.old.items }
    requires inside { at + len ≤ total }
    requires small { len ≤ 8192 }
    ensures page { IsPage (S.all source.old) total start.new page.new.items }
    ensures covered { OnOk result ((start.new ≤ at) × (at + len ≤ start.new + vec_len page.new)) }
    ensures keeps { S.all source.new ≡ S.all source.old }
{
    if *start <= at && at + len <= *start + page.len() as u64 {
        return Ok(());
    }
    read_page(source, at, PAGE.min(total - at), page)?;
    *start = at;
    Ok(())
}

impl<S: Source> Pages<S> {
    /// Makes pages of `source` and gets its number of bytes. No page is read yet.
    pub fn new(alloc: Global, mut source: S) -> io::Result<Pages<S>>
        ensures bytes { IfOk result (λ pages. pages.bytes ≡ S.all source) }
        ensures length { IfOk result (λ pages. IfSome pages.bytes (λ B. pages.length ≡ length B)) }
    {
        let length = source.length()?;
        Ok(Pages {
            source,
            length,
            start: 0,
            page: Vec::new(alloc),
        })
    }

    /// Returns the number of bytes.
    pub fn length(&self) -> u64
        ensures { result ≡ self.now.length }
    {
        self.length
    }

    /// Returns all bytes of the source if they are in memory.
    pub fn in_memory(&self) -> Option<&[u8]>
        ensures bytes { IfSome result (λ bytes. self.now.bytes ≡ Some bytes.now) }
    {
        self.source.in_memory()
    }

    /// Returns the source.
    pub fn into_source(self) -> S
        ensures { S.all result ≡ self.bytes }
    {
        let Pages {
            source,
            length: _,
            start: _,
            page: _,
        } = self;
        source
    }

    /// Reads `len` bytes, starting `skip` bytes after position `at`, or all up to the end if there are fewer.
    pub fn read_piece(&mut self, alloc: Global, at: u64, skip: u64, len: u64) -> io::Result<Vec<u8>>
        ensures bytes { IfSome self.old.bytes (λ B. IfOk result (λ bytes. bytes.items ≡ piece B (at + skip) len)) }
        ensures kept { self.new ≡ self.old }
    {
        read_piece(alloc, &mut self.source, self.length, at, skip, len)
    }

    /// Fills `buffer` with the bytes starting at position `at`. Reads nothing if the page has them.
    pub fn window(&mut self, at: u64, buffer: &mut [u8]) -> io::Result<()>
        requires inside { at + length buffer.old ≤ self.old.length }
        requires small { length buffer.old ≤ 8192 }
        ensures bytes { OnOk result (IfSome self.old.bytes (λ B. IsWindow B at buffer.new)) }
        ensures kept { self.new ≡ self.old }
    {
        turn_to(
            &mut self.source,
            self.length,
            &mut self.start,
            &mut self.page,
            at,
            buffer.len() as u64,
        )?;
        let offset = (at - self.start) as usize;
        buffer.copy_from_slice(&self.page[offset..offset + buffer.len()]);
        Ok(())
    }
}
