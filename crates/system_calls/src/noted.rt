//! An open file, folder or connection whose refused calls are shown and kept.
ghost use Rattle.std.specs.Prelude.{◌≡◌, IfSome, IsSomeAnd, string_bytes};

use crate::refusal::Denial;
use crate::refusals::Refusals;
use std::alloc::Global;
use std::fs::{Metadata, OpenFile};
use std::io::{self, Read, Seek, SeekFrom, Write};

/// An open file, folder or connection that passes each call on. Those that are refused are shown, and kept.
#[derive(Drop)]
pub struct Noted<'a, S> {
    inner: S,
    alloc: Global,
    path: Option<String>,
    refusals: &'a Refusals,
}

impl<'a, S> Noted<'a, S> {
    /// What is open at this path, or the connection of this name. Without memory for the path, none is known.
    pub fn new(alloc: Global, inner: S, path: &str, refusals: &'a Refusals) -> Noted<'a, S>
        ensures inner { result.inner ≡ inner }
        ensures path { IfSome result.path (λ own. string_bytes own ≡ path.now) }
    {
        Noted {
            inner,
            alloc,
            path: String::from_str(alloc, path).ok(),
            refusals,
        }
    }

    // An error about this, with its path.
    fn denied(&self, error: io::Error) -> Denial
        ensures error { result.error ≡ error }
        ensures path { IfSome result.path (λ own.
            IsSomeAnd self.now.path (λ path. string_bytes own ≡ string_bytes path)) }
    {
        match &self.path {
            Some(path) => Denial::of(self.alloc, path.as_str(), error),
            None => Denial { error, path: None },
        }
    }

    fn noted<T>(&self, call: &str, answer: io::Result<T>) -> io::Result<T>
        ensures { result ≡ answer }
    {
        if let Err(error) = &answer {
            if let Some(path) = &self.path {
                self.refusals.trace.show(call, path.as_str(), error);
            }
            let _ = self.refusals.kept(Err::<(), Denial>(self.denied(*error)));
        }
        answer
    }
}

impl<'a, S: Read> Read for Noted<'a, S> {
    ghost remaining = { λ t. S.remaining t.inner };

    fn read(&mut self, buf: &mut [u8]) -> io::Result<usize> {
        let answer = self.inner.read(buf);
        self.noted("read", answer)
    }
}

impl<'a, S: Write> Write for Noted<'a, S> {
    ghost contents = { λ t. S.contents t.inner };

    fn write(&mut self, buf: &[u8]) -> io::Result<usize> {
        let answer = self.inner.write(buf);
        self.noted("write", answer)
    }

    fn flush(&mut self) -> io::Result<()> {
        self.inner.flush()
    }
}

impl<'a, S: Seek> Seek for Noted<'a, S> {
    ghost stream_position = { λ t. S.stream_position t.inner };

    ghost stream_bytes = { λ t. S.stream_bytes t.inner };

    fn seek(&mut self, to: SeekFrom) -> io::Result<u64> {
        let answer = self.inner.seek(to);
        self.noted("lseek", answer)
    }
}

impl<'a, S: OpenFile> OpenFile for Noted<'a, S> {
    fn metadata(&self) -> io::Result<Metadata> {
        self.noted("fstat", self.inner.metadata())
    }

    fn set_len(&self, size: u64) -> io::Result<()> {
        self.noted("ftruncate", self.inner.set_len(size))
    }

    fn sync_all(&self) -> io::Result<()> {
        self.noted("fsync", self.inner.sync_all())
    }

    fn sync_data(&self) -> io::Result<()> {
        self.noted("fdatasync", self.inner.sync_data())
    }
}
