//! std's reads of a reader handle. At EOF each waits for what runs, as `ReaderHandle::read_as`
//! does.
ghost use Rattle.std.specs.Prelude.{◌≡◌, ◌<◌, None, Ok, length};
ghost use Rattle.std.specs.Io.{ReadsAtMost};
ghost use Rattle.std.specs.Io.KnownBytes.{ReadConsumes};
ghost use Rattle.duct_status.specs.ShapeView.{shape_view};
ghost use Rattle.duct_running.specs.Answered.{IsAnswer};
ghost use Rattle.duct_handle.specs.Reads.{HasOutput};

use crate::error::io_error;
use crate::reader::ReaderHandle;
use duct_base::system::System;
use duct_system::views::Viewed;
use std::io;
use std::io::{ErrorKind, Read};
use std::sync::Wait;

// One read, with a token of its own.
fn read_once<S: System, R: Wait>(reader: &ReaderHandle<S, R>, buf: &mut [u8]) -> io::Result<usize>
    ensures bound { ReadsAtMost result buf.new }
    ensures ended { result ≡ Ok 0 → 0 < length buf.old → HasOutput
        (IsAnswer ⟦<S as Viewed>⟧.views (shape_view reader.now.shape) reader.now.numbers) }
{
    let mut seen = reader.seen();
    match reader.read_as(buf, &mut seen) {
        Ok(read) => Ok(read),
        Err(error) => Err(io_error(error)),
    }
}

// Reads until the buffer is full. Fails with `UnexpectedEof` where the expression ended with an
// output before that.
fn read_full<S: System, R: Wait>(reader: &ReaderHandle<S, R>, buf: &mut [u8]) -> io::Result<()> {
    let mut at = 0;
    while at < buf.len() {
        match read_once(reader, &mut buf[at..])? {
            0 => return Err(io::Error::from(ErrorKind::UnexpectedEof)),
            read => at += read,
        }
    }
    Ok(())
}

impl<S: System, R: Wait> Read for &ReaderHandle<S, R> {
    fn read(&mut self, buf: &mut [u8]) -> io::Result<usize>
        ensures bound { ReadsAtMost result buf.new }
        ensures bytes { ReadConsumes None None result buf.new }
        ensures ended { result ≡ Ok 0 → 0 < length buf.old → HasOutput
            (IsAnswer ⟦<S as Viewed>⟧.views (shape_view self.old.now.shape) self.old.now.numbers) }
    {
        read_once(self, buf)
    }

    fn read_exact(&mut self, buf: &mut [u8]) -> io::Result<()> {
        read_full(self, buf)
    }
}

impl<S: System, R: Wait> Read for ReaderHandle<S, R> {
    fn read(&mut self, buf: &mut [u8]) -> io::Result<usize>
        ensures bound { ReadsAtMost result buf.new }
        ensures bytes { ReadConsumes None None result buf.new }
        ensures ended { result ≡ Ok 0 → 0 < length buf.old → HasOutput
            (IsAnswer ⟦<S as Viewed>⟧.views (shape_view self.old.shape) self.old.numbers) }
    {
        read_once(self, buf)
    }

    fn read_exact(&mut self, buf: &mut [u8]) -> io::Result<()> {
        read_full(self, buf)
    }
}
