//! What a runtime has of the parent itself: duplicates of its output streams, and its environment
//! at once.
use std::alloc::Global;
use std::fs::File;
use std::io;
use std::io::Read;
use std::os::fd::{AsFd, OwnedFd};

/// A runtime that knows its parent: more descriptors of the parent's own stdout and stderr, and its
/// environment. `HostRuntime` and references to it are such runtimes.
pub trait Parents {
    /// Returns one more descriptor of the parent's stdout. Fails where the system can't give one.
    fn duplicate_stdout(&self) -> io::Result<OwnedFd>;

    /// Returns one more descriptor of the parent's stderr. Fails where the system can't give one.
    fn duplicate_stderr(&self) -> io::Result<OwnedFd>;

    /// Returns all entries that the parent's environment had when the program began, in their
    /// order, with a NUL after each. Where this fails, or returns more or fewer entries than the
    /// environment has by now, the host reads them one by one. A runtime need not implement it: it
    /// then fails with `Unsupported`.
    fn environment(&self, _alloc: Global) -> io::Result<Vec<u8>> {
        Err(io::Error::from(io::ErrorKind::Unsupported))
    }
}

impl Parents for HostRuntime {
    fn duplicate_stdout(&self) -> io::Result<OwnedFd> {
        self.stdout().as_fd().try_clone_to_owned()
    }

    fn duplicate_stderr(&self) -> io::Result<OwnedFd> {
        self.stderr().as_fd().try_clone_to_owned()
    }

    /// Reads `/proc/self/environ`. If the program has more rights than the process that started it,
    /// the loader may have removed some entries from the environment, but not from this file.
    fn environment(&self, alloc: Global) -> io::Result<Vec<u8>> {
        let mut entries = Vec::new(alloc);
        File::open(self, "/proc/self/environ")?.read_to_end(&mut entries)?;
        Ok(entries)
    }
}

impl<R: Parents> Parents for &R {
    fn duplicate_stdout(&self) -> io::Result<OwnedFd> {
        (**self).duplicate_stdout()
    }

    fn duplicate_stderr(&self) -> io::Result<OwnedFd> {
        (**self).duplicate_stderr()
    }

    fn environment(&self, alloc: Global) -> io::Result<Vec<u8>> {
        (**self).environment(alloc)
    }
}
