//! Standard streams that were closed when the program began.
use std::fs::{File, OpenOptions};
use std::os::fd::AsRawFd;
use std::rt::Files;

/// What is open at the descriptors of stdin, stdout and stderr that were closed, for both reading
/// and writing. A read of it is at EOF, and what is written to it is discarded.
#[derive(Drop)]
pub(crate) struct Standard {
    filled: [Option<File>; 3],
}

impl Standard {
    /// Opens `/dev/null` at each descriptor of a standard stream that is closed, so that no end
    /// gets it. Where that file can't be opened the streams are left as they are.
    pub(crate) fn fill<R: Files<File = File>>(rt: &R) -> Standard {
        let mut filled = [None, None, None];
        for _ in 0..3 {
            let Ok(file) = OpenOptions::new()
                .read(true)
                .write(true)
                .open(rt, "/dev/null")
            else {
                break;
            };
            let Ok(place) = usize::try_from(file.as_raw_fd()) else {
                break;
            };
            // The lowest free descriptor is used first: once a file has one above the standard
            // streams, none of these is closed.
            let Some(hole) = filled.get_mut(place) else {
                break;
            };
            *hole = Some(file);
        }
        Standard { filled }
    }

    /// What is open in place of stdin, stdout and stderr, for each that was closed.
    pub(crate) fn filled(&self) -> &[Option<File>; 3] {
        &self.filled
    }
}
