//! The table of calls over the real machine (`docs/ROWS.md`). Each row has a host of its own.
use crate::machine::{Machine, PartsOf, PoolOf, TURNS};
use duct::{Clock, Fault, Numbered, Pool};
use duct_host::{Child, End, Host, HostClock};
use rows_table::{Lender, Real, TableError, count_left, first_word};
use std::fs::{self, File, Permissions};
use std::io::{self, Write};
use std::os::unix::fs::PermissionsExt;
use std::thread;
use std::time::Duration;

/// How many times a row waits for what is left to go, once the pool is empty.
const LOOKS: u32 = 2_000;

/// A host with a pool, the adopted ends that are not used yet, and how many file descriptors and
/// children there were when the row began.
#[derive(Drop)]
pub struct HostMachine<R: Real> {
    rt: R,
    clock: HostClock<R>,
    system: Host<R>,
    pool: Pool<Child<R>>,
    adopted: Vec<End>,
    before: (usize, usize),
}

impl<R: Real> HostMachine<R> {
    /// Returns a machine with a new host and an empty pool, and a clock that shows zero. Notes how
    /// many descriptors and children there are. Fails if the runtime can't tell these or the time,
    /// or on an allocation failure.
    pub fn new(rt: &R) -> Result<HostMachine<R>, TableError> {
        let alloc = rt.alloc();
        Ok(HostMachine {
            before: count_left(rt)?,
            rt: rt.clone()?,
            clock: HostClock::new(rt.clone()?)?,
            system: Host::new(rt.clone()?, alloc),
            pool: Pool::new(alloc),
            adopted: Vec::new(alloc),
        })
    }

    /// Adopts the ends that a line names. Returns whether there is such a key.
    fn adopt(&mut self, key: &str, text: &str) -> Result<bool, TableError> {
        let rt = &self.rt;
        let adopted = match key {
            "adopt_pipe" => {
                let (reader, mut writer) = io::pipe(rt)?;
                writer.write_all(text.as_bytes())?;
                self.adopted.push(self.system.adopt_reader(reader)?)?;
                self.system.adopt_writer(writer)?
            }
            "adopt_file" => self.system.adopt_file(File::open(rt, text)?)?,
            "adopt_new" => self.system.adopt_file(File::create(rt, text)?)?,
            _ => return Ok(false),
        };
        self.adopted.push(adopted)?;
        Ok(true)
    }

    /// Lets go of all adopted ends, and sweeps the pool until as much is left as there was when the
    /// row began. Waits for that half a minute at most, and only two seconds once the pool is
    /// empty. Returns whether it is so then. Fails if what is left can't be counted.
    pub fn clear(&mut self) -> Result<bool, TableError> {
        self.adopted.clear();
        let mut looks = 0_u32;
        for _ in 0..TURNS {
            self.pool.sweep();
            if count_left(&self.rt)? == self.before {
                return Ok(true);
            }
            looks = looks.saturating_add(u32::from(self.pool.len() == 0));
            if looks > LOOKS {
                return Ok(false);
            }
            self.pause();
        }
        Ok(false)
    }
}

impl<R: Real> Lender for HostMachine<R> {
    type End = End;

    /// Removes the adopted end with this number, and returns it. If there is none, opens the file
    /// of that name for reading.
    fn lend(&mut self, number: u64) -> Result<End, TableError> {
        match self.adopted.iter().position(|end| end.number() == number) {
            Some(place) if place < self.adopted.len() => Ok(self.adopted.remove(place)),
            _ => {
                let name = format!(in self.rt.alloc(); "{number}")?;
                let file = File::open(&self.rt, name.as_str()).map_err(Fault::from)?;
                Ok(self.system.adopt_file(file)?)
            }
        }
    }
}

impl<R: Real> Machine for HostMachine<R> {
    type System = Host<R>;

    type Clock = HostClock<R>;

    fn stage(&mut self) -> (&mut Host<R>, &mut PoolOf<Host<R>>, &HostClock<R>) {
        (&mut self.system, &mut self.pool, &self.clock)
    }

    fn line(&mut self, key: &str, text: &str, out: &mut String) -> Result<bool, TableError> {
        match key {
            "file" => {
                let (path, _) = first_word(text);
                let text = fs::read_to_string(&self.rt, path)?;
                fs::remove_file(&self.rt, path)?;
                write!(out, "{path} {text:?}")?;
                return Ok(true);
            }
            "within" => {
                let passed = self.clock.now().as_millis();
                write!(out, "{}", passed.max(text.parse()?))?;
                return Ok(true);
            }
            "drop" => drop(self.lend(text.parse()?)?),
            _ if self.adopt(key, text)? => {}
            _ => arrange(&self.rt, key, text)?,
        }
        Ok(false)
    }

    fn call(&mut self, call: &str, _ids: &[u32], _answer: &mut String) -> Result<(), TableError> {
        match first_word(call) {
            ("sleep", length) => {
                thread::sleep(&self.rt, Duration::from_millis(length.parse()?));
                Ok(())
            }
            _ => Err(TableError::Text("no such call")),
        }
    }

    fn spend(&mut self, _parts: PartsOf<Host<R>>) -> Result<(), TableError> {
        Err(TableError::Text("the parts of the machine go to no pool"))
    }

    fn pause(&self) {
        thread::sleep(&self.rt, Duration::from_millis(1));
    }

    fn end(&mut self) -> Result<(), TableError> {
        let is_clear = self.clear()?;
        *self = HostMachine::new(&self.rt)?;
        if is_clear {
            Ok(())
        } else {
            Err(TableError::Text("a file descriptor or a child is left"))
        }
    }
}

/// Makes a change of files. Fails if there is no such key, or if the change fails.
fn arrange<R: Real>(rt: &R, key: &str, text: &str) -> Result<(), TableError> {
    let (path, more) = first_word(text);
    match key {
        "write" => fs::write(rt, path, more.replace(rt.alloc(), "{feed}", "\n")?)?,
        "mode" => {
            let mode = u32::from_str_radix(more, 8)?;
            fs::set_permissions(rt, path, Permissions::from_mode(mode))?;
        }
        "make_folder" => fs::create_dir(rt, path)?,
        "remove_folder" => fs::remove_dir(rt, path)?,
        "remove" => fs::remove_file(rt, path)?,
        _ => return Err(TableError::Text("no such key")),
    }
    Ok(())
}
