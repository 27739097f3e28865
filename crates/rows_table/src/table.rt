//! Files of rows (`docs/ROWS.md`).
use crate::stop::TableError;
use std::alloc::Global;
use std::io::{self, Write};

/// What the keys of a file mean.
pub trait Table<'t>: Drop {
    /// Reads a line. Returns whether the text of the line is compared with what the table adds to
    /// `out`; if not, the line only sets up later lines. Fails with the reason why the row stops.
    fn line(&mut self, key: &'t str, text: &'t str, out: &mut String) -> Result<bool, TableError>;

    /// Ends a row, and forgets what its lines set up. Fails if a condition that has to hold for
    /// every row does not hold.
    fn end(&mut self) -> Result<(), TableError>;
}

/// How many texts were found, and how many of them differ or stopped a row.
#[derive(Clone, Copy, Default)]
pub struct Tally {
    pub compared: u64,
    pub differing: u64,
}

/// A file of rows.
#[derive(Clone, Copy)]
pub struct RowFile<'t> {
    /// The name of the file in the output.
    pub name: &'t str,
    /// The whole text of the file.
    pub text: &'t str,
    /// Whether each text that is found is written, and none is compared.
    pub is_told: bool,
}

/// Reads the rows of a file, and writes a line for each difference, or for each text that is found:
/// the file, the number of the line, and what was found and wanted, or the reason why the row
/// stopped. After a difference or a stop, the later lines of the row are skipped. Returns the
/// counts. Fails if the output can't be written.
pub fn compare<'t, T: Table<'t>, W: Write>(
    alloc: Global,
    table: &mut T,
    file: RowFile<'t>,
    out: &mut W,
) -> io::Result<Tally> {
    let mut counts = Tally::default();
    let (mut number, mut is_over) = (1_u64, false);
    let mut found = String::new(alloc);
    for line in file.text.lines().chain([""]).skip(1) {
        let line = line.trim();
        number = number.saturating_add(1);
        if line.starts_with('#') || is_over && !line.is_empty() {
            continue;
        }
        found.clear();
        let (key, text) = line.split_once(':').unwrap_or((line, ""));
        let read = if line.is_empty() {
            table.end().map(|()| false)
        } else {
            table.line(key.trim(), text.trim(), &mut found)
        };
        let compared = u64::from(matches!(read, Ok(true)));
        counts.compared = counts.compared.saturating_add(compared);
        let holds = goes_on(file, number, line, &read, found.trim(), out)?;
        counts.differing = counts.differing.saturating_add(u64::from(!holds));
        is_over = !holds && !line.is_empty();
    }
    Ok(counts)
}

/// Writes what was found, where it is told or differs, or why the row stops. Returns whether the
/// row goes on.
fn goes_on<W: Write>(
    file: RowFile,
    number: u64,
    line: &str,
    read: &Result<bool, TableError>,
    found: &str,
    out: &mut W,
) -> io::Result<bool> {
    let (key, wanted) = line.split_once(':').unwrap_or((line, ""));
    let (name, wanted) = (file.name, wanted.trim());
    match read {
        Ok(false) => return Ok(true),
        Ok(true) if file.is_told => {
            writeln!(out, "{number} {key}: {found}")?;
            return Ok(true);
        }
        Ok(true) if found == wanted => return Ok(true),
        Ok(true) => writeln!(out, "{name}:{number}: {key}: {found}, not {wanted}")?,
        Err(stop) if file.is_told => writeln!(out, "{number} stops: {stop}")?,
        Err(stop) => writeln!(out, "{name}:{number}: {stop}")?,
    }
    Ok(false)
}
