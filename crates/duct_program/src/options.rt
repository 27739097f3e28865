//! The options before the first word.
ghost use Rattle.std.specs.Prelude.{false, map, string_bytes};
ghost use Rattle.duct_program.specs.Line.{no_options, options_from, options_view};
ghost use Rattle.duct_program.specs.Parsed.{ParsesAs};

use crate::usage::Usage;

/// What the options ask of the whole line.
#[derive(Clone, Copy)]
pub(crate) struct Options<'a> {
    /// The text that stdin gets: that of the last `--stdin`.
    pub stdin: Option<&'a str>,
    /// Whether a failure is no error.
    pub unchecked: bool,
}

/// Reads the options before some arguments. Returns them, and the arguments after them.
pub(crate) fn read_options<'a>(args: &'a [String]) -> Result<(Options<'a>, &'a [String]), Usage>
    ensures { ParsesAs (λ read. (options_view read.0, map string_bytes read.1.now)) result
        (options_from false no_options (map string_bytes args.now)) }
{
    let mut options = Options {
        stdin: None,
        unchecked: false,
    };
    let mut rest = args;
    while let Some((arg, behind)) = rest.split_first() {
        match arg.as_str() {
            "--stdin" => {
                let Some((text, behind)) = behind.split_first() else {
                    return Err(Usage::MissingText);
                };
                options.stdin = Some(text.as_str());
                rest = behind;
            }
            "--unchecked" => {
                options.unchecked = true;
                rest = behind;
            }
            _ => break,
        }
    }
    Ok((options, rest))
}
