//! Builders of what is an expression or an error, so that one `?` ends a chain.
ghost use Rattle.std.specs.declared.result.Result.{Result};
ghost use Rattle.duct.specs.LastValues.{last_values, pairs_of};
ghost use Rattle.duct_system.specs.declared.error.Error.{Error as ErrorView};
ghost use Rattle.duct_start.specs.TreeView.{TreeView, stdin_bytes, stdin_path, stdin_file, stdin_null, stdout_path, stdout_file, stdout_null, stdout_capture, stdout_to_stderr, stderr_path, stderr_file, stderr_null, stderr_capture, stderr_to_stdout, stdout_stderr_swap, dir, env, env_remove, full_env, unchecked, before_spawn};
ghost use Rattle.duct_shell.specs.Wraps.{Joins, Wraps, tree_of_result};

use duct::{Error, Expression};

/// The builders of pipes and of redirections, over the result of the one before: an error passes
/// through, so that one `?` ends a chain. Each does what the builder of `Expression` with its name
/// does.
///
/// Example: `cmd!(sh; "sort").pipe(cmd!(sh; "uniq")).stdin_path("in").stdout_capture()?`
pub trait Chain<E, H>: Sized {
    /// The tree that it is the result of, or the error.
    ghost made_of: { Self → Result (TreeView E H) ErrorView };

    /// A pipe: this expression's stdout goes to the stdin of the right one. Of two errors the left
    /// one is returned.
    fn pipe(self, right: Self) -> Result<Expression<E, H>, Error>
        ensures { Joins (made_of self) (made_of right) result };

    /// Stdin gets these bytes, then EOF.
    fn stdin_bytes(self, bytes: Vec<u8>) -> Result<Expression<E, H>, Error>
        ensures { Wraps (made_of self) (stdin_bytes bytes.items) result };

    /// Stdin reads the file at this path.
    fn stdin_path(self, path: &str) -> Result<Expression<E, H>, Error>
        ensures { Wraps (made_of self) (stdin_path path.now) result };

    /// Stdin reads this end.
    fn stdin_file(self, end: E) -> Result<Expression<E, H>, Error>
        ensures { Wraps (made_of self) (stdin_file end) result };

    /// Stdin is empty.
    fn stdin_null(self) -> Result<Expression<E, H>, Error>
        ensures { Wraps (made_of self) stdin_null result };

    /// Stdout writes to the file at this path.
    fn stdout_path(self, path: &str) -> Result<Expression<E, H>, Error>
        ensures { Wraps (made_of self) (stdout_path path.now) result };

    /// Stdout writes to this end.
    fn stdout_file(self, end: E) -> Result<Expression<E, H>, Error>
        ensures { Wraps (made_of self) (stdout_file end) result };

    /// What stdout writes is discarded.
    fn stdout_null(self) -> Result<Expression<E, H>, Error>
        ensures { Wraps (made_of self) stdout_null result };

    /// What stdout writes is captured.
    fn stdout_capture(self) -> Result<Expression<E, H>, Error>
        ensures { Wraps (made_of self) stdout_capture result };

    /// Stdout goes where stderr goes outside.
    fn stdout_to_stderr(self) -> Result<Expression<E, H>, Error>
        ensures { Wraps (made_of self) stdout_to_stderr result };

    /// Stderr writes to the file at this path.
    fn stderr_path(self, path: &str) -> Result<Expression<E, H>, Error>
        ensures { Wraps (made_of self) (stderr_path path.now) result };

    /// Stderr writes to this end.
    fn stderr_file(self, end: E) -> Result<Expression<E, H>, Error>
        ensures { Wraps (made_of self) (stderr_file end) result };

    /// What stderr writes is discarded.
    fn stderr_null(self) -> Result<Expression<E, H>, Error>
        ensures { Wraps (made_of self) stderr_null result };

    /// What stderr writes is captured.
    fn stderr_capture(self) -> Result<Expression<E, H>, Error>
        ensures { Wraps (made_of self) stderr_capture result };

    /// Stderr goes where stdout goes outside.
    fn stderr_to_stdout(self) -> Result<Expression<E, H>, Error>
        ensures { Wraps (made_of self) stderr_to_stdout result };

    /// Stdout and stderr are exchanged.
    fn stdout_stderr_swap(self) -> Result<Expression<E, H>, Error>
        ensures { Wraps (made_of self) stdout_stderr_swap result };
}

impl<E: Drop, H: Drop> Chain<E, H> for Result<Expression<E, H>, Error> {
    ghost made_of = { tree_of_result };

    fn pipe(self, right: Self) -> Result<Expression<E, H>, Error> {
        self?.pipe(&right?)
    }

    fn stdin_bytes(self, bytes: Vec<u8>) -> Result<Expression<E, H>, Error> {
        self?.stdin_bytes(bytes)
    }

    fn stdin_path(self, path: &str) -> Result<Expression<E, H>, Error> {
        self?.stdin_path(path)
    }

    fn stdin_file(self, end: E) -> Result<Expression<E, H>, Error> {
        self?.stdin_file(end)
    }

    fn stdin_null(self) -> Result<Expression<E, H>, Error> {
        self?.stdin_null()
    }

    fn stdout_path(self, path: &str) -> Result<Expression<E, H>, Error> {
        self?.stdout_path(path)
    }

    fn stdout_file(self, end: E) -> Result<Expression<E, H>, Error> {
        self?.stdout_file(end)
    }

    fn stdout_null(self) -> Result<Expression<E, H>, Error> {
        self?.stdout_null()
    }

    fn stdout_capture(self) -> Result<Expression<E, H>, Error> {
        self?.stdout_capture()
    }

    fn stdout_to_stderr(self) -> Result<Expression<E, H>, Error> {
        self?.stdout_to_stderr()
    }

    fn stderr_path(self, path: &str) -> Result<Expression<E, H>, Error> {
        self?.stderr_path(path)
    }

    fn stderr_file(self, end: E) -> Result<Expression<E, H>, Error> {
        self?.stderr_file(end)
    }

    fn stderr_null(self) -> Result<Expression<E, H>, Error> {
        self?.stderr_null()
    }

    fn stderr_capture(self) -> Result<Expression<E, H>, Error> {
        self?.stderr_capture()
    }

    fn stderr_to_stdout(self) -> Result<Expression<E, H>, Error> {
        self?.stderr_to_stdout()
    }

    fn stdout_stderr_swap(self) -> Result<Expression<E, H>, Error> {
        self?.stdout_stderr_swap()
    }
}

/// The other builders of an expression, over the result of the one before, as in `Chain`.
///
/// Example: `cmd!(sh; "make").env("V", "1").dir("src")?`
pub trait ChainSettings<E, H>: Sized {
    /// The tree that it is the result of, or the error.
    ghost made_of: { Self → Result (TreeView E H) ErrorView };

    /// The commands start in this folder.
    fn dir(self, path: &str) -> Result<Expression<E, H>, Error>
        ensures { Wraps (made_of self) (dir path.now) result };

    /// The commands have this variable.
    fn env(self, name: &str, value: &str) -> Result<Expression<E, H>, Error>
        ensures { Wraps (made_of self) (env name.now value.now) result };

    /// The commands don't have this variable.
    fn env_remove(self, name: &str) -> Result<Expression<E, H>, Error>
        ensures { Wraps (made_of self) (env_remove name.now) result };

    /// The commands have only these variables.
    fn full_env(self, pairs: &[(&str, &str)]) -> Result<Expression<E, H>, Error>
        ensures { Wraps (made_of self) (full_env (last_values (pairs_of pairs.now))) result };

    /// A failure of this expression is no error.
    fn unchecked(self) -> Result<Expression<E, H>, Error>
        ensures { Wraps (made_of self) unchecked result };

    /// The hook changes the spec of each command before it is started.
    fn before_spawn(self, hook: H, ends: Vec<E>) -> Result<Expression<E, H>, Error>
        ensures { Wraps (made_of self) (before_spawn hook ends.items) result };
}

impl<E: Drop, H: Drop> ChainSettings<E, H> for Result<Expression<E, H>, Error> {
    ghost made_of = { tree_of_result };

    fn dir(self, path: &str) -> Result<Expression<E, H>, Error> {
        self?.dir(path)
    }

    fn env(self, name: &str, value: &str) -> Result<Expression<E, H>, Error> {
        self?.env(name, value)
    }

    fn env_remove(self, name: &str) -> Result<Expression<E, H>, Error> {
        self?.env_remove(name)
    }

    fn full_env(self, pairs: &[(&str, &str)]) -> Result<Expression<E, H>, Error> {
        self?.full_env(pairs)
    }

    fn unchecked(self) -> Result<Expression<E, H>, Error> {
        self?.unchecked()
    }

    fn before_spawn(self, hook: H, ends: Vec<E>) -> Result<Expression<E, H>, Error>
        ensures { Wraps (tree_of_result self) (before_spawn hook ends.items) result }
    {
        self?.before_spawn(hook, ends)
    }
}
