//! The calls that make an expression of another one.
ghost use Rattle.std.specs.Prelude.{◌≡◌, map, IfOk, IsOkUnless};
ghost use Rattle.duct_system.specs.SpecView.{var_view};
ghost use Rattle.duct.specs.LastValues.{last_values, pairs_of};
ghost use Rattle.duct_start.specs.TreeView.{pipe, around, stdin_bytes, stdin_path, stdin_file, stdin_null, stdout_path, stdout_file, stdout_null, stdout_capture, stdout_to_stderr, stderr_path, stderr_file, stderr_null, stderr_capture, stderr_to_stdout, stdout_stderr_swap, dir, env, env_remove, full_env, unchecked, before_spawn};
ghost use Rattle.duct_tree.specs.NodeView.{modifier_view};
ghost use Rattle.duct.specs.TreeView.{tree_view};

use super::Expression;
use duct_base::error::Error;
use duct_base::names::EnvNameString;
use duct_tree::tree::{Modifier, Node};
use std::alloc::Global;
use std::collections::BTreeMap;
use std::sync::Arc;

/// The calls that make an expression of this one. Each adds one node, outermost, and leaves this
/// expression as it was. Each fails with `Error::Memory`, and only at an allocation failure; what
/// was passed in is then dropped. None of them starts, opens or blocks.
impl<E: Drop, H: Drop> Expression<E, H> {
    // Puts a modifier around this expression.
    fn around(&self, modifier: Modifier<E, H>) -> Result<Expression<E, H>, Error>
        ensures tree { IfOk result
            (λ made. tree_view made ≡ around (modifier_view modifier) (tree_view self.now)) }
        ensures memory { IsOkUnless result Error.Memory }
    {
        let inner = Arc::try_clone(&self.root)?;
        let root = Arc::new(self.alloc, Node::Io(modifier, inner))?;
        Ok(Expression {
            root,
            alloc: self.alloc,
        })
    }

    /// A pipe: this expression's stdout goes to the stdin of the right one. Both sides run at once.
    ///
    /// The status of the pipe is that of the right side where it failed and is checked, else that
    /// of the left side where it failed and is checked, else that of the right side where it
    /// failed, else that of the left side.
    ///
    /// A start starts the left side first. Where that fails, the right side is not started. Where
    /// the right side fails to start, the start fails with its error, and the commands of the left
    /// side are neither killed nor waited for: each is polled once, and the pool keeps it while it
    /// runs.
    ///
    /// Example: `cmd!(in alloc; "ls")?.pipe(&cmd!(in alloc; "wc", "-l")?)?`
    pub fn pipe(&self, right: &Expression<E, H>) -> Result<Expression<E, H>, Error>
        ensures tree { IfOk result
            (λ made. tree_view made ≡ pipe (tree_view self.now) (tree_view right.now)) }
        ensures memory { IsOkUnless result Error.Memory }
    {
        let left = Arc::try_clone(&self.root)?;
        let right = Arc::try_clone(&right.root)?;
        let root = Arc::new(self.alloc, Node::Pipe(left, right))?;
        Ok(Expression {
            root,
            alloc: self.alloc,
        })
    }

    /// Stdin gets these bytes, then EOF. At each start a worker writes them while the commands run.
    /// A command may end without reading them all: that is no error.
    ///
    /// Example: `cmd!(in alloc; "cat")?.stdin_bytes(Vec::from_slice(alloc, "hi".as_bytes())?)?`
    pub fn stdin_bytes(&self, bytes: Vec<u8>) -> Result<Expression<E, H>, Error>
        ensures tree { IfOk result
            (λ made. tree_view made ≡ around (stdin_bytes bytes.items) (tree_view self.now)) }
        ensures memory { IsOkUnless result Error.Memory }
    {
        let bytes = Arc::new(self.alloc, bytes)?;
        self.around(Modifier::StdinBytes(bytes))
    }

    /// Stdin reads the file at this path.
    ///
    /// Each start opens the file, even where an inner redirection wins. The path is relative to the
    /// parent's folder, whatever `dir` says. Opening a FIFO blocks until its other side is opened.
    /// Where the file can't be opened the start fails with `Error::System`.
    ///
    /// Example: `cmd!(in alloc; "sort")?.stdin_path("names.txt")?`
    pub fn stdin_path(&self, path: &str) -> Result<Expression<E, H>, Error>
        ensures tree { IfOk result
            (λ made. tree_view made ≡ around (stdin_path path.now) (tree_view self.now)) }
        ensures memory { IsOkUnless result Error.Memory }
    {
        let path = String::from_str(self.alloc, path)?;
        self.around(Modifier::StdinPath(path))
    }

    /// Stdin reads this end: each command that reads it gets a duplicate. The duplicates of a file
    /// share its position: a second start reads on where the first one stopped. The end is closed
    /// when the last expression that holds it is dropped.
    ///
    /// Example: `cmd!(in alloc; "head", "-n", "1")?.stdin_file(host.adopt_file(file)?)?`
    pub fn stdin_file(&self, end: E) -> Result<Expression<E, H>, Error>
        ensures tree { IfOk result
            (λ made. tree_view made ≡ around (stdin_file end) (tree_view self.now)) }
        ensures memory { IsOkUnless result Error.Memory }
    {
        self.around(Modifier::StdinFile(end))
    }

    /// Stdin is empty: a read of it is at EOF at once.
    ///
    /// Example: `cmd!(in alloc; "cat")?.stdin_null()?`
    pub fn stdin_null(&self) -> Result<Expression<E, H>, Error>
        ensures tree { IfOk result
            (λ made. tree_view made ≡ around stdin_null (tree_view self.now)) }
        ensures memory { IsOkUnless result Error.Memory }
    {
        self.around(Modifier::StdinNull)
    }

    /// Stdout writes to the file at this path.
    ///
    /// Each start makes the file or empties it, even where an inner redirection wins. The path is
    /// relative to the parent's folder, whatever `dir` says. Opening a FIFO blocks until its other
    /// side is opened. Where the file can't be opened the start fails with `Error::System`.
    ///
    /// Example: `cmd!(in alloc; "ls")?.stdout_path("list.txt")?`
    pub fn stdout_path(&self, path: &str) -> Result<Expression<E, H>, Error>
        ensures tree { IfOk result
            (λ made. tree_view made ≡ around (stdout_path path.now) (tree_view self.now)) }
        ensures memory { IsOkUnless result Error.Memory }
    {
        let path = String::from_str(self.alloc, path)?;
        self.around(Modifier::StdoutPath(path))
    }

    /// Stdout writes to this end: each command that writes to it gets a duplicate. The duplicates
    /// of a file share its position: a second start writes on where the first one stopped. The end
    /// is closed when the last expression that holds it is dropped.
    ///
    /// Example: `cmd!(in alloc; "date")?.stdout_file(host.adopt_file(file)?)?`
    pub fn stdout_file(&self, end: E) -> Result<Expression<E, H>, Error>
        ensures tree { IfOk result
            (λ made. tree_view made ≡ around (stdout_file end) (tree_view self.now)) }
        ensures memory { IsOkUnless result Error.Memory }
    {
        self.around(Modifier::StdoutFile(end))
    }

    /// What stdout writes is discarded.
    ///
    /// Example: `cmd!(in alloc; "make")?.stdout_null()?`
    pub fn stdout_null(&self) -> Result<Expression<E, H>, Error>
        ensures tree { IfOk result
            (λ made. tree_view made ≡ around stdout_null (tree_view self.now)) }
        ensures memory { IsOkUnless result Error.Memory }
    {
        self.around(Modifier::StdoutNull)
    }

    /// What stdout writes is collected by a worker while the commands run. It comes out as `stdout`
    /// of the `Output` that `run`, a wait or a poll returns, and is lost where they fail. Under
    /// `read` and `reader` it is part of what these read.
    ///
    /// All captures of stdout in one expression share one pipe: their bytes come out together, in
    /// the order in which they were written. The output waits for EOF, which comes once each
    /// process that may write to the pipe has closed it.
    ///
    /// Example: `cmd!(in alloc; "ls")?.stdout_capture()?`
    pub fn stdout_capture(&self) -> Result<Expression<E, H>, Error>
        ensures tree { IfOk result
            (λ made. tree_view made ≡ around stdout_capture (tree_view self.now)) }
        ensures memory { IsOkUnless result Error.Memory }
    {
        self.around(Modifier::StdoutCapture)
    }

    /// Stdout goes where stderr goes outside this node.
    ///
    /// Example: `cmd!(in alloc; "echo", "careful")?.stdout_to_stderr()?`
    pub fn stdout_to_stderr(&self) -> Result<Expression<E, H>, Error>
        ensures tree { IfOk result
            (λ made. tree_view made ≡ around stdout_to_stderr (tree_view self.now)) }
        ensures memory { IsOkUnless result Error.Memory }
    {
        self.around(Modifier::StdoutToStderr)
    }

    /// Stderr writes to the file at this path. The file is opened as that of `stdout_path` is.
    ///
    /// Example: `cmd!(in alloc; "make")?.stderr_path("errors.txt")?`
    pub fn stderr_path(&self, path: &str) -> Result<Expression<E, H>, Error>
        ensures tree { IfOk result
            (λ made. tree_view made ≡ around (stderr_path path.now) (tree_view self.now)) }
        ensures memory { IsOkUnless result Error.Memory }
    {
        let path = String::from_str(self.alloc, path)?;
        self.around(Modifier::StderrPath(path))
    }

    /// Stderr writes to this end, as stdout does with `stdout_file`: duplicates of a file share its
    /// position.
    ///
    /// Example: `cmd!(in alloc; "make")?.stderr_file(host.adopt_file(file)?)?`
    pub fn stderr_file(&self, end: E) -> Result<Expression<E, H>, Error>
        ensures tree { IfOk result
            (λ made. tree_view made ≡ around (stderr_file end) (tree_view self.now)) }
        ensures memory { IsOkUnless result Error.Memory }
    {
        self.around(Modifier::StderrFile(end))
    }

    /// What stderr writes is discarded.
    ///
    /// Example: `cmd!(in alloc; "find", "/")?.stderr_null()?`
    pub fn stderr_null(&self) -> Result<Expression<E, H>, Error>
        ensures tree { IfOk result
            (λ made. tree_view made ≡ around stderr_null (tree_view self.now)) }
        ensures memory { IsOkUnless result Error.Memory }
    {
        self.around(Modifier::StderrNull)
    }

    /// What stderr writes is collected by a worker while the commands run. It comes out as `stderr`
    /// of the `Output` that `run`, a wait or a poll returns, and is lost where they fail. `read`
    /// drops it.
    ///
    /// All captures of stderr in one expression share one pipe, as those of stdout do, and the
    /// output waits for its EOF.
    ///
    /// Example: `cmd!(in alloc; "make")?.stderr_capture()?`
    pub fn stderr_capture(&self) -> Result<Expression<E, H>, Error>
        ensures tree { IfOk result
            (λ made. tree_view made ≡ around stderr_capture (tree_view self.now)) }
        ensures memory { IsOkUnless result Error.Memory }
    {
        self.around(Modifier::StderrCapture)
    }

    /// Stderr goes where stdout goes outside this node. So a capture of both has to be outside this
    /// node.
    ///
    /// Example: `cmd!(in alloc; "make")?.stderr_to_stdout()?.stdout_capture()?`
    pub fn stderr_to_stdout(&self) -> Result<Expression<E, H>, Error>
        ensures tree { IfOk result
            (λ made. tree_view made ≡ around stderr_to_stdout (tree_view self.now)) }
        ensures memory { IsOkUnless result Error.Memory }
    {
        self.around(Modifier::StderrToStdout)
    }

    /// Stdout goes where stderr goes outside this node, and stderr where stdout goes.
    ///
    /// Example: `cmd!(in alloc; "make")?.stdout_stderr_swap()?.pipe(&cmd!(in alloc; "wc")?)?`
    pub fn stdout_stderr_swap(&self) -> Result<Expression<E, H>, Error>
        ensures tree { IfOk result
            (λ made. tree_view made ≡ around stdout_stderr_swap (tree_view self.now)) }
        ensures memory { IsOkUnless result Error.Memory }
    {
        self.around(Modifier::StdoutStderrSwap)
    }

    /// The commands start in this folder. The path is relative to the parent's folder: of two such
    /// nodes the inner one counts, and they are not joined. Where the folder isn't there the start
    /// fails with `Error::System`.
    ///
    /// A program that is a relative path with a slash is relative to the parent's folder, not to
    /// this one. The paths of redirections don't change.
    ///
    /// Example: `cmd!(in alloc; "ls")?.dir("/tmp")?`
    pub fn dir(&self, path: &str) -> Result<Expression<E, H>, Error>
        ensures tree { IfOk result
            (λ made. tree_view made ≡ around (dir path.now) (tree_view self.now)) }
        ensures memory { IsOkUnless result Error.Memory }
    {
        let path = String::from_str(self.alloc, path)?;
        self.around(Modifier::Dir(path))
    }

    /// The commands have this variable, whatever is set outside this node. Names are equal without
    /// regard to the case of ASCII letters, and a spelling that the name has further outside is
    /// kept.
    ///
    /// Example: `cmd!(in alloc; "date")?.env("TZ", "UTC")?`
    pub fn env(&self, name: &str, value: &str) -> Result<Expression<E, H>, Error>
        ensures tree { IfOk result
            (λ made. tree_view made ≡ around (env name.now value.now) (tree_view self.now)) }
        ensures memory { IsOkUnless result Error.Memory }
    {
        let name = String::from_str(self.alloc, name)?;
        let value = String::from_str(self.alloc, value)?;
        self.around(Modifier::Env(EnvNameString::from(name), value))
    }

    /// The commands don't have this variable, in any spelling, whatever is set outside this node.
    ///
    /// Example: `cmd!(in alloc; "ls")?.env_remove("LS_COLORS")?`
    pub fn env_remove(&self, name: &str) -> Result<Expression<E, H>, Error>
        ensures tree { IfOk result
            (λ made. tree_view made ≡ around (env_remove name.now) (tree_view self.now)) }
        ensures memory { IsOkUnless result Error.Memory }
    {
        let name = String::from_str(self.alloc, name)?;
        self.around(Modifier::EnvRemove(EnvNameString::from(name)))
    }

    /// The commands have only these variables: the parent's and those set outside are gone. Of a
    /// name given twice, in any spelling, the first spelling and the last value count.
    ///
    /// Example: `cmd!(in alloc; "env")?.full_env(&[("PATH", "/usr/bin:/bin")])?`
    pub fn full_env(&self, pairs: &[(&str, &str)]) -> Result<Expression<E, H>, Error>
        ensures tree { IfOk result
            (λ made. tree_view made
            ≡ around (full_env (last_values (pairs_of pairs.now))) (tree_view self.now)) }
        ensures memory { IsOkUnless result Error.Memory }
    {
        let vars = vars(self.alloc, pairs)?;
        self.around(Modifier::FullEnv(vars))
    }

    /// A failure of this expression is no error: a wait returns an output with the status of the
    /// failure. In a pipe a failure of the other side still counts. A command that can't be started
    /// is still an error.
    ///
    /// Example: `cmd!(in alloc; "false")?.unchecked()?`
    pub fn unchecked(&self) -> Result<Expression<E, H>, Error>
        ensures tree { IfOk result
            (λ made. tree_view made ≡ around unchecked (tree_view self.now)) }
        ensures memory { IsOkUnless result Error.Memory }
    {
        self.around(Modifier::Unchecked)
    }

    /// Before each command is started the hook changes its spec, the outermost of several hooks
    /// first. A hook may name the ends that are passed with it by their places, from 0. A command
    /// that it gives one gets a duplicate.
    ///
    /// A start fails with `Error::Hook` where the hook stops a command, and with `Error::HookEnd`
    /// where it names a place without an end.
    ///
    /// Example: `cmd!(in alloc; "ls")?.before_spawn(hook, Vec::new(alloc))?`
    pub fn before_spawn(&self, hook: H, ends: Vec<E>) -> Result<Expression<E, H>, Error>
        ensures tree { IfOk result
            (λ made. tree_view made ≡ around (before_spawn hook ends.items) (tree_view self.now)) }
        ensures memory { IsOkUnless result Error.Memory }
    {
        self.around(Modifier::BeforeSpawn(hook, ends))
    }
}

// The pairs as a map, with the first spelling and the last value of a name given twice.
fn vars(alloc: Global, pairs: &[(&str, &str)]) -> Result<BTreeMap<EnvNameString, String>, Error>
    ensures vars { IfOk result
        (λ vars. map var_view vars.entries ≡ last_values (pairs_of pairs.now)) }
    ensures memory { IsOkUnless result Error.Memory }
{
    let mut vars = BTreeMap::new(alloc);
    for (name, value) in pairs {
        let name = String::from_str(alloc, name)?;
        let value = String::from_str(alloc, value)?;
        vars.insert(EnvNameString::from(name), value)?;
    }
    Ok(vars)
}
