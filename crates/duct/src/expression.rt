//! An expression: a shared tree of commands, pipes between them, and modifiers around them.
ghost use Rattle.std.specs.Prelude.{◌≡◌, ◌∷◌, IfOk, IsOkUnless};
ghost use Rattle.duct_system.specs.SpecView.{texts_of};
ghost use Rattle.duct_start.specs.TreeView.{command};
ghost use Rattle.duct_tree.specs.NodeView.{node_view};
ghost use Rattle.duct.specs.TreeView.{tree_view};

mod builders;
mod debug;

use duct_base::error::Error;
use duct_base::exe::IntoExecutablePath;
use duct_base::spec::HookBox;
use duct_system::copy::copies_of_texts;
use duct_tree::tree::Node;
use std::alloc::{AllocError, Global};
use std::sync::Arc;

/// A command, a pipe of two expressions, or a modifier around one expression, with ends of type `E`
/// and hooks of type `H`. It describes commands: nothing runs before a start, and it may be started
/// any number of times.
///
/// Each call that makes an expression of this one adds one node and leaves this one as it was; the
/// parts are shared. A modifier changes what it wraps. Of two modifiers of one stream, variable or
/// folder, the inner one counts.
#[derive(Drop)]
pub struct Expression<E, H = HookBox> {
    root: Arc<Node<E, H>>,
    alloc: Global,
}

impl<E: Drop, H: Drop> Clone for Expression<E, H> {
    ghost is_clone = { λ expression copy. tree_view copy ≡ tree_view expression };

    /// Returns one more owner of the same tree. It allocates nothing, and fails only where there
    /// are too many owners.
    fn clone(&self) -> Result<Expression<E, H>, AllocError> {
        Ok(Expression {
            root: Arc::try_clone(&self.root)?,
            alloc: self.alloc,
        })
    }
}

/// A command: a program and its arguments, which no shell reads. Nothing is started yet.
///
/// Fails with `Error::Memory`, and only at an allocation failure; the program is then dropped.
///
/// Example: `cmd(alloc, "ls", &["-l", "/tmp"])?`
pub fn cmd<E: Drop, P: IntoExecutablePath, H: Drop>(
    alloc: Global,
    program: P,
    args: &[&str],
) -> Result<Expression<E, H>, Error>
    ensures tree { IfOk result
        (λ made. tree_view made ≡ command (P.executable program ∷ texts_of args.now)) }
    ensures memory { IsOkUnless result Error.Memory }
{
    let mut words = Vec::new(alloc);
    words.push(program.to_executable(alloc)?)?;
    words.append(&mut copies_of_texts(alloc, args)?)?;
    let words = Arc::new(alloc, words)?;
    let root = Arc::new(alloc, Node::Cmd(words))?;
    Ok(Expression { root, alloc })
}

impl<E, H> Expression<E, H> {
    /// Returns the outermost node of the tree.
    pub fn root(&self) -> &Node<E, H>
        ensures { node_view result.now ≡ tree_view self.now }
    {
        &self.root
    }

    /// Returns the allocator that the expression takes its memory from.
    pub fn allocator(&self) -> Global {
        self.alloc
    }
}
