//! The debug text of an expression.

use super::Expression;
use std::fmt;

impl<E, H> fmt::Debug for Expression<E, H> {
    ghost use Rattle.duct_tree.specs.NodeView.{shown};
    ghost use Rattle.duct.specs.TreeView.{tree_view};

    ghost debug_output = { λ expression. shown (tree_view expression) };

    /// Writes `Cmd(["a", "b"])` for a command, `Pipe(L, R)` for a pipe, and `Io(Modifier, X)` for a
    /// modifier around X. An end is `<end>` and a hook `<closure>`. The text is promised where all
    /// words, paths, names and values are printable ASCII.
    fn fmt<W: fmt::Write>(&self, f: &mut fmt::Formatter<W>) -> fmt::Result {
        self.root().fmt(f)
    }
}
