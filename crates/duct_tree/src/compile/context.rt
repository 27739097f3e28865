//! The context of a node: its scope, and where its streams go.
ghost use Rattle.std.specs.Prelude.{◌≡◌, ◌+◌, IfOk, IsOkUnless};
ghost use Rattle.duct_run.specs.Flat.{root_sources};
ghost use Rattle.duct_tree.specs.ActionListView.{sources_view};

use crate::compile::action_list::more;
use duct_base::error::Error;
use duct_base::spec::Stream;
use duct_base::system::Side;
use std::alloc::AllocError;

/// Where a command gets the end of a stream from.
pub(crate) enum StreamSource<'a, E> {
    /// From this stream of the parent.
    Parents(Stream),
    /// From nowhere: the stream goes to nothing.
    Nothing,
    /// From the end at this depth of the stack.
    Slot(usize),
    /// From the capture pipe of this stream.
    Captured(Side),
    /// From this caller's end.
    Lent(&'a E),
}

impl<E> Clone for StreamSource<'_, E> {
    fn clone(&self) -> Result<Self, AllocError> {
        Ok(*self)
    }
}

impl<E> Copy for StreamSource<'_, E> {}

/// The context of a node.
pub(crate) struct NodeContext<'a, E> {
    /// The index of its scope.
    pub scope: usize,
    /// The source of stdin.
    pub input: StreamSource<'a, E>,
    /// The source of stdout.
    pub output: StreamSource<'a, E>,
    /// The source of stderr.
    pub error: StreamSource<'a, E>,
    /// How many ends are on the stack.
    pub depth: usize,
}

impl<E> Clone for NodeContext<'_, E> {
    fn clone(&self) -> Result<Self, AllocError> {
        Ok(*self)
    }
}

impl<E> Copy for NodeContext<'_, E> {}

impl<'a, E> NodeContext<'a, E> {
    /// Returns the context of the root: the root's scope, the parent's streams and an empty stack.
    pub(crate) fn root() -> NodeContext<'a, E>
        ensures scope { result.scope ≡ 0 }
        ensures wires { sources_view result ≡ root_sources }
        ensures depth { result.depth ≡ 0 }
    {
        NodeContext {
            scope: 0,
            input: StreamSource::Parents(Stream::In),
            output: StreamSource::Parents(Stream::Out),
            error: StreamSource::Parents(Stream::Err),
            depth: 0,
        }
    }

    /// Returns the same context with another source of stdin.
    pub(crate) fn with_input(self, input: StreamSource<'a, E>) -> NodeContext<'a, E>
        ensures { result ≡ record self.entry { input = input.entry } }
    {
        NodeContext { input, ..self }
    }

    /// Returns the same context with another source of stdout.
    pub(crate) fn with_output(self, output: StreamSource<'a, E>) -> NodeContext<'a, E>
        ensures { result ≡ record self.entry { output = output.entry } }
    {
        NodeContext { output, ..self }
    }

    /// Returns the same context with `by` more ends on the stack. Fails with `Error::Memory` where
    /// their count does not fit in a `usize`.
    pub(crate) fn deeper(self, by: usize) -> Result<NodeContext<'a, E>, Error>
        ensures inside { IfOk result
            (λ inside. inside ≡ record self.entry { depth = self.entry.depth + by }) }
        ensures memory { IsOkUnless result Error.Memory }
    {
        let depth = more(self.depth, by)?;
        Ok(NodeContext { depth, ..self })
    }
}
