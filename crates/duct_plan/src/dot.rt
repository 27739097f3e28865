//! The drawing of a plan: a graph in the DOT language of Graphviz.
use crate::items::{Item, Plan, Target};
use crate::requests::program_of;
use duct::Stream;
use std::fmt::{self, Formatter, Write};

/// A plan as a directed graph in the DOT language, as `dot -Tsvg` reads it.
///
/// Its nodes are the commands, the files, the pipes and the workers; the node of the request at
/// place 3 is `n3`. A command has its words for a label, with a space before each argument, a file
/// its path, and a pipe is a point. `stdin`, `stdout` and `stderr` are the parent's streams,
/// `nothing` is what `/dev/null` is, and `caller` has the caller's ends: these are there where they
/// are used. An edge goes where bytes go. An edge into a command is its stdin, an edge out of it
/// its stdout, or its stderr where it has this label. Folders, variables, hooks and canonical paths
/// are not drawn.
///
/// DOT reads the label of words and paths in printable ASCII back as it is, but for HTML's names of
/// characters: Graphviz shows `&lt;` in a label as `<`.
#[derive(Drop)]
pub struct PlanDot<'a, 't, E, H>(pub &'a Plan<'t, E, H>);

impl<E, H> fmt::Display for PlanDot<'_, '_, E, H> {
    fn fmt<W: Write>(&self, f: &mut Formatter<W>) -> fmt::Result {
        f.write_str("digraph plan {\n  rankdir=LR;\n")?;
        for (place, item) in self.0.items.iter().enumerate() {
            match item {
                Item::Environment | Item::Canonicalize(_) => {}
                Item::Pipe => write!(f, "  n{place} [shape=point];\n")?,
                Item::OpenRead(path) | Item::Create(path) => {
                    write!(f, "  n{place} [label={path:?}, shape=note];\n")?
                }
                Item::Spawn(found, words) => {
                    write!(f, "  n{place} [label={:?}", program_of(words))?;
                    for argument in words.get(1..).unwrap_or(&[]) {
                        write!(f, " + \" \" + {argument:?}")?;
                    }
                    write!(f, ", shape=box];\n  {} -> n{place};\n", Joined(found.input))?;
                    write!(f, "  n{place} -> {};\n", Joined(found.output))?;
                    write!(f, "  n{place} -> {} [label=stderr];\n", Joined(found.error))?
                }
                Item::Feed(pipe, _) => {
                    write!(f, "  n{place} [label=\"input worker\"];\n")?;
                    write!(f, "  n{place} -> n{pipe};\n")?
                }
                Item::Drain(pipe) => {
                    write!(f, "  n{place} [label=\"capture worker\"];\n")?;
                    write!(f, "  n{pipe} -> n{place};\n")?
                }
                Item::Reader(pipe) => {
                    write!(f, "  n{place} [label=\"reader\"];\n")?;
                    write!(f, "  n{pipe} -> n{place};\n")?
                }
            }
        }
        f.write_str("}\n")
    }
}

/// The node that a stream joins its command to.
#[derive(Drop)]
struct Joined<'t, E>(Target<'t, E>);

impl<E> fmt::Display for Joined<'_, E> {
    fn fmt<W: Write>(&self, f: &mut Formatter<W>) -> fmt::Result {
        match self.0 {
            Target::Parents(Stream::In) => f.write_str("stdin"),
            Target::Parents(Stream::Out) => f.write_str("stdout"),
            Target::Parents(Stream::Err) => f.write_str("stderr"),
            Target::Nothing => f.write_str("nothing"),
            Target::ReaderAt(place) | Target::WriterAt(place) | Target::FileAt(place) => {
                write!(f, "n{place}")
            }
            Target::Lends(_) => f.write_str("caller"),
        }
    }
}
