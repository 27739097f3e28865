//! A core that is told events.
use crate::parts::Parts;
use duct_base::status::{Core, Drains, Event, Reply, Shape, Word};
use duct_base::system::Side;
use duct_script::PollAnswer;
use rows_table::{Named, TableError, first_word, texts};
use std::alloc::{AllocError, Global};

/// Adds the replies to the events of a row. Each is followed by that in one run, if it differs.
pub fn push_replies(text: &mut String, row: &Parts) -> Result<(), TableError> {
    let (shape, drains, events) = (shape(row)?, drains(row), events(row)?);
    let others = Core::run(
        row.alloc,
        shape.try_clone(row.alloc)?,
        drains,
        events.as_slice(),
    )?;
    let mut core = Core::new(row.alloc, shape, drains)?;
    for (event, other) in events.into_iter().zip(others) {
        push_both(text, &core.step(event), &other)?;
    }
    Ok(())
}

fn push_both(text: &mut String, reply: &Reply, other: &Reply) -> Result<(), AllocError> {
    push_reply(text, reply)?;
    if reply != other {
        text.push_str(", but in one run ")?;
        push_reply(text, other)?;
    }
    text.push_str("; ")
}

fn drains(row: &Parts) -> Drains {
    let captured = row.text("captured");
    Drains {
        out: !captured.is_empty(),
        err: captured == "both",
    }
}

fn shape(row: &Parts) -> Result<Shape, TableError> {
    let alloc = row.alloc;
    let mut shapes = Vec::new(alloc);
    for word in row.text("shape").split_whitespace() {
        let shape = match word {
            "input" => Shape::Input(last(alloc, &mut shapes)?),
            "unchecked" => Shape::Unchecked(last(alloc, &mut shapes)?),
            "pipe" => {
                let right = last(alloc, &mut shapes)?;
                Shape::Pipe(last(alloc, &mut shapes)?, right)
            }
            words => Shape::Command(texts(alloc, words)?),
        };
        shapes.push(shape)?;
    }
    Ok(shapes.pop().ok_or("no shape")?)
}

/// Removes and returns the last shape.
fn last(alloc: Global, shapes: &mut Vec<Shape>) -> Result<Box<Shape>, TableError> {
    Ok(Box::new(alloc, shapes.pop().ok_or("no shape")?)?)
}

fn events(row: &Parts) -> Result<Vec<Event>, TableError> {
    let mut events = Vec::new(row.alloc);
    for text in row.text("events").split_terminator(';') {
        events.push(event(row.alloc, text.trim())?)?;
    }
    Ok(events)
}

fn event(alloc: Global, text: &str) -> Result<Event, TableError> {
    let (source, word) = first_word(text);
    match source {
        "conclude" => Ok(Event::Conclude),
        "out" => Ok(Event::Drain(Side::Out, Named::named(alloc, word)?)),
        "err" => Ok(Event::Drain(Side::Err, Named::named(alloc, word)?)),
        "input" => {
            let (at, word) = first_word(word);
            Ok(Event::Input(at.parse()?, Named::named(alloc, word)?))
        }
        at => {
            let word = match PollAnswer::named(alloc, word)? {
                PollAnswer::Running => Word::Running,
                PollAnswer::Ended(status) => Word::Ended(status),
                PollAnswer::Fault(fault) => Word::Fault(fault),
            };
            Ok(Event::Command(at.parse()?, word))
        }
    }
}

fn push_reply(text: &mut String, reply: &Reply) -> Result<(), AllocError> {
    match reply {
        Reply::Noted | Reply::Unknown | Reply::Pending => write!(text, "{reply:?}"),
        Reply::Memory => text.push_str("out of memory"),
        Reply::Fault(fault) => write!(text, "Fault {:?}", fault.kind),
        Reply::Failed(message) => write!(text, "Failed {message}"),
        Reply::Answer(output) => {
            let (stdout, stderr) = (output.stdout.as_slice(), output.stderr.as_slice());
            write!(text, "Answer {:?} {stdout:?} {stderr:?}", output.status)
        }
    }
}
