//! Plain functions that read a journal: which ends were returned and spent, whether these balance,
//! the trace, and where an end comes from.
ghost use Rattle.std.specs.Prelude.{◌≡◌, ◌++◌, ◌↔◌, map, IfOk, OnOk, IsTrue};
ghost use Rattle.duct_system.specs.EntryView.{entry_view};
ghost use Rattle.duct_system.specs.Trace.{trace, is_traced};
ghost use Rattle.duct_system.specs.Ledger.{opened_numbers, spent_numbers, count_of, IsBalanced, open_count};
ghost use Rattle.duct_system.specs.Origin.{origin};
ghost use Rattle.duct_system.specs.Streams.{present};
ghost use Rattle.duct_script.specs.Checker.{Balances, BalancesAt, AllBalance, origin_of};

use duct_system::system::{Entry, Side};
use std::alloc::{AllocError, Global};

/// Where an end comes from.
#[derive(Clone, Copy, Debug, PartialEq, Eq)]
pub enum Source {
    /// It is the end with this number, which a pipe or a file request returned, or a duplicate of
    /// it.
    Opened(u64),
    /// It is a duplicate of this stream of the parent.
    ParentOf(Side),
    /// It is the end with this number, which no entry returned, or a duplicate of it: the end was
    /// lent.
    Lent(u64),
}

/// Returns the numbers of the ends that requests returned, in order. Fails only on allocation
/// failure.
pub fn opened_numbers(alloc: Global, entries: &[Entry]) -> Result<Vec<u64>, AllocError>
    ensures { IfOk result (λ numbers. numbers.items ≡ opened_numbers (map entry_view entries.now)) }
{
    let mut numbers = Vec::new(alloc);
    for entry in entries {
        push_present(&mut numbers, &entry.opened())?;
    }
    Ok(numbers)
}

/// Returns the numbers of the ends that were spent, in order: those that a request took. Fails only
/// on allocation failure.
pub fn spent_numbers(alloc: Global, entries: &[Entry]) -> Result<Vec<u64>, AllocError>
    ensures { IfOk result (λ numbers. numbers.items ≡ spent_numbers (map entry_view entries.now)) }
{
    let mut numbers = Vec::new(alloc);
    for entry in entries {
        push_present(&mut numbers, &entry.spent())?;
    }
    Ok(numbers)
}

/// Returns whether the spent numbers are the returned ones, in some order, each number once. Fails
/// only on allocation failure.
pub fn is_balanced(alloc: Global, entries: &[Entry]) -> Result<bool, AllocError>
    ensures { IfOk result (λ balanced. IsTrue balanced ↔ IsBalanced (map entry_view entries.now)) }
{
    let got = opened_numbers(alloc, entries)?;
    let spent = spent_numbers(alloc, entries)?;
    Ok(balance(got.as_slice(), spent.as_slice()))
}

/// Returns how many ends were returned and are not spent yet. Fails only on allocation failure.
pub fn open_count(alloc: Global, entries: &[Entry]) -> Result<usize, AllocError>
    ensures { IfOk result (λ count. count ≡ open_count (map entry_view entries.now)) }
{
    let got = opened_numbers(alloc, entries)?.len();
    let spent = spent_numbers(alloc, entries)?.len();
    Ok(got.saturating_sub(spent))
}

/// Returns the entries that a plan covers: all but duplicates, ends of the parent's streams, and
/// closes. Fails only on allocation failure.
pub fn trace(alloc: Global, entries: &[Entry]) -> Result<Vec<&Entry>, AllocError>
    ensures { IfOk result
        (λ traced. map (λ e. entry_view e.now) traced.items ≡ trace (map entry_view entries.now)) }
{
    let mut traced = Vec::new(alloc);
    for entry in entries {
        if in_trace(entry) {
            traced.push(entry)?;
        }
    }
    Ok(traced)
}

/// Returns whether a plan covers this entry.
pub fn in_trace(entry: &Entry) -> bool
    ensures { result ≡ is_traced (entry_view entry.now) }
{
    !matches!(
        entry,
        Entry::Duplicate(_, _) | Entry::Parent(_, _) | Entry::Close(_)
    )
}

/// Returns where the end with this number comes from.
pub fn origin(entries: &[Entry], number: u64) -> Source
    ensures { origin_of result ≡ origin (map entry_view entries.now) number }
{
    let mut number = number;
    let mut left = entries;
    while let Some((last, earlier)) = left.split_last() {
        match last {
            Entry::Pipe(Ok((reader, writer))) if number == *reader || number == *writer => {
                return Source::Opened(number);
            }
            Entry::OpenRead(_, Ok(end)) if number == *end => return Source::Opened(number),
            Entry::Create(_, Ok(end)) if number == *end => return Source::Opened(number),
            Entry::Parent(side, Ok(end)) if number == *end => return Source::ParentOf(*side),
            Entry::Duplicate(lent, Ok(end)) if number == *end => number = *lent,
            _ => {}
        }
        left = earlier;
    }
    Source::Lent(number)
}

/// Returns whether each number occurs equally often in both lists, and at most once.
fn balance(got: &[u64], spent: &[u64]) -> bool
    ensures { IsTrue result ↔ Balances got.now spent.now }
{
    all_balance(got, got, spent) && all_balance(spent, got, spent)
}

/// Returns whether each of these numbers occurs equally often in both lists, and at most once.
fn all_balance(numbers: &[u64], got: &[u64], spent: &[u64]) -> bool
    ensures { IsTrue result ↔ AllBalance got.now spent.now numbers.now }
{
    for number in numbers {
        if !balances_at(*number, got, spent) {
            return false;
        }
    }
    true
}

/// Returns whether this number occurs equally often in both lists, and at most once.
fn balances_at(number: u64, got: &[u64], spent: &[u64]) -> bool
    ensures { IsTrue result ↔ BalancesAt got.now spent.now number }
{
    let times_got = count_of(number, got);
    times_got <= 1 && count_of(number, spent) == times_got
}

/// Returns how often a number occurs in a list.
fn count_of(number: u64, numbers: &[u64]) -> usize
    ensures { result ≡ count_of number numbers.now }
{
    numbers.iter().filter(|other| **other == number).count()
}

// Adds the numbers that aren't missing.
fn push_present(numbers: &mut Vec<u64>, ends: &[Option<u64>]) -> Result<(), AllocError>
    ensures { OnOk result (numbers.new.items ≡ numbers.old.items ++ present ends.now) }
{
    for end in ends {
        if let Some(end) = end {
            numbers.push(*end)?;
        }
    }
    Ok(())
}
