//! The count of the requests to a scripted system, and the faults that a test set for some of them.
ghost use Rattle.std.specs.Prelude.{◌≡◌, ◌<◌, ◌≤◌, ◌++◌, ◌∷◌, [], replicate, IfSome, IfNone, OnOk, OnErr};
ghost use Rattle.duct_script.specs.Settings.{place_of, fault_for, next_fault, with_request, is_for};

use duct_system::system::Fault;
use std::alloc::{AllocError, Global};

/// The sort of a request. Each sort has the name of the entry that its requests add to the journal.
#[derive(Clone, Copy, Debug, PartialEq, Eq)]
pub enum Sort {
    Environment,
    Pipe,
    OpenRead,
    Create,
    Duplicate,
    Parent,
    Canonicalize,
    Spawn,
    Feed,
    Drain,
    Reader,
    Close,
}

/// How many sorts there are.
const SORTS: usize = 12;

impl Sort {
    /// Returns the place of this sort among all sorts, counted from 0.
    pub fn place(self) -> usize
        ensures place { result ≡ place_of self }
        ensures within { result < SORTS }
    {
        self as usize
    }

    /// All sorts, in their order.
    const ALL: [Sort; SORTS] = [
        Sort::Environment,
        Sort::Pipe,
        Sort::OpenRead,
        Sort::Create,
        Sort::Duplicate,
        Sort::Parent,
        Sort::Canonicalize,
        Sort::Spawn,
        Sort::Feed,
        Sort::Drain,
        Sort::Reader,
        Sort::Close,
    ];

    /// Returns the sort at this place among all sorts, counted from 0, or `None` if there is none.
    pub fn at(place: usize) -> Option<Sort>
        ensures some { IfSome result (λ sort. place_of sort ≡ place) }
        ensures none { IfNone result (SORTS ≤ place) }
    {
        Sort::ALL.get(place).copied()
    }
}

/// A fault for the request with this number. It is counted among the requests of its sort if it has
/// one, otherwise among all requests.
#[derive(Clone, Copy, Drop)]
struct Refusal {
    sort: Option<Sort>,
    request: u64,
    fault: Fault,
}

impl Refusal {
    /// Returns whether the fault is for the request with the number `among_all` among all requests,
    /// and with the number `among_sort` among those of the sort at `place`.
    fn is_for(&self, place: usize, among_all: u64, among_sort: u64) -> bool
        ensures { result ≡ is_for place among_all among_sort self.now }
    {
        match self.sort {
            None => self.request == among_all,
            Some(sort) => sort.place() == place && self.request == among_sort,
        }
    }
}

/// The count of the requests so far, from 1, and the faults that are set.
#[derive(Drop)]
pub struct Requests {
    asked: u64,
    of_sort: [u64; SORTS],
    refusals: Vec<Refusal>,
}

impl Requests {
    /// Returns the count before the first request, with no fault set.
    pub fn new(alloc: Global) -> Requests
        ensures asked { result.asked ≡ 0 }
        ensures of_sort { result.of_sort ≡ replicate SORTS 0 }
        ensures refusals { result.refusals.items ≡ [] }
    {
        Requests {
            asked: 0,
            of_sort: [0; SORTS],
            refusals: Vec::new(alloc),
        }
    }

    /// Sets a fault for the request with this number, counted among those of `sort` if one is
    /// named, otherwise among all. Fails only on allocation failure; no fault is then set.
    pub fn refuse(
        &mut self,
        sort: Option<Sort>,
        request: u64,
        fault: Fault,
    ) -> Result<(), AllocError>
        ensures ok { OnOk result
            (self.new.refusals.items ≡ self.old.refusals.items
            ++ record { sort = sort; request = request; fault = fault } ∷ []) }
        ensures err { OnErr result (self.new.refusals.items ≡ self.old.refusals.items) }
        ensures rest { self.new ≡ record self.old { refusals = self.new.refusals } }
    {
        let refusal = Refusal {
            sort,
            request,
            fault,
        };
        self.refusals.push(refusal)?;
        Ok(())
    }

    /// Returns how many requests there were.
    pub fn asked(&self) -> u64
        ensures { result ≡ self.now.asked }
    {
        self.asked
    }

    /// Counts a request of this sort, and returns the fault that is set for it, if there is one.
    pub fn count(&mut self, sort: Sort) -> Option<Fault>
        ensures fault { result ≡ next_fault sort self.old }
        ensures counted { self.new ≡ with_request sort self.old }
    {
        self.asked = self.asked.saturating_add(1);
        let place = sort.place();
        let of_sort = self.of_sort[place].saturating_add(1);
        self.of_sort[place] = of_sort;
        first_fault(self.refusals.as_slice(), place, self.asked, of_sort)
    }
}

/// Returns the fault of the first refusal for the request with these numbers, as `is_for` decides.
fn first_fault(refusals: &[Refusal], place: usize, among_all: u64, among_sort: u64) -> Option<Fault>
    ensures { result ≡ fault_for place among_all among_sort refusals.now }
{
    for refusal in refusals {
        if refusal.is_for(place, among_all, among_sort) {
            return Some(refusal.fault);
        }
    }
    None
}
