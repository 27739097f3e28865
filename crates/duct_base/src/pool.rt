//! Children that a start or a handle gave up while they ran. A pool keeps them, so that they can be
//! polled and reaped.
ghost use Rattle.std.specs.Prelude.{◌≡◌, ◌+◌, ◌<◌, ◌^◌, ◌∷◌, ◌++◌, List, [], drop, length, take, Some, None};
ghost use Rattle.duct_system.specs.Child.{one_more};
ghost use Rattle.duct_base.specs.Pool.{AddsUp, IsGiven, Loses, PollsAll};

use duct_system::system::{Child, ExitStatus, Fault, Numbered};
use std::alloc::{AllocError, Global};
use std::collections::LinkedList;
use std::marker::Model;

/// Room for one child in any pool, allocated before there is a child.
#[derive(Drop)]
pub struct Reservation<C> {
    node: LinkedList<Option<C>>,
}

impl<C> Model for Reservation<C> {
    ghost use Rattle.std.specs.Prelude.{◌≡◌, ◌∷◌, [], None};

    ghost Value = { Unit {0} };

    ghost view = { λ s. tt };

    ghost invariant = { λ s. s.node ≡ None ∷ [] };
}

/// Allocates room for a child. Fails only at an allocation failure.
pub fn reservation_new<C: Drop>(alloc: Global) -> Result<Reservation<C>, AllocError> {
    let mut node = LinkedList::new(alloc);
    node.push_back(None)?;
    Ok(Reservation { node })
}

/// A child with its room in any pool. Polls of it and orders to it go to the child.
#[derive(Drop)]
pub struct Place<C> {
    child: C,
    reservation: Reservation<C>,
}

impl<C> Model for Place<C> {
    ghost Value = { C };

    ghost view = { λ p. p.child };
}

/// Joins a child and its room. It is meant for a start only.
pub fn place_new<C>(child: C, reservation: Reservation<C>) -> Place<C>
    ensures { result ≡ child }
{
    Place { child, reservation }
}

impl<C: Drop> Place<C> {
    /// Returns the child and drops its room.
    pub fn into_child(self) -> C
        ensures { result ≡ self }
    {
        let Place { child, reservation } = self;
        drop(reservation);
        child
    }
}

impl<C: Child> Numbered for Place<C> {
    ghost number_of = { λ p. C.number_of p };

    fn number(&self) -> u64 {
        self.child.number()
    }
}

impl<C: Child> Child for Place<C> {
    ghost may_answer = { C.may_answer };

    ghost may_obey = { C.may_obey };

    ghost child_view = { λ p. C.child_view p };

    fn poll(&mut self) -> Result<Option<ExitStatus>, Fault> {
        self.child.poll()
    }

    fn kill(&mut self) -> Result<(), Fault> {
        self.child.kill()
    }

    fn signal(&mut self, signal: i32) -> Result<(), Fault> {
        self.child.signal(signal)
    }

    fn id(&self) -> u32 {
        self.child.id()
    }

    fn leads(&self) -> bool {
        self.child.leads()
    }

    ghost has_number = { λ p. C.has_number p };
}

/// A pool of children that were given up. Each start borrows a pool, and one pool may serve many
/// starts.
#[derive(Drop)]
pub struct Pool<C> {
    nodes: LinkedList<Option<C>>,
    given: u64,
    reaped: u64,
    lost: u64,
}

impl<C> Model for Pool<C> {
    ghost use Rattle.std.specs.Prelude.{◌≡◌, map, Some};
    ghost use Rattle.duct_base.specs.Pool.{PoolView, AddsUp, in_nodes};

    ghost Value = { PoolView C };

    ghost view = { λ p. record {
      children = in_nodes p.nodes;
      given = p.given;
      reaped = p.reaped;
      lost = p.lost;
    } };

    ghost invariant = { λ p. (p.nodes ≡ map Some (in_nodes p.nodes))
        × AddsUp (record
        { children = in_nodes p.nodes; given = p.given; reaped = p.reaped; lost = p.lost }) };
}

impl<C: Drop> Pool<C> {
    /// Returns an empty pool.
    pub fn new(alloc: Global) -> Pool<C>
        ensures { result ≡ record { children = []; given = 0; reaped = 0; lost = 0 } }
    {
        Pool {
            nodes: LinkedList::new(alloc),
            given: 0,
            reaped: 0,
            lost: 0,
        }
    }

    /// Returns how many children it keeps. While `given` is below the greatest u64, it is the sum
    /// of `len`, `reaped` and `lost`.
    pub fn len(&self) -> usize
        ensures length { result ≡ length self.now.children }
        ensures adds_up { AddsUp self.now }
    {
        self.nodes.len()
    }

    /// Returns how many children were ever given to it, at most the greatest u64.
    pub fn given(&self) -> u64
        ensures { result ≡ self.now.given }
    {
        self.given
    }

    /// Returns how many of them were reaped (found ended by a poll), at most the greatest u64.
    pub fn reaped(&self) -> u64
        ensures { result ≡ self.now.reaped }
    {
        self.reaped
    }

    /// Returns how many of them were dropped, and not reaped, at most the greatest u64: a poll
    /// returned a fault, or there was no room to keep the child.
    pub fn lost(&self) -> u64
        ensures { result ≡ self.now.lost }
    {
        self.lost
    }

    // Keeps a child that runs, after the others. There is room for fewer than 2 ^ 63 nodes. Without
    // room the child is dropped and counted as lost.
    fn keep(&mut self, child: C, reservation: Reservation<C>)
        ensures counts { self.new.given ≡ one_more self.old.given }
        ensures stays { (more : List C) × (self.new.children ≡ self.old.children ++ more) }
        ensures keeps { length self.old.children + 1 < 2 ^ 63 → self.new ≡ record self.old {
          children = self.old.children ++ child ∷ [];
          given = one_more self.old.given;
        } }
    {
        let Reservation { mut node } = reservation;
        fill(&mut node, child);
        if self.nodes.append(&mut node).is_err() {
            raise(&mut self.lost);
        }
        raise(&mut self.given);
    }

    // Counts a child that had ended when it was given.
    fn reap(&mut self)
        ensures { self.new ≡ record self.old {
          given = one_more self.old.given;
          reaped = one_more self.old.reaped;
        } }
    {
        raise(&mut self.given);
        raise(&mut self.reaped);
    }

    // Counts a child whose poll returned a fault when it was given.
    fn lose(&mut self)
        ensures { self.new ≡ record self.old {
          given = one_more self.old.given;
          lost = one_more self.old.lost;
        } }
    {
        raise(&mut self.given);
        raise(&mut self.lost);
    }
}

impl<C: Child> Pool<C> {
    /// Polls every child once, in order. One that runs stays, one that has ended counts as reaped,
    /// and one whose poll returns a fault counts as lost; the fault is not returned. It doesn't
    /// block and doesn't allocate.
    pub fn sweep(&mut self)
        ensures { PollsAll C.may_answer C.child_view self.old.children [] 0 self.old self.new }
    {
        let count = self.len();
        for _done in 0..count {
            self.sweep_first();
        }
    }

    // Polls the first child. One that runs moves to the end. One that has ended, or whose poll
    // returns a fault, is removed and counted.
    fn sweep_first(&mut self)
        requires { 0 < length self.old.children }
        ensures { PollsAll C.may_answer C.child_view (take 1 self.old.children)
            (drop 1 self.old.children) 0 self.old self.new }
    {
        let mut rest = others(&mut self.nodes);
        let mut child = vacate(&mut self.nodes);
        match child.poll() {
            Ok(None) => {
                fill(&mut self.nodes, child);
                let _ = rest.append(&mut self.nodes);
                self.nodes = rest;
            }
            Ok(Some(_)) => {
                self.nodes = rest;
                raise(&mut self.reaped);
            }
            Err(_) => {
                self.nodes = rest;
                raise(&mut self.lost);
            }
        }
    }
}

/// Gives a child to a pool. The child is polled once: one that runs goes to the end of the pool,
/// one that has ended counts as reaped, and one whose poll returns a fault counts as lost. A pool
/// has room for fewer than 2^63 children: one that runs and finds no room is dropped and counts as
/// lost. It doesn't block and doesn't allocate. It is meant for a start and a handle only.
pub fn pool_take<C: Child>(pool: &mut Pool<C>, place: Place<C>)
    ensures { IsGiven C.may_answer C.child_view (place ∷ []) pool.old pool.new }
{
    let _ = &pool.nodes;
    let Place {
        mut child,
        reservation,
    } = place;
    match child.poll() {
        Ok(None) => pool.keep(child, reservation),
        Ok(Some(_)) => pool.reap(),
        Err(_) => pool.lose(),
    }
}

/// Counts as many children as this, which were lost before they could be given: each as given and
/// as lost. It is meant for a handle only.
pub fn pool_lose<C>(pool: &mut Pool<C>, count: usize)
    ensures { Loses count pool.old pool.new }
{
    if count > 0 {
        pool.given = pool.given.saturating_add(count as u64);
        pool.lost = pool.lost.saturating_add(count as u64);
    }
}

// Adds one to the count, up to the greatest u64.
fn raise(count: &mut u64)
    ensures { count.new ≡ one_more count.old }
{
    *count = count.saturating_add(1);
}

// Puts a child into the one empty node of this list.
fn fill<C: Drop>(node: &mut LinkedList<Option<C>>, child: C)
    requires { node.old ≡ None ∷ [] }
    ensures { node.new ≡ Some child ∷ [] }
{
    if let Some(slot) = node.front_mut() {
        *slot = Some(child);
    }
}

// Takes the child out of the one node of this list.
fn vacate<C: Drop>(node: &mut LinkedList<Option<C>>) -> C
    requires { (child : C) × (node.old ≡ Some child ∷ []) }
    ensures was { node.old ≡ Some result ∷ [] }
    ensures empty { node.new ≡ None ∷ [] }
{
    let child = match node.front_mut() {
        Some(slot) => slot.take(),
        None => None,
    };
    match child {
        Some(child) => child,
        None => unreachable!(),
    }
}

// Leaves the first node in the list, and returns the others.
fn others<C: Drop>(nodes: &mut LinkedList<Option<C>>) -> LinkedList<Option<C>>
    requires { 0 < length nodes.old }
    ensures whole { nodes.old ≡ nodes.new ++ result }
    ensures one { length nodes.new ≡ 1 }
    ensures fits { length nodes.old < 2 ^ 63 }
{
    let _ = nodes.len();
    match nodes.split_off(1) {
        Ok(rest) => rest,
        Err(_) => unreachable!(),
    }
}
