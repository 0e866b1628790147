//! Which letters are settled: by a mark, below which all are, and edges above it, at which that
//! changes.
ghost use Rattle.std.specs.Prelude.{◌≡◌, ◌≢◌, ◌-◌, ◌^◌, ◌<◌, ◌≤◌, ◌%◌, ◌+◌, ℕ, [], ◌∷◌, true, false, IfOk, IfErr, IfNone, IfSome, OnOk, get_or, length, nat_le, not, if◌then◌else◌};
ghost use Rattle.dsn_journal.specs.inner.SettledLetters.{place_of};
ghost use Rattle.dsn_journal.specs.SettledLetters.{AreEdges, Rise, SettlesAlso, count_at_most, first_edge, is_settled, last_edge};

use std::alloc::{AllocError, Global};
use std::marker::Model;

/// The serials of the letters that are settled. Contracts see the edges: the letters below the
/// first are settled, those from it to below the second aren't, and so on.
#[derive(Drop)]
pub struct SettledLetters {
    edges: Vec<u64>,
}

impl Model for SettledLetters {
    ghost use Rattle.std.specs.Prelude.{ℕ, List};
    ghost use Rattle.dsn_journal.specs.SettledLetters.{AreEdges};

    ghost Value = { List ℕ };

    ghost view = { λ s. s.edges.items };

    ghost invariant = { λ s. AreEdges s.edges.items };
}

impl SettledLetters {
    /// Returns the letters below this mark. Returns an error if memory is refused.
    pub fn below(alloc: Global, mark: u64) -> Result<SettledLetters, AllocError>
        ensures { IfOk result (λ letters. letters ≡ mark ∷ []) }
    {
        let mut edges = Vec::new(alloc);
        edges.push(mark)?;
        Ok(SettledLetters { edges })
    }

    /// Returns the letters of these edges. Returns `None` if they don't rise, or their number isn't
    /// odd.
    pub fn of_edges(edges: Vec<u64>) -> Option<SettledLetters>
        ensures edges { IfSome result (λ letters. letters ≡ edges.items) }
        ensures valid { IfSome result (λ _. AreEdges edges.items) }
        ensures none { IfNone result (AreEdges edges.items → ⊥) }
    {
        let _last = edges.last()?;
        if edges.len() % 2 == 1 && do_rise(&edges) {
            Some(SettledLetters { edges })
        } else {
            None
        }
    }

    /// The edges, of which the first is the mark.
    pub fn edges(&self) -> &[u64]
        ensures edges { result.now ≡ self.now }
        ensures valid { AreEdges self.now }
    {
        &self.edges
    }

    /// The mark: the lowest serial of a letter that isn't settled.
    pub fn mark(&self) -> u64
        ensures mark { result ≡ first_edge self.now }
        ensures valid { AreEdges self.now }
    {
        self.edges[0]
    }

    /// The serial from which on no letter is settled: the last edge.
    pub fn end(&self) -> u64
        ensures end { result ≡ last_edge self.now }
        ensures above { first_edge self.now ≤ result }
    {
        self.edges[self.edges.len() - 1]
    }

    /// Whether the letter with this serial is settled.
    pub fn is_settled(&self, serial: u64) -> bool
        ensures { result ≡ is_settled self.now serial }
    {
        count_at_most(&self.edges, serial) % 2 == 0
    }

    /// Returns these letters and the one with this serial, which may be one of them. Returns an error
    /// if memory is refused.
    pub fn with_letter(&self, alloc: Global, serial: u64) -> Result<SettledLetters, AllocError>
        requires { serial < 2 ^ 64 - 1 }
        ensures { IfOk result (λ letters. SettlesAlso serial self.now letters) }
    {
        let mut edges = self.edges.as_slice().to_vec(alloc)?;
        if !self.is_settled(serial) {
            change_at(&mut edges, serial)?;
            change_at(&mut edges, serial + 1)?;
        }
        let _last = edges.last();
        Ok(SettledLetters { edges })
    }
}

/// Whether each number is more than the one before.
fn do_rise(edges: &[u64]) -> bool
    ensures rise { result ≡ true → Rise 0 edges.now }
    ensures not { result ≡ false → Rise 0 edges.now → ⊥ }
{
    for i in 1..edges.len() {
        if edges[i - 1] >= edges[i] {
            return false;
        }
    }
    true
}

/// Adds an edge in its place, or removes it if it is there: each letter from it on is settled if it
/// wasn't, and isn't if it was. Returns an error if memory is refused.
fn change_at(edges: &mut Vec<u64>, edge: u64) -> Result<(), AllocError>
    requires { Rise 0 edges.old.items }
    ensures rise { OnOk result (Rise 0 edges.new.items) }
    ensures odd { OnOk result (length edges.new.items % 2 ≡ (length edges.old.items + 1) % 2) }
    ensures changed { OnOk result ((serial : ℕ) → is_settled edges.new.items serial
        ≡ (if nat_le edge serial then not (is_settled edges.old.items serial)
        else is_settled edges.old.items serial)) }
{
    match find_edge(edges, edge) {
        Ok(place) => {
            edges.remove(place);
        }
        Err(place) => edges.insert(place, edge)?,
    }
    Ok(())
}

/// Finds an edge: its place, or else the place where it belongs.
fn find_edge(edges: &[u64], edge: u64) -> Result<usize, usize>
    ensures found { IfOk result (λ place. (place ≡ place_of edge edges.now)
        × (place < length edges.now) × (get_or edges.now place 0 ≡ edge)) }
    ensures missing { IfErr result (λ place. (place ≡ place_of edge edges.now)
        × (place < length edges.now → get_or edges.now place 0 ≢ edge)) }
    ensures within { IfErr result (λ place. place ≤ length edges.now) }
{
    let place = count_below(edges, edge);
    match edges.get(place) {
        Some(found) if *found == edge => Ok(place),
        _ => Err(place),
    }
}

/// How many edges are at most this serial.
fn count_at_most(edges: &[u64], serial: u64) -> usize
    ensures { result ≡ count_at_most serial edges.now }
{
    edges.iter().filter(|edge| **edge <= serial).count()
}

/// How many edges, from the first on, are below this one.
fn count_below(edges: &[u64], edge: u64) -> usize
    ensures count { result ≡ place_of edge edges.now }
    ensures within { result ≤ length edges.now }
{
    edges.iter().take_while(|it| **it < edge).count()
}
