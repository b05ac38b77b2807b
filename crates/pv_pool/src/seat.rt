//! The seats of the workers, each with its account and its bench.
ghost use Rattle.std.specs.Prelude.{◌≡◌, ℕ, ◌+◌, ◌<◌, ◌≤◌, [], ◌∷◌, ◌++◌, length, map, reverse, get_or, vec_len, vec_capacity, IfOk};
ghost use Rattle.pv_pool.specs.Seats.{told_of, bench_of};

use crate::bench::Bench;
use std::alloc::{AllocError, Global};

/// A worker's seat: its account and its bench.
#[derive(Drop)]
pub struct Seat<J: Drop, T: Drop> {
    pub told: T,
    pub bench: Bench<J>,
}

/// Room for the seats, and for what is left of them.
#[derive(Drop)]
pub struct Room<J: Drop, T: Drop> {
    pub seats: Vec<Seat<J, T>>,
    pub told: Vec<T>,
    pub benches: Vec<Bench<J>>,
}

impl<J: Drop, T: Drop> Room<J, T> {
    /// Room for `count` seats.
    pub fn new(alloc: Global, count: usize) -> Result<Room<J, T>, AllocError>
        ensures seats { IfOk result (λ r. (r.seats.items ≡ []) × (count ≤ vec_capacity r.seats)) }
        ensures told { IfOk result (λ r. (r.told.items ≡ []) × (count ≤ vec_capacity r.told)) }
        ensures benches { IfOk result (λ r. (r.benches.items ≡ []) ×
            (count ≤ vec_capacity r.benches)) }
    {
        Ok(Room {
            seats: Vec::with_capacity(alloc, count)?,
            told: Vec::with_capacity(alloc, count)?,
            benches: Vec::with_capacity(alloc, count)?,
        })
    }
}

/// Seats the workers, the last one first.
pub fn seat_all<J: Drop, T: Drop>(
    mut told: Vec<T>,
    mut benches: Vec<Bench<J>>,
    seats: &mut Vec<Seat<J, T>>,
)
    requires empty { seats.old.items ≡ [] }
    requires room { vec_len told ≤ vec_capacity seats.old }
    requires same { vec_len benches ≡ vec_len told }
    ensures told { reverse (map told_of seats.new.items) ≡ told.items }
    ensures benches { reverse (map bench_of seats.new.items) ≡ benches.items }
{
    while let Some(told) = told.pop() {
        let Some(bench) = benches.pop() else {
            unreachable!();
        };
        seats.push_reserved(Seat { told, bench });
    }
}

/// Takes the accounts and the benches from the seats, the first worker's first.
pub fn clear_seats<J: Drop, T: Drop>(
    mut seats: Vec<Seat<J, T>>,
    told: &mut Vec<T>,
    benches: &mut Vec<Bench<J>>,
)
    requires none_told { told.old.items ≡ [] }
    requires no_bench { benches.old.items ≡ [] }
    requires room_told { vec_len seats ≤ vec_capacity told.old }
    requires room_benches { vec_len seats ≤ vec_capacity benches.old }
    ensures told { told.new.items ≡ reverse (map told_of seats.items) }
    ensures benches { benches.new.items ≡ reverse (map bench_of seats.items) }
{
    while let Some(seat) = seats.pop() {
        told.push_reserved(seat.told);
        benches.push_reserved(seat.bench);
    }
}
