//! Points.
ghost use Rattle.std.specs.Prelude.{◌≡◌, ◌<◌, length, slice_index_or, IfOk};
ghost use Rattle.pv_least.specs.Points.{AreFinite, lows_of};

use pv_box::IBox;
use pv_num::{Memory, Num};
use std::alloc::Global;
use std::marker::Model;

/// A point with 1 to 12 finite numbers. Contracts see the list of its numbers.
#[derive(Drop)]
pub struct Point {
    numbers: Vec<Num>,
}

impl Model for Point {
    ghost use Rattle.std.specs.Prelude.{List};
    ghost use Rattle.pv_num.specs.Extended.{Extended};
    ghost use Rattle.pv_least.specs.Points.{IsFinitePoint};

    ghost Value = { List Extended };

    ghost view = { λ a. a.numbers.items };

    ghost invariant = { λ a. IsFinitePoint a.numbers.items };
}

impl Point {
    /// How many numbers it has, from 1 to 12.
    pub fn dims(&self) -> u8
        ensures dims { result ≡ length self.now }
        ensures some { 0 < result }
        ensures few { result < 13 }
        ensures finite { AreFinite self.now }
    {
        self.numbers.len() as u8
    }

    /// The number at a place.
    pub fn get(&self, i: u8) -> Num
        requires { i < length self.now }
        ensures { result ≡ slice_index_or self.now i result }
    {
        self.numbers[i as usize]
    }
}

impl Point {
    /// The one point of a box whose intervals have one number each.
    pub(crate) fn of_exact(alloc: Global, bx: &IBox) -> Result<Point, Memory>
        requires { AreFinite (lows_of bx.now) }
        ensures { IfOk result (λ p. p ≡ lows_of bx.now) }
    {
        let mut numbers = Vec::new(alloc);
        for i in 0..bx.dims() {
            numbers.push(bx.get(i).lo())?;
        }
        Ok(Point { numbers })
    }
}
