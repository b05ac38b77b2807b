//! The type of boxes, their places, halves, meets and hulls.
ghost use Rattle.std.specs.Prelude.{◌≡◌, ◌↔◌, ◌<◌, ◌≤◌, ℕ, All, IsTrue, Some, None, length, vec_len, slice_index_or, slice_set, IfOk, IsFalse, IsSome};
ghost use Rattle.pv_interval.specs.Bounds.{Bounds, IsInterval};
ghost use Rattle.pv_interval.specs.Tables.{meet_of};
ghost use Rattle.pv_box.specs.Boxes.{IsBox, IsInsidePlace, MeetEachOther, lower_half, upper_half, hull_boxes, IsMeet, IsApart};

use pv_interval::Interval;
use pv_num::{Memory, Num};
use std::alloc::Global;
use std::marker::Model;

/// The most places of a box: a system has no more variables.
pub const MOST_PLACES: usize = 12;

/// A box of 1 to `MOST_PLACES` intervals. Contracts see the list of its places.
#[derive(Drop)]
pub struct IBox {
    parts: Vec<Interval>,
}

impl Model for IBox {
    ghost use Rattle.std.specs.Prelude.{List};
    ghost use Rattle.pv_interval.specs.Bounds.{Bounds};
    ghost use Rattle.pv_box.specs.Boxes.{IsBox};

    ghost Value = { List Bounds };

    ghost view = { λ a. a.parts.items };

    ghost invariant = { λ a. IsBox a.parts.items };
}

impl IBox {
    /// The box of these intervals, of which there are 1 to `MOST_PLACES`.
    pub fn new(parts: Vec<Interval>) -> IBox
        requires some { 0 < length parts.items }
        requires few { length parts.items ≤ MOST_PLACES }
        ensures { result ≡ parts.items }
    {
        learn_intervals(&parts);
        IBox { parts }
    }

    /// The number of places, from 1 to `MOST_PLACES`.
    pub fn dims(&self) -> u8
        ensures dims { result ≡ length self.now }
        ensures is_box { IsBox self.now }
    {
        self.parts.len() as u8
    }

    /// The interval of a place.
    pub fn get(&self, i: u8) -> Interval
        requires { i < length self.now }
        ensures value { result ≡ slice_index_or self.now i result }
        ensures interval { IsInterval result }
    {
        let part = self.parts[i as usize];
        let _lo = part.lo();
        part
    }

    /// Puts an interval into a place.
    pub fn set(&mut self, i: u8, v: Interval)
        requires { i < length self.old }
        ensures { self.new ≡ slice_set self.old i v }
    {
        let _lo = v.lo();
        self.parts[i as usize] = v;
    }

    /// Becomes equal to another box.
    pub fn copy_from(&mut self, other: &IBox)
        requires { length self.old ≡ length other.now }
        ensures { self.new ≡ other.now }
    {
        let source = &other.parts;
        self.parts.as_mut_slice().copy_from_slice(source.as_slice());
    }

    /// An equal box.
    pub fn clone_of(&self, alloc: Global) -> Result<IBox, Memory>
        ensures { IfOk result (λ b. b ≡ self.now) }
    {
        Ok(IBox {
            parts: Vec::from_slice(alloc, self.parts.as_slice())?,
        })
    }

    /// Whether the two boxes are equal.
    pub fn is_same(&self, other: &IBox) -> bool
        ensures { IsTrue result ↔ (self.now ≡ other.now) }
    {
        if self.dims() != other.dims() {
            return false;
        }
        for i in 0..self.dims() {
            if self.get(i) != other.get(i) {
                return false;
            }
        }
        true
    }

    /// The half below a cut and the half above it.
    pub fn cut(&self, alloc: Global, var: u8, at: Num) -> Result<(IBox, IBox), Memory>
        requires var { var < length self.now }
        requires at { IsInsidePlace at var self.now }
        ensures low { IfOk result (λ halves. halves.0 ≡ lower_half self.now var at) }
        ensures high { IfOk result (λ halves. halves.1 ≡ upper_half self.now var at) }
    {
        let mut low = self.clone_of(alloc)?;
        let mut high = self.clone_of(alloc)?;
        let part = self.get(var);
        low.set(var, between(part.lo(), at));
        high.set(var, between(at, part.hi()));
        Ok((low, high))
    }

    /// Becomes the hull of both, place by place.
    pub fn hull(&mut self, other: &IBox)
        requires { length self.old ≡ length other.now }
        ensures { self.new ≡ hull_boxes self.old other.now }
    {
        for i in 0..self.dims() {
            let part = self.get(i).hull(other.get(i));
            self.set(i, part);
        }
    }

    /// Becomes what lies in both, place by place. Where that is empty the answer is false, and
    /// nothing changes.
    pub fn meet(&mut self, other: &IBox) -> bool
        requires { length self.old ≡ length other.now }
        ensures met { IsTrue result → IsMeet self.old other.now self.new }
        ensures empty { IsFalse result → IsApart self.old other.now }
        ensures unchanged { IsFalse result → self.new ≡ self.old }
    {
        if !self.meets(other) {
            return false;
        }
        for i in 0..self.dims() {
            if let Some(part) = self.get(i).meet(other.get(i)) {
                self.set(i, part);
            }
        }
        true
    }

    fn meets(&self, other: &IBox) -> bool
        requires { length self.now ≡ length other.now }
        ensures met { IsTrue result → MeetEachOther self.now other.now }
        ensures empty { IsFalse result → IsApart self.now other.now }
    {
        for i in 0..self.dims() {
            if self.get(i).meet(other.get(i)).is_none() {
                return false;
            }
        }
        true
    }
}

// The interval of two ends that are known to be those of one.
fn between(lo: Num, hi: Num) -> Interval
    requires { IsInterval (record { lo = lo; hi = hi }) }
    ensures { result ≡ record { lo = lo; hi = hi } }
{
    match Interval::new(lo, hi) {
        Some(part) => part,
        None => unreachable!(),
    }
}

// Each interval is one, as the first look at its ends tells.
fn learn_intervals(parts: &[Interval])
    ensures { All IsInterval parts.now }
{
    for part in parts {
        let _lo = part.lo();
    }
}
