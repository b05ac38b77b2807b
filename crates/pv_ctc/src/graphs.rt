// The graphs of a system's constraints.

ghost use Rattle.std.specs.Prelude.{◌≡◌, ◌<◌, ◌≤◌, length, map, IfOk};
ghost use Rattle.pv_hc4.specs.Graphs.{sides_of, sides_named};
ghost use Rattle.pv_ctc.specs.Contracting.{sides_in};
ghost use Rattle.pv_ctc.specs.GraphLists.{AreGraphs};
ghost use Rattle.pv_ctc.specs.Members.{AllOver};

use crate::users::users_of;
use crate::uses::uses_of;
use pv_box::MOST_PLACES;
use pv_expr::System;
use pv_hc4::{Graph, Marks};
use pv_num::Memory;
use std::alloc::Global;
use std::marker::Model;

/// The graph of each constraint of a system, in their order.
#[derive(Drop)]
pub struct Graphs {
    pub(crate) graphs: Vec<Graph>,
    pub(crate) uses: Vec<[bool; MOST_PLACES]>,
    pub(crate) users: [Marks; MOST_PLACES],
    dims: u8,
}

impl Model for Graphs {
    ghost use Rattle.std.specs.Prelude.{map};
    ghost use Rattle.pv_hc4.specs.Graphs.{sides_of};
    ghost use Rattle.pv_ctc.specs.GraphLists.{GraphList, AreGraphs};
    ghost use Rattle.pv_ctc.specs.Uses.{HaveUses};
    ghost use Rattle.pv_ctc.specs.Users.{AreUsers};
    ghost use Rattle.pv_ctc.specs.Members.{AllOver};

    ghost Value = { GraphList };

    ghost view = { λ g. record { graphs = g.graphs.items; dims = g.dims } };

    ghost invariant = { λ g. AreGraphs (record { graphs = g.graphs.items; dims = g.dims }) × HaveUses g.uses.items (map sides_of g.graphs.items) × AreUsers g.users (map sides_of g.graphs.items) × AllOver g.dims (map sides_of g.graphs.items) };
}

impl Graphs {
    /// Makes the graph of each constraint.
    pub fn of(alloc: Global, system: &System) -> Result<Graphs, Memory>
        ensures sides { IfOk result (λ g. map sides_of g.graphs ≡
            map sides_named system.now.constraints) }
        ensures dims { IfOk result (λ g. g.dims ≡ length system.now.names) }
    {
        let dims = system.variable_count();
        let mut graphs = Vec::new(alloc);
        let mut uses = Vec::new(alloc);
        for i in 0..system.constraint_count() {
            let constraint = system.constraint(i);
            uses.push(uses_of(constraint))?;
            graphs.push(Graph::of(alloc, constraint, dims)?)?;
        }
        let users = users_of(&uses);
        Ok(Graphs {
            graphs,
            uses,
            users,
            dims,
        })
    }

    /// Every constraint is over the system's variables. It holds by its contract alone; the call
    /// does nothing.
    pub fn learn(&self)
        ensures { AllOver self.now.dims (sides_in self.now) }
    {
        let _ = &self.users;
    }

    /// How many constraints there are.
    pub fn count(&self) -> u32
        ensures value { result ≡ length self.now.graphs }
        ensures graphs { AreGraphs self.now }
    {
        self.graphs.len() as u32
    }
}
