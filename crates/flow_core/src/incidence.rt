//! Which arcs have an end at which node.
ghost use Rattle.std.specs.Prelude.{◌≡◌, ℕ, ◌+◌, ◌<◌, ◌≤◌, ◌++◌, ◌∷◌, [], length, IfOk, OnOk, slice_set};
ghost use Rattle.flow_core.specs.Nets.{IsBounded};
ghost use Rattle.vset_core.specs.from_counting.Common.{row_of};
ghost use Rattle.flow_core.specs.Incidence.{IsIncidence};

use crate::net::Net;
use std::alloc::{AllocError as Memory, Global};
use std::marker::Model;
use vset_core::MOST_VERTICES;

/// For each node the list of the arcs with an end there, by their places in the net.
#[derive(Drop)]
pub struct Incidence {
    rows: Vec<Vec<usize>>,
}

impl Model for Incidence {
    ghost use Rattle.std.specs.Prelude.{List, ℕ};
    ghost use Rattle.flow_core.specs.Rows.{rows_of};

    ghost Value = { List (List ℕ) };

    ghost view = { λ incidence. rows_of incidence.rows.items };
}

impl Incidence {
    /// The arcs of the net by their ends.
    pub fn new(alloc: Global, net: &Net) -> Result<Incidence, Memory>
        ensures rows { IfOk result (IsIncidence net.now) }
        ensures bounded { OnOk result (IsBounded net.now) }
    {
        let mut incidence = Incidence::empty(alloc, net.nodes())?;
        for i in 0..net.size() {
            let arc = net.arc(i);
            incidence.add(arc.a, i)?;
            incidence.add(arc.b, i)?;
        }
        Ok(incidence)
    }

    /// A row for each node and for 0, all empty.
    fn empty(alloc: Global, nodes: u32) -> Result<Incidence, Memory>
        requires { nodes ≤ MOST_VERTICES }
        ensures size { IfOk result (λ rows. length rows ≡ nodes + 1) }
        ensures empty { IfOk result (λ rows. (v : ℕ) → row_of rows v ≡ []) }
    {
        let mut rows = Vec::new(alloc);
        for _v in 0..nodes + 1 {
            rows.push(Vec::new(alloc))?;
        }
        Ok(Incidence { rows })
    }

    /// Lists arc `i` at node `v`.
    fn add(&mut self, v: u32, i: usize) -> Result<(), Memory>
        requires { v < length self.old }
        ensures { OnOk result (self.new ≡ slice_set self.old v (row_of self.old v ++ i ∷ [])) }
    {
        self.rows[v as usize].push(i)?;
        Ok(())
    }

    /// The arcs at node `v`.
    pub fn row(&self, v: u32) -> &[usize]
        requires { v < length self.now }
        ensures { result.now ≡ row_of self.now v }
    {
        &self.rows[v as usize]
    }
}
