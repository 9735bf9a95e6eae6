//! Minimum cuts and flows of a network with undirected arcs.
//!
//! `min_cut` returns the least minimum cut between a source and a sink, up to a bound, or a flow
//! above the bound. The definitions: the value of a set of nodes (`cut_value`), a set with the
//! source but not the sink (`Separates`), the least minimum cut (`IsLeastCut`), and a flow
//! (`IsFlow`). A cut is returned if and only if some set has a value within the bound (clause
//! `exactly`), and it lies inside every other set of its value. `flow_law` is the theorem of Ford
//! and Fulkerson.
//!
//! `Net` is a net that grows by `add`; `Flow` has its amounts in a `SignedList`. Amounts fit i64;
//! residual capacities are up to twice a capacity and are u64, so no sum overflows.
//!
//! Depends on `counting` and `vset_core`. Sources: Ford and Fulkerson, "Flows in Networks" (1962);
//! Dinic (1970) for the rounds; Picard and Queyranne (1980) for the least minimum cut.
#![tactic(auto)]

mod arc;
mod cut;
mod flow;
mod incidence;
mod laws;
mod layers;
mod net;
mod search;
mod signed_list;

pub use cut::{CutAnswer, min_cut};
pub use flow::Flow;
pub use laws::flow_law;
pub use net::Net;
pub use signed_list::SignedList;
