//! What a row claims of its graph.

use super::ears::Steps;

/// A claim on a graph.
pub enum Claim {
    /// The graph has the properties.
    Is(&'static [Property]),
    /// The number has the property.
    Number(OfNumber, u32),
    /// The set of vertices has the properties.
    Set(&'static [OfSet], &'static [u32]),
    /// Each of the sets of vertices has the properties.
    Sets(&'static [OfSet], &'static [&'static [u32]]),
    /// The set of edges has the property.
    Edges(OfEdges, &'static [u32]),
    /// The weight that is 1 at these edges and 0 at the others has the properties.
    Weight(&'static [OfWeight], &'static [u32]),
    /// The two vertices are equivalent: they are one, or deleting them leaves no perfect matching.
    Equivalent(u32, u32),
    /// These are the vertices that are equivalent to the first.
    /// In the laws: `IsClass`.
    Class(u32, &'static [u32]),
    /// So many components are left after the set is deleted.
    /// In the laws: `IsCutPair`.
    Parts(&'static [u32], u32),
    /// The cut of the set has so many edges.
    /// In the laws: `cut_size g x ≡ r`.
    /// In the laws: `cut_size g x ≡ 3`.
    CutSize(&'static [u32], u32),
    /// An edge joins the two sets.
    Joined(&'static [u32], &'static [u32]),
    /// A decomposition ends in so many bricks and so many braces.
    /// In the laws: `IsDerivation`.
    /// In the laws: `IsCounted`.
    Ends(u32, u32),
    /// These are the shores of a maximal laminar family of nontrivial tight cuts.
    /// In the laws: `IsMaximalLaminar`.
    /// In the laws: `IsIn y f`.
    Laminar(&'static [&'static [u32]]),
    /// The list of the nontrivial tight cuts, by the shores without the greatest vertex, has this
    /// place, counted from 0.
    /// In the laws: `ChoosesPlaces`.
    Place(usize),
    /// The digraph of the matching, the second set, with this side, the first, is strongly
    /// connected without these vertices.
    Strong(&'static [u32], &'static [u32], &'static [u32]),
    /// This is so without the two ends of any edge of the matching.
    StrongEach(&'static [u32], &'static [u32]),
    /// At each edge ab of the matching, the second set, with a in the side, the first, walks of the
    /// digraph that begin no step at a lead from each other vertex to all but b, and back.
    Reached(&'static [u32], &'static [u32]),
    /// Some nontrivial tight shore has the first vertex and not the second.
    Parted(u32, u32),
    /// Such steps lead from the edges to all edges of the graph.
    /// In the laws: `AreSteps`.
    /// In the laws: `IsEarList`.
    /// In the laws: `AreEarsInTurn`.
    Lead(Steps, &'static [u32]),
    /// The second set of edges is an ear of the first.
    /// In the laws: `IsEar`.
    Ear(&'static [u32], &'static [u32]),
    /// The second and the third set of edges are two ears of the first, without a common inner
    /// vertex.
    /// In the laws: `IsStep`.
    /// In the laws: `IsEarList`.
    TwoEars(&'static [u32], &'static [u32], &'static [u32]),
    /// Neither the second nor the third set of edges makes with the first a stage.
    /// In the laws: `IsNeeded`.
    /// In the laws: `IsUnrefinable`.
    Needed(&'static [u32], &'static [u32], &'static [u32]),
    /// No vertex is met by both sets of edges.
    Apart(&'static [u32], &'static [u32]),
    /// So many ears are as many as edges and one, less the vertices.
    EarCount(u32),
    /// Deleting one pair of the list, or two, leaves a graph with a perfect matching.
    /// In the laws: `ps ≢ []`.
    OneOrTwo(&'static [(u32, u32)]),
    /// The set, of vertices or of edges, has fewer than so many members.
    /// In the laws: `count (size g) f + 1 ≤ r`.
    /// In the laws: `count g.order m + 3 ≤ g.order`.
    Few(&'static [u32], u32),
    /// Some perfect matching has none of these edges.
    Avoided(&'static [u32]),
    /// Each perfect matching has at least so many of these edges, the first number, and there are
    /// fewer of them than that number times the second, r. So no list of r k perfect matchings,
    /// k ≥ 1, contains each edge exactly k times.
    Overused(&'static [u32], u32, u32),
    /// Without the vertex, maximum matchings miss the same vertices, that vertex aside.
    Stable(u32),
    /// Without the vertex, a maximum matching has one edge less.
    /// In the laws: `IsMaximum g none m`.
    /// In the laws: `IsMaximum g (singleton v) k`.
    OneLess(u32),
}

/// What a graph may be or have.
pub enum Property {
    /// In the laws: `IsCovered`.
    Covered,
    /// It has two vertices, and its allowed edges connect all vertices.
    /// In the laws: `IsElementary`.
    Elementary,
    /// In the laws: `IsConnected`.
    Connected,
    /// In the laws: `IsBipartite`.
    /// In the laws: `IsSide`.
    /// In the laws: `in_cut g a e ≡ true`.
    Bipartite,
    /// In the laws: `¬ (IsBipartite g)`.
    Nonbipartite,
    /// In the laws: `IsMultigraph`.
    Loopless,
    /// Each edge is in a perfect matching, loops among them.
    /// In the laws: `Allowed`.
    Allowed,
    /// It has a nontrivial tight cut.
    Composite,
    /// It has none.
    /// In the laws: `HasOnlyTrivialTightCuts`.
    Uncut,
    /// In the laws: `IsBicritical`.
    Bicritical,
    /// It has no cut pair.
    /// In the laws: `¬ (IsCutPair g u v)`.
    Unseparated,
    ThreeConnected,
    /// It has a nontrivial tight cut that is a barrier cut.
    BarrierCut,
    SeparationCut,
    /// In the laws: `IsTwoExtendable`.
    TwoExtendable,
    /// In the laws: `IsTwoEdgeConnected`.
    TwoEdgeConnected,
    /// Each vertex is missed by some maximum matching.
    /// In the laws: `InD`.
    Missed,
    /// Each vertex is an end of an edge.
    /// In the laws: `is_met`.
    Met,
    /// It has an even number of vertices.
    /// In the laws: `is_odd g.order ≡ false`.
    Even,
    /// Some matching has as many edges as some vertex cover has vertices.
    EqualCover,
    /// It has a tight cut decomposition.
    Decomposed,
    /// Twice the number of leaves of a decomposition, and two, is at most that of the vertices.
    FewLeaves,
}

/// What is said of a graph by a number.
pub enum OfNumber {
    /// It has at least so many vertices.
    /// In the laws: `# ≤ g.order`.
    Order,
    /// It has at least so many edges.
    /// In the laws: `Within (size named.graph) list.start`.
    Size,
    /// In the laws: `IsRegular`.
    /// In the laws: `IsCubic`.
    /// In the laws: `# ≤ r`.
    Regular,
    /// Each odd set has at least so many edges in its cut.
    /// In the laws: `HasWideOddCuts`.
    WideOddCuts,
    /// Each nontrivial cut has at least so many edges.
    /// In the laws: `# ≤ cut_size g x`.
    /// In the laws: `r + 1 ≤ cut_size g x`.
    WideCuts,
    /// Some nontrivial odd set has exactly so many edges in its cut.
    OddCut,
    /// Each set that is neither empty nor the whole has at least so many edges in its cut.
    /// In the laws: `r ≤ cut_size g x + 1`.
    EdgeConnected,
}

/// What a set of vertices may be.
pub enum OfSet {
    /// Without it the graph has a perfect matching.
    /// In the laws: `HasPerfect`.
    Perfect,
    /// In the laws: `IsSide`.
    /// In the laws: `a (last_vertex g v es) ≡ not (a v)`.
    Side,
    /// It has as many vertices as the others.
    /// In the laws: `count g.order a ≡ count g.order (complement a)`.
    Half,
    /// Each set of its vertices has as many neighbours as vertices, or more.
    /// In the laws: `count g.order s ≤ count g.order (neighbourhood g s)`.
    Hall,
    /// Some matching meets each of its vertices.
    Matched,
    /// Each edge has an end in it.
    /// In the laws: `IsVertexCover`.
    Cover,
    /// Without it all components have an even number of vertices.
    EvenParts,
    /// Each nonempty set that is not the whole has at least one more.
    /// In the laws: `HasSurplus`.
    Surplus,
    /// Each nonempty set of all but two of its vertices, or fewer, has at least two more.
    WideSurplus,
    /// Any vertex of it and any other together leave a perfect matching.
    /// In the laws: `ArePairsMatched`.
    PairsMatched,
    /// So do any two of it and any two others.
    FoursMatched,
    /// In the laws: `is_odd (count g.order x) ≡ true`.
    /// In the laws: `is_odd (count g.order (meet x y)) ≡ true`.
    Odd,
    /// In the laws: `s a ≡ true`.
    /// In the laws: `mem x v ≡ false`.
    /// In the laws: `1 ≤ count g.order s`.
    /// In the laws: `1 ≤ count g.order a`.
    /// In the laws: `1 ≤ count g.order (complement a)`.
    /// In the laws: `1 ≤ count g.order m`.
    Proper,
    /// In the laws: `IsBarrier`.
    Barrier,
    /// It is a barrier, and no barrier contains it and a further vertex.
    /// In the laws: `IsMaximalBarrier`.
    MaximalBarrier,
    /// The graph that it induces is factor-critical.
    Critical,
    /// It has all vertices of an elementary component and no other.
    /// In the laws: `IsIn vs (elementary_parts g)`.
    /// In the laws: `length (elementary_parts g) ≡ 1`.
    ElementaryComponent,
    /// With the allowed edges inside it, it is a matching covered graph.
    CoveredInside,
    /// In the laws: `IsTight`.
    /// In the laws: `IsTightShore`.
    Tight,
    /// In the laws: `IsNontrivial`.
    /// In the laws: `IsTightShore`.
    Nontrivial,
    /// It does not have the greatest vertex.
    /// In the laws: `HasShores`.
    Canonical,
    /// It or its complement is a component that some barrier leaves.
    LeftByBarrier,
    /// Its cut is nontrivial and tight, and a barrier cut or a 2-separation cut.
    ElpCut,
    /// Such a cut does not cross its cut.
    ElpCutBeside,
    /// It or its complement contains a barrier with two vertices, or a component that a cut pair
    /// leaves, with a vertex of the pair, as the shore of a nontrivial tight cut.
    ReasonInside,
    /// Each nontrivial tight cut that does not cross its cut is equal to it.
    /// In the laws: `Cross`.
    Alone,
    /// In the laws: `IsSeparating`.
    Separating,
    /// Each edge is in a perfect matching that has exactly one edge in its cut.
    MetOnce,
    /// It is a part of the set A of Gallai and Edmonds.
    /// In the laws: `a v ≡ true`.
    /// In the laws: `AreThreeSets`.
    InA,
    /// It has neighbours in more components of G[D] than it has vertices.
    Spread,
    /// Its two contractions count together what the graph counts.
    Additive,
    /// It is the set of the vertices that some maximum matching misses.
    /// In the laws: `AreThreeSets`.
    D,
}

/// What a set of edges may be.
pub enum OfEdges {
    /// In the laws: `IsMatching`.
    Matching,
    /// In the laws: `IsMaximum`.
    Maximum,
    /// In the laws: `IsPerfect`.
    PerfectMatching,
    /// It misses as many vertices as some set leaves odd components, less the size of that set.
    /// In the laws: `Attains`.
    Attains,
    /// Some perfect matching contains them.
    Together,
    /// In the laws: `IsStage g f`.
    /// In the laws: `IsStage g (next_stage f s)`.
    Stage,
    /// The graph without its vertices has a perfect matching.
    /// In the laws: `IsConformal`.
    Conformal,
}

/// What a weight of the edges may be.
pub enum OfWeight {
    /// It is the same on all perfect matchings.
    /// In the laws: `IsFlat`.
    Flat,
    /// Integers at the vertices add up, at the two ends of each edge, to twice its weight.
    Potential,
    /// They add up to the weight.
    /// In the laws: `2 * (w e + k)`.
    WholePotential,
    /// They add up to twice the weight at each edge that is in no tight cut.
    PotentialOffCuts,
}
