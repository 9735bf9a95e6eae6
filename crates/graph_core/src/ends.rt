//! Two vertices: the ends of an edge, or a pair.
ghost use Rattle.std.specs.Prelude.{◌≡◌};

/// Two vertices: the ends of an edge in the order in which they were given, or a pair that a search
/// finds, the smaller first.
#[derive(Clone, Copy, Debug, PartialEq, Eq)]
pub struct Ends {
    pub a: u32,
    pub b: u32,
}

impl Ends {
    ghost use Rattle.graph_core.specs.View.{are_ends};

    /// Whether `u` and `v` are the two ends, in either order.
    pub fn are(self, u: u32, v: u32) -> bool
        ensures { result ≡ are_ends u v self }
    {
        (self.a == u && self.b == v) || (self.a == v && self.b == u)
    }
}
