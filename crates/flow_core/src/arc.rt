//! Arcs, and their residual capacity.
ghost use Rattle.std.specs.Prelude.{◌≡◌, ◌≤◌, ◌<◌, ◌^◌, pos, ◌≤ℤ◌, unsigned_abs};
ghost use Rattle.flow_core.specs.Common.{Joins, room_from, sent_amount, HasEnd};

/// An arc between two nodes, which can be used in both directions.
#[derive(Clone, Copy)]
pub struct Arc {
    pub a: u32,
    pub b: u32,
    pub capacity: u64,
}

impl Arc {
    ghost use Rattle.flow_core.specs.View.{arc_of};

    /// The end that is not `from`.
    pub fn far_end(self, from: u32) -> u32
        requires { HasEnd (arc_of self) from }
        ensures { Joins (arc_of self) from result }
    {
        if self.a == from { self.b } else { self.a }
    }

    /// The residual capacity of the arc out of its end `from`, if its amount, positive from `a` to
    /// `b`, is this. It is at most twice the capacity, so it needs a wider type than amounts.
    pub fn room(self, from: u32, amount: i64) -> u64
        requires within { unsigned_abs amount ≤ self.capacity }
        requires below { self.capacity < 2 ^ 63 }
        ensures { pos result ≡ room_from from (arc_of self) amount }
    {
        let out = if self.a == from { amount } else { -amount };
        if out >= 0 {
            self.capacity - out as u64
        } else {
            self.capacity + out.unsigned_abs()
        }
    }

    /// The amount after `more` is sent out of the end `from`. It is again within the capacity.
    pub fn sent(self, from: u32, amount: i64, more: u64) -> i64
        requires within { unsigned_abs amount ≤ self.capacity }
        requires room { pos more ≤ℤ room_from from (arc_of self) amount }
        requires below { self.capacity < 2 ^ 63 }
        requires small { more < 2 ^ 63 }
        ensures { result ≡ sent_amount (arc_of self) from amount more }
    {
        if self.a == from {
            amount + more as i64
        } else {
            amount - more as i64
        }
    }
}
