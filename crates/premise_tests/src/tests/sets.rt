//! Sets of vertices, and sets of edges, as words: the bit of 1 is the lowest.

/// The greatest number that a set can hold.
pub const MOST: u32 = 16;

/// The set of one number, and no set for a number that is too large.
pub fn one(number: u32) -> u32 {
    if 1 <= number && number <= MOST {
        1 << (number - 1)
    } else {
        0
    }
}

/// The set of these numbers.
pub fn set_of(numbers: &[u32]) -> u32 {
    let mut set = 0;
    for number in numbers {
        set |= one(*number);
    }
    set
}

/// The set of the numbers 1 to `most`.
pub fn first_numbers(most: u32) -> u32 {
    let mut set = 0;
    for place in 0..MOST {
        if place < most {
            set |= 1 << place;
        }
    }
    set
}

/// The least member alone, and no member of the empty set.
pub fn least(set: u32) -> u32 {
    for place in 0..MOST {
        let bit = 1 << place;
        if meets(set, bit) {
            return bit;
        }
    }
    0
}

/// The greatest member alone, and no member of the empty set.
pub fn greatest(set: u32) -> u32 {
    let mut last = 0;
    for place in 0..MOST {
        if meets(set, 1 << place) {
            last = 1 << place;
        }
    }
    last
}

/// Whether two sets have a common member.
pub fn meets(first: u32, second: u32) -> bool {
    first & second != 0
}

/// Whether the first set is a part of the second.
pub fn is_part(first: u32, second: u32) -> bool {
    first & !second == 0
}

/// Whether the number of members is odd.
pub fn is_odd(set: u32) -> bool {
    set.count_ones() % 2 == 1
}
