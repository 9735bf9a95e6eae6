//! How many cubic graphs are kept.

use super::cubic::{CubicFamily, FAMILIES};
use super::told::is_told;
use mcg6_lines::{Property, Query};
use std::alloc::{AllocError as Memory, Global};
use std::test::Fail;

// Whether the line is kept.
fn is_kept(alloc: Global, line: &str, property: Property) -> Result<bool, Memory> {
    is_told(alloc, &Query::Select { property }, line, &Ok(line))
}

// How many of the lines are kept.
fn kept(alloc: Global, lines: &[&str], property: Property) -> Result<u32, Memory> {
    let mut found = 0;
    for line in lines {
        if is_kept(alloc, line, property)? && found < u32::MAX {
            found += 1;
        }
    }
    Ok(found)
}

// Whether so many of the graphs are covered, bricks and braces.
fn agrees(alloc: Global, family: &CubicFamily) -> Result<bool, Memory> {
    let covered = kept(alloc, family.lines, Property::Covered)?;
    let bricks = kept(alloc, family.lines, Property::Brick)?;
    let braces = kept(alloc, family.lines, Property::Brace)?;
    Ok(covered == family.covered && bricks == family.bricks && braces == family.braces)
}

#[test]
fn cubic_graphs(rt: HostRuntime) -> Result<(), Fail> {
    for family in &FAMILIES {
        assert!(rt; agrees(rt.alloc(), family)?);
    }
    Ok(())
}
