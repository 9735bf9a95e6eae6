//! Lines and words of texts.

use graph_core::line_text::{numbers, split_line, split_words};
use std::alloc::{AllocError as Memory, Global};
use std::test::Fail;

// Texts, with their first line and what comes after it; none if nothing is left.
static LINES: [(&str, Option<(&str, &str)>); 4] = [
    ("", None),
    ("\n", Some(("", ""))),
    ("a b\n\nc", Some(("a b", "\nc"))),
    ("a b", Some(("a b", ""))),
];

fn is_cut(text: &str, wanted: Option<(&str, &str)>) -> bool {
    match (split_line(text.as_bytes()), wanted) {
        (Some((line, rest)), Some((first, more))) => {
            line == first.as_bytes() && rest == more.as_bytes()
        }
        (None, None) => true,
        _ => false,
    }
}

#[test]
fn lines(rt: HostRuntime) {
    for (text, wanted) in &LINES {
        assert!(rt; is_cut(text, *wanted));
    }
}

// Words, with their numbers; none if one of them is not a number.
static NUMBERS: [(&[&[u8]], Option<&[u32]>); 2] = [
    (&[b"e", b"12", b"0003"], None),
    (&[b"12", b"0003"], Some(&[12, 3])),
];

fn are_numbers(alloc: Global, words: &[&[u8]], wanted: Option<&[u32]>) -> Result<bool, Memory> {
    match (numbers(alloc, words)?, wanted) {
        (Some(values), Some(wanted)) => Ok(values.as_slice() == wanted),
        (None, None) => Ok(true),
        _ => Ok(false),
    }
}

#[test]
fn words_and_numbers(rt: HostRuntime) -> Result<(), Fail> {
    let words = split_words(rt.alloc(), b"\t e  12\r0003 ")?;
    assert!(rt; words.as_slice() == NUMBERS[0].0);
    for (words, wanted) in &NUMBERS {
        assert!(rt; are_numbers(rt.alloc(), words, *wanted)?);
    }
    Ok(())
}
