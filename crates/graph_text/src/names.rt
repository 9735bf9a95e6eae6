//! The names of vertices.
ghost use Rattle.std.specs.Prelude.{◌≡◌, ◌<◌, ◌≤◌, ◌^◌, ◌++◌, ◌∷◌, [], List, ℕ, true, false, is_some, length, position, slice_index_or, IfSome, IfOk, OnOk, OnErr};
ghost use Rattle.std.specs.List.{list_all};
ghost use Rattle.std.specs.Str.{bytes_eq};
ghost use Rattle.graph_text.specs.Names.{is_name, is_name_byte, is_among, vertex_of, plain_name, plain_names};
ghost use Rattle.graph_core.specs.from_counting.Common.{Within};

use graph_core::vset_core::MOST_VERTICES;
use indexmap::IndexSet;
use std::alloc::{AllocError as Memory, Global};
use std::marker::Model;
use std::str;
use std::string::String;

// The most bytes of a name.
const MOST_BYTES: usize = 16;

// Whether all bytes may occur in a name.
fn are_name_bytes(word: &[u8]) -> bool
    ensures { result ≡ list_all is_name_byte word.now }
{
    word.iter().all(|byte| is_name_byte(*byte))
}

// Whether the byte may occur in a name.
#[tactic(auto, unfolding(crate::specs::Names::is_name_byte))]
fn is_name_byte(byte: u8) -> bool
    ensures { result ≡ is_name_byte byte }
{
    byte.is_ascii_alphanumeric() || matches!(byte, b'_' | b'-' | b'.')
}

// Whether the word has the form of a name.
#[tactic(auto, unfolding(crate::specs::Names::is_name))]
fn has_form_of_name(word: &[u8]) -> bool
    ensures { result ≡ is_name word.now }
{
    !word.is_empty() && word.len() <= MOST_BYTES && are_name_bytes(word)
}

/// The word as a name; `None` if and only if it does not have the form of one: 1 to 16 bytes, each
/// an ASCII letter, a digit, `_`, `-` or `.`.
pub fn name_of(word: &[u8]) -> Option<&str>
    ensures is { is_some result ≡ is_name word.now }
    ensures same { IfSome result (λ name. name.now ≡ word.now) }
{
    if !has_form_of_name(word) {
        return None;
    }
    str::from_utf8(word).ok()
}

/// The names of the vertices of a graph, at most 128: the k-th is that of vertex k. Contracts see
/// a list of different names, each of 1 to 16 ASCII letters, digits, `_`, `-` or `.`.
#[derive(Drop)]
pub struct Names {
    names: IndexSet<String>,
}

impl Model for Names {
    ghost use Rattle.std.specs.Prelude.{List, ℕ, map};
    ghost use Rattle.std.specs.String.{string_bytes};
    ghost use Rattle.graph_text.specs.Names.{AreNames};

    ghost Value = { List (List ℕ) };

    ghost view = { λ n. map string_bytes n.names.keys };

    ghost invariant = { λ n. AreNames (map string_bytes n.names.keys) };
}

impl Names {
    ghost use Rattle.graph_text.specs.Names.{AreNames};

    /// No names.
    pub fn new(alloc: Global) -> Names
        ensures { result ≡ [] }
    {
        Names {
            names: IndexSet::new(alloc),
        }
    }

    /// The law that these are different names. It does nothing: a caller states it where it needs
    /// it.
    pub fn are_names(&self)
        ensures { AreNames self.now }
    {
        let _ = &self.names;
    }

    /// The number of names. Takes no memory.
    pub fn len(&self) -> usize
        ensures { result ≡ length self.now }
    {
        self.names.len()
    }

    /// The name at a place, counted from 0. Takes no memory.
    pub fn get(&self, i: usize) -> &str
        requires { i < length self.now }
        ensures { result.now ≡ slice_index_or self.now i [] }
    {
        self.names.as_slice()[i].as_str()
    }

    /// The place, counted from 0, of the name that equals the word; `None` if and only if there is
    /// none. Takes no memory.
    pub fn place(&self, word: &[u8]) -> Option<usize>
        ensures { result ≡ position (bytes_eq word.now) self.now }
    {
        self.are_names();
        let name = name_of(word)?;
        self.names.get_index_of(name)
    }

    /// Whether the word is one of the names. Takes no memory.
    pub fn is_among(&self, word: &[u8]) -> bool
        ensures { result ≡ is_among self.now word.now }
    {
        self.place(word).is_some()
    }

    /// The number of the vertex with the word as its name; `None` if and only if there is none.
    /// Takes no memory.
    pub fn vertex(&self, word: &[u8]) -> Option<u32>
        ensures none { is_some result ≡ is_among self.now word.now }
        ensures some { IfSome result (λ v. v ≡ vertex_of self.now word.now) }
        ensures within { IfSome result (λ v. Within (length self.now) v) }
    {
        self.are_names();
        let place = self.place(word)?;
        Some(place as u32 + 1)
    }

    /// Appends a name. Takes constant time, averaged over the calls; the only error is `Memory`.
    pub fn push(&mut self, alloc: Global, name: &str) -> Result<(), Memory>
        requires is { is_name name.now ≡ true }
        requires new { is_among self.old name.now ≡ false }
        requires few { length self.old < MOST_VERTICES }
        ensures ok { OnOk result (self.new ≡ self.old ++ name.now ∷ []) }
        ensures err { OnErr result (self.new ≡ self.old) }
    {
        let text = String::from_str(alloc, name)?;
        match self.names.insert(text) {
            Ok(_) => Ok(()),
            Err(_) => Err(Memory),
        }
    }
}

// Appends the default name of a vertex.
fn push_plain(alloc: Global, names: &mut Names, vertex: u32) -> Result<(), Memory>
    requires new { is_among names.old (plain_name vertex) ≡ false }
    requires few { length names.old < MOST_VERTICES }
    requires number { vertex < 10 ^ 9 }
    ensures { OnOk result (names.new ≡ names.old ++ plain_name vertex ∷ []) }
{
    let name = format!(in alloc; "v{vertex}")?;
    names.push(alloc, &name)
}

/// The default names of `n` vertices: `v1`, `v2` and so on. The name of vertex k is `v` and k in
/// decimal. Takes O(n) time; the only error is `Memory`.
pub fn plain_names(alloc: Global, n: u32) -> Result<Names, Memory>
    requires { n ≤ MOST_VERTICES }
    ensures names { IfOk result (λ names. names ≡ plain_names n) }
    ensures one_each { IfOk result (λ names. length names ≡ n) }
{
    let mut names = Names::new(alloc);
    for k in 0..n {
        push_plain(alloc, &mut names, k + 1)?;
    }
    Ok(names)
}
