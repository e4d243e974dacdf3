//! The names of messages that were accepted from segments: of each source the newest, by SRC, so that a name is found by halves.
#![tactic(auto)]

ghost use Rattle.std.specs.Prelude.{◌≡◌, ℕ, ◌<◌, ◌≤◌, length, slice_index_or, slice_set, IfOk, IfErr, vec_len, vec_capacity};
ghost use Rattle.std.specs.List.{list_any};
ghost use Rattle.layer_states.specs.Names.{is_name as is_name_in};
ghost use Rattle.mesh_base.specs.declared.pair.Name.{Name as NameIn};
ghost use Rattle.mesh_hearing.specs.Again.{IsRising, name_with, newer_name};
ghost use Rattle.mesh_hearing.specs.Tables.{again_after};

use mesh_base::pair::Name;

// The place of a source's name, or the one where it is to stand.
fn place_of(names: &[Name], src: u16) -> Result<usize, usize>
    ensures found { IfOk result (λ i. (i < length names.now) × ((d : NameIn) → (slice_index_or names.now i d).src.0 ≡ src)) }
    ensures most { IfErr result (λ i. i ≤ length names.now) }
    ensures missing { IsRising 0 names.now
        → IfErr result
        (λ i. ((k : ℕ) (d : NameIn) → k < i → (slice_index_or names.now k d).src.0 < src)
        × ((k : ℕ) (d : NameIn) → i ≤ k → k < length names.now → src < (slice_index_or names.now k d).src.0)) }
{
    names.binary_search_by_key(&src, |name| name.src.0)
}

/// Whether a name is among these.
pub(crate) fn has_name(names: &[Name], name: &Name) -> bool
    ensures { IsRising 0 names.now → result ≡ list_any (is_name_in name.now) names.now }
{
    match place_of(names, name.src.0) {
        Ok(place) => name.is_same(&names[place]),
        Err(_) => false,
    }
}

// Puts a name of the same source in the place of an older one.
fn raise(held: &mut Name, name: Name)
    ensures { held.new ≡ newer_name held.old name }
{
    if held.pair < name.pair {
        held.pair = name.pair;
    }
}

// Puts a name where it belongs. There is room for it.
fn put(names: &mut Vec<Name>, name: Name)
    requires { vec_len names.old < vec_capacity names.old }
    ensures { IsRising 0 names.old.items → names.new.items ≡ name_with names.old.items name }
{
    match place_of(names.as_slice(), name.src.0) {
        Ok(place) => raise(&mut names[place], name),
        Err(place) => {
            let _ = names.insert(place, name);
        }
    }
}

/// Puts a name, if there is one, where it belongs. There is room for it.
pub(crate) fn put_reserved(names: &mut Vec<Name>, name: Option<Name>)
    requires { vec_len names.old < vec_capacity names.old }
    ensures { IsRising 0 names.old.items → names.new.items ≡ again_after names.old.items name }
{
    if let Some(name) = name {
        put(names, name);
    }
}
