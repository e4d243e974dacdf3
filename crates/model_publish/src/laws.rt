//! How many rows there are of a node's own models. The law is the contract of a function that does nothing.
#![tactic(auto)]

ghost use Rattle.std.specs.Prelude.{ℕ, ◌≤◌, List, All, length};
ghost use Rattle.layer_definitions.specs.Order.{put_by};
ghost use Rattle.model_publish.specs.Own.{AreRowsOf, IsOwnRow};
ghost use Rattle.model_states.specs.Publication.{published_from, row_index};
ghost use Rattle.model_states.specs.declared.publication.Publication.{Publication};
ghost use Rattle.record_types.specs.declared.records.PublishRow.{PublishRow};

/// Rows of the models of at most 4 elements, in their order, are at most 8. They stay such rows with one more that is put in its place, and
/// those that a life opens with are such rows, in whatever order they come.
pub fn rows_law()
    ensures few { (unicast elements : ℕ) (rows : List Publication) → elements ≤ 4 → AreRowsOf unicast elements rows
        → length rows ≤ 8 }
    ensures put { (unicast elements : ℕ) (p : Publication) (rows : List Publication) → IsOwnRow unicast elements p.row
        → AreRowsOf unicast elements rows → AreRowsOf unicast elements (put_by row_index p rows) }
    ensures opened { (unicast elements : ℕ) (rows : List PublishRow) → All (IsOwnRow unicast elements) rows
        → AreRowsOf unicast elements (published_from rows).rows }
{}
