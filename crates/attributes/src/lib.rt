// The table of attributes: how it changes.
#![tactic(auto)]

ghost use Rattle.std.specs.Prelude.{◌≡◌, ◌&&◌, [], ◌∷◌, ◌+◌, ◌-◌, ◌≤◌, ◌<◌, eqb, length, get_or};
ghost use Rattle.std.proofs.Math.Option.{none};
ghost use Rattle.laws.specs.Sorted.{insert, merge, move};
ghost use Rattle.path.specs.Address.{same, down, off};
ghost use Rattle.path.specs.View.{steps, PathSound};
ghost use Rattle.model.specs.Things as things;
ghost use Rattle.model.specs.Moves as model;
ghost use Rattle.tables.specs.View.{view_attribute, attribute_of, attributes_of, no_attribute, AttributesSound, view_attributes, view_value, AttributeSound};
ghost use Rattle.rows.specs.Tables.{given};
ghost use Rattle.moves.specs.Moved.{below, raised};
ghost use Rattle.moves.specs.Room.{FreshAttribute, OneAttribute, Shallow};

use path::{Path, is_same, root};
use tables::{Attribute, Attributes, Value, no_attributes};

// After an add or a paste at q: at or below q, or a later sibling of it, that step is one higher; the others stay.
#[tactic(auto, unfolding(tables::specs::View::attributes_of))]
pub fn up(t: Attributes, q: Path) -> Attributes
    requires { AttributesSound t × PathSound q }
    ensures { result ≡ attributes_of (raised (steps q) (view_attributes t)) }
{
    rows::up(&t, q)
}

// After a delete at q: attributes at or below q go; at or below a later sibling that step is one lower.
#[tactic(auto, unfolding(tables::specs::View::attributes_of))]
pub fn down(t: Attributes, q: Path) -> Attributes
    requires { AttributesSound t × PathSound q }
    ensures { result ≡ attributes_of (model.carried (down (steps q)) (view_attributes t)) }
{
    rows::down(&t, q)
}

// Those of the branch at q, prefix removed.
#[tactic(auto, unfolding(tables::specs::View::attributes_of))]
pub fn off(t: Attributes, q: Path) -> Attributes
    requires { AttributesSound t × PathSound q }
    ensures { result ≡ attributes_of (model.carried (off (steps q)) (view_attributes t)) }
{
    rows::off(&t, q)
}

// Those of the branch c pasted at q, which is not the root: what stood there has moved as for an add.
#[tactic(auto, unfolding(tables::specs::View::attributes_of))]
pub fn paste(c: Attributes, t: Attributes, q: Path) -> Attributes
    requires attributes_sound { AttributesSound c × AttributesSound t × PathSound q × (0 < length (steps q)) }
    requires count_bound { (c.count + t.count ≤ 256) × Shallow (steps q) (view_attributes c) }
    ensures { result ≡ attributes_of (merge things.before_attribute (below (steps q) (view_attributes c)) (raised (steps q) (view_attributes t))) }
{
    rows::paste(&c, &t, q)
}

// One attribute more, where it comes in the order of records; its name is not on the node yet.
#[tactic(auto, unfolding(tables::specs::View::attributes_of))]
pub fn insert(a: Attribute, t: Attributes) -> Attributes
    requires { AttributeSound a × AttributesSound t × (t.count < 256) × FreshAttribute (view_attribute a) (view_attributes t) }
    ensures { result ≡ attributes_of (insert things.before_attribute (view_attribute a) (view_attributes t)) }
{
    rows::insert(a, t)
}

// Whether it is the attribute of that name at p.
fn is_at(a: Attribute, p: Path, name: u16) -> bool
    requires { AttributeSound a × PathSound p }
    ensures { result ≡ (same (steps a.path) (steps p) && eqb a.name name) }
{
    is_same(a.path, p) & (a.name == name)
}

// All but the attribute of that name at p.
#[tactic(auto, unfolding(tables::specs::View::attributes_of))]
pub fn without(t: Attributes, p: Path, name: u16) -> Attributes
    requires { AttributesSound t × PathSound p }
    ensures { result ≡ attributes_of (move (model.keep (model.other_attribute (steps p) name)) (view_attributes t)) }
{
    rows::moved(
        &t,
        |row: Attribute| -> Option<Attribute>
            requires { AttributeSound row × PathSound p }
            ensures { result ≡ given attribute_of (model.keep (model.other_attribute (steps p) name) (view_attribute row)) }
        { if is_at(row, p, name) { None } else { Some(row) } },
    )
}

// The attribute with another value: changing a value keeps the owner.
fn revalued(a: Attribute, v: Value) -> Attribute
    ensures { result ≡ record { path = a.path; name = a.name; owner = a.owner; value = v } }
{
    Attribute { value: v, ..a }
}

// The attribute of that name at p with another value.
pub fn changed(t: Attributes, p: Path, name: u16, v: Value) -> Attributes
    requires { AttributesSound t × PathSound p × OneAttribute (view_attributes t) }
    ensures { result ≡ attributes_of (model.changed_in (steps p) name (view_value v) (view_attributes t)) }
{
    let mut out = t;
    for i in 0..t.count {
        let a = out.rows[i];
        if is_at(a, p, name) {
            out.rows[i] = revalued(a, v);
            return out;
        }
    }
    out
}

// A table of this attribute alone, with the empty path, as the clipboard holds it.
pub fn one(a: Attribute) -> Attributes
    ensures { result ≡ attributes_of (([], (view_attribute a).1) ∷ []) }
{
    let top = Attribute { path: root(), ..a };
    insert(top, no_attributes())
}

// The cached attribute, the first row of c, under another name at p, with its value and owner: pasting makes nobody an owner.
fn renamed(c: Attributes, p: Path, name: u16) -> Attribute
    ensures { result ≡ record { path = p; name = name; owner = (get_or c.rows 0 no_attribute).owner; value = (get_or c.rows 0 no_attribute).value } }
{
    let first = c.rows[0];
    Attribute {
        path: p,
        name,
        ..first
    }
}

// The cached attribute, the first row of c, pasted under that name at p; the name is not on the node yet.
pub fn paste_one(c: Attributes, t: Attributes, p: Path, name: u16) -> Attributes
    requires { AttributesSound t × PathSound p × (t.count < 256) × (model.attribute_in (steps p) name (view_attributes t) ≡ none) }
    ensures { result ≡ attributes_of (insert things.before_attribute (steps p, record { name = name; owner = (get_or c.rows 0 no_attribute).owner; value = view_value (get_or c.rows 0 no_attribute).value }) (view_attributes t)) }
{
    insert(renamed(c, p, name), t)
}
