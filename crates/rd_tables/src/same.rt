//! Whether two schemas are equal. `true` is proved; `false` may be wrong, for example for schemas
//! with a view.

ghost use Rattle.std.specs.Prelude.{◌≡◌, IsTrue};

use sqlite_schema::code::{Op, Terms};
use sqlite_schema::schema::{Column, Index, Reference, Schema, Stamps, Table};
use sqlite_value::keys::Order;
use sqlite_value::value::{Bytes, Value};

/// A test that is `true` for equal values alone.
trait Same {
    fn same(&self, other: &Self) -> bool
        ensures { IsTrue result → self.now ≡ other.now };
}

/// Whether both lists have the same items in the same order.
fn all_same<T: Same>(items: &[T], others: &[T]) -> bool
    ensures { IsTrue result → items.now ≡ others.now }
{
    if items.len() != others.len() {
        return false;
    }
    for (at, item) in items.iter().enumerate() {
        if !item.same(&others[at]) {
            return false;
        }
    }
    true
}

/// Whether both lists have the same places in the same order.
fn same_places(places: &[usize], others: &[usize]) -> bool
    ensures { IsTrue result → places.now ≡ others.now }
{
    places == others
}

/// Whether both have the same keys in the same order.
fn same_uniques(table: &Table, other: &Table) -> bool
    ensures { IsTrue result → table.now.uniques ≡ other.now.uniques }
{
    let (keys, others) = (table.uniques.as_slice(), other.uniques.as_slice());
    if keys.len() != others.len() {
        return false;
    }
    for (at, key) in keys.iter().enumerate() {
        if !same_places(key.as_slice(), others[at].as_slice()) {
            return false;
        }
    }
    true
}

impl Same for Bytes {
    fn same(&self, other: &Bytes) -> bool {
        self.as_slice() == other.as_slice()
    }
}

impl Same for Order {
    fn same(&self, other: &Order) -> bool {
        self.digits == other.digits
    }
}

/// Compares NULL and integers; other literals are never the same.
impl Same for Value {
    fn same(&self, other: &Value) -> bool {
        match (self, other) {
            (Value::Null, Value::Null) => true,
            (Value::Int(n), Value::Int(m)) => *n == *m,
            _ => false,
        }
    }
}

/// Compares literals, columns and binary operations; other expressions are never the same.
impl Same for Op {
    fn same(&self, other: &Op) -> bool {
        match (self, other) {
            (Op::Literal(value), Op::Literal(other_value)) => value.same(other_value),
            (Op::Column(slot, at), Op::Column(other_slot, other_at)) => {
                *slot == *other_slot && *at == *other_at
            }
            (Op::Binary(op, a, b), Op::Binary(other_op, c, d)) => {
                *op == *other_op && *a == *c && *b == *d
            }
            _ => false,
        }
    }
}

impl Same for Terms {
    fn same(&self, other: &Terms) -> bool {
        all_same(self.nodes.as_slice(), other.nodes.as_slice())
            && same_places(self.roots.as_slice(), other.roots.as_slice())
    }
}

impl Same for Column {
    fn same(&self, other: &Column) -> bool {
        self.name.same(&other.name)
            && self.kind == other.kind
            && self.is_strict == other.is_strict
            && self.not_null == other.not_null
            && self.default.same(&other.default)
            && self.collation == other.collation
    }
}

impl Same for Reference {
    fn same(&self, other: &Reference) -> bool {
        same_places(self.columns.as_slice(), other.columns.as_slice())
            && self.parent.same(&other.parent)
            && all_same(
                self.parent_columns.as_slice(),
                other.parent_columns.as_slice(),
            )
            && self.on_delete == other.on_delete
            && self.on_update == other.on_update
            && self.is_deferred == other.is_deferred
    }
}

impl Same for Stamps {
    fn same(&self, other: &Stamps) -> bool {
        same_places(self.places.as_slice(), other.places.as_slice())
            && self.terms.same(&other.terms)
            && all_same(self.formats.as_slice(), other.formats.as_slice())
    }
}

impl Same for Table {
    fn same(&self, other: &Table) -> bool {
        self.name.same(&other.name)
            && self.tree == other.tree
            && all_same(self.columns.as_slice(), other.columns.as_slice())
            && self.key == other.key
            && same_places(self.primary.as_slice(), other.primary.as_slice())
            && same_uniques(self, other)
            && all_same(self.orders.as_slice(), other.orders.as_slice())
            && self.checks.same(&other.checks)
            && all_same(self.references.as_slice(), other.references.as_slice())
            && same_places(self.computed.as_slice(), other.computed.as_slice())
            && self.stamps.same(&other.stamps)
            && self.is_counted == other.is_counted
    }
}

impl Same for Index {
    fn same(&self, other: &Index) -> bool {
        self.name.same(&other.name)
            && self.tree == other.tree
            && self.table == other.table
            && same_places(self.columns.as_slice(), other.columns.as_slice())
            && self.order.same(&other.order)
            && self.is_unique == other.is_unique
    }
}

/// `true` only if the schemas are equal. `false` says nothing: schemas with a view give it too.
pub fn same_schema(schema: &Schema, other: &Schema) -> bool
    ensures { IsTrue result → schema.now ≡ other.now }
{
    schema.views.is_empty()
        && other.views.is_empty()
        && all_same(schema.tables.as_slice(), other.tables.as_slice())
        && all_same(schema.indexes.as_slice(), other.indexes.as_slice())
}
