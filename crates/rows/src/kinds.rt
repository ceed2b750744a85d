// What all rows of tables have in common, and the three kinds of rows.
ghost use Rattle.std.specs.Prelude.{◌≡◌, Bool, ℕ, ltb};
ghost use Rattle.path.specs.Address.{Address};
ghost use Rattle.path.specs.View.{path_of};
ghost use Rattle.model.specs.Things as things;
ghost use Rattle.tables.specs.View.{node_of, view_node, blank_node, attribute_of, view_attribute, blank_attribute, permission_of, view_permission, blank_permission, Apart};
ghost use Rattle.rows.specs.Tables.{row_lt, RowSound, RowLaws, Differ, lt_named};
ghost use Rattle.rows.specs.Laws.{node_laws, attribute_laws, permission_laws};

use path::Path;
use tables::order::{attribute_before, node_before, permission_before};
use tables::{Attribute, Node, Permission, blank_attribute, blank_node, blank_permission};

// A row of a table: what stands at a path.
pub trait Row: Copy {
    ghost Payload: { Type 0 };

    // the row that stands for the model's, and what a row is seen as
    ghost of: { things.Row Payload → Self };

    ghost view: { Self → things.Row Payload };

    // behind the rows of a table
    ghost blank: { Self };

    // the order of rows at one path, and which rows it is asked of
    ghost lt: { Payload → Payload → Bool };

    ghost apart: { things.Row Payload → things.Row Payload → Type 0 };

    fn unused() -> Self
        ensures { result ≡ blank };

    fn path(self) -> Path
        ensures { (r : things.Row Payload) → self ≡ of r → result ≡ path_of r.0 };

    // The same at another path: all but its place stays.
    fn placed(self, p: Path) -> Self
        requires { RowSound of self }
        ensures { (l : Address) → p ≡ path_of l → result ≡ of (l, (view self).1) };

    // Whether it comes before another in the order of records.
    fn is_before(self, other: Self) -> bool
        requires { RowSound of self × RowSound of other × apart (view self) (view other) }
        ensures { result ≡ row_lt lt (view self) (view other) };

    ghost laws: { RowLaws of view lt apart };
}

impl Row for Node {
    ghost Payload = { ℕ };

    ghost of = { node_of };

    ghost view = { view_node };

    ghost blank = { blank_node };

    ghost lt = { ltb };

    ghost apart = { Differ };

    ghost laws = { node_laws };

    fn unused() -> Node {
        blank_node()
    }

    fn path(self) -> Path {
        self.path
    }

    fn placed(self, p: Path) -> Node {
        Node { path: p, ..self }
    }

    fn is_before(self, other: Node) -> bool {
        node_before(self, other)
    }
}

impl Row for Attribute {
    ghost Payload = { things.Attribute };

    ghost of = { attribute_of };

    ghost view = { view_attribute };

    ghost blank = { blank_attribute };

    ghost lt = { things.lt_attribute };

    ghost apart = { Apart };

    ghost laws = { attribute_laws };

    fn unused() -> Attribute {
        blank_attribute()
    }

    fn path(self) -> Path {
        self.path
    }

    fn placed(self, p: Path) -> Attribute {
        Attribute { path: p, ..self }
    }

    fn is_before(self, other: Attribute) -> bool {
        attribute_before(self, other)
    }
}

impl Row for Permission {
    ghost Payload = { ℕ × things.Permission };

    ghost of = { permission_of };

    ghost view = { view_permission };

    ghost blank = { blank_permission };

    ghost lt = { lt_named };

    ghost apart = { Differ };

    ghost laws = { permission_laws };

    fn unused() -> Permission {
        blank_permission()
    }

    fn path(self) -> Path {
        self.path
    }

    fn placed(self, p: Path) -> Permission {
        Permission { path: p, ..self }
    }

    fn is_before(self, other: Permission) -> bool {
        permission_before(self, other)
    }
}
