// A dossier filled to every bound of document 01: what it holds, in image order, and what is decided at the edges.
#![tactic(auto)]

ghost use Rattle.tables.specs.View.{NodesSound, AttributesSound, PermissionsSound};

use crate::show::line;
use tables::{Attributes, Nodes, Permissions};

mod edges;
mod fill;
mod searches;
mod show;

fn main(rt: HostRuntime) {
    let n = fill::nodes();
    let a = fill::attributes();
    let q = fill::permissions();
    counts(&rt, n, a, q);
    bounds(&rt);
    show::text(&rt, b"3. rows\n");
    show::nodes(&rt, n);
    show::attributes(&rt, a);
    show::permissions(&rt, q);
    searches::lookups(&rt, n, a, q);
    edges::edges(&rt, fill::whole(n, a, q), q);
}

// ---- counts

fn counts(rt: &impl Print, n: Nodes, a: Attributes, q: Permissions)
    requires { NodesSound n × AttributesSound a × PermissionsSound q }
{
    show::text(rt, b"1. counts\n");
    line(rt, b"nodes ", n.count);
    line(rt, b"attributes ", a.count);
    line(rt, b"permissions ", q.count);
    depths(rt, n);
    children(rt, n);
    on_nodes(rt, a);
    branch(rt, n, a, q);
}

fn depths(rt: &impl Print, n: Nodes)
    requires { NodesSound n }
{
    line(rt, b"steps below / ", counts::depth_under(n, fill::top()));
    line(
        rt,
        b"steps below 1 ",
        counts::depth_under(n, fill::place(1)),
    );
}

fn children(rt: &impl Print, n: Nodes)
    requires { NodesSound n }
{
    line(rt, b"children of / ", counts::children_in(n, fill::top()));
    line(
        rt,
        b"children of 1 ",
        counts::children_in(n, fill::place(1)),
    );
    line(
        rt,
        b"children of 2 ",
        counts::children_in(n, fill::place(2)),
    );
    line(
        rt,
        b"children of 3 ",
        counts::children_in(n, fill::place(3)),
    );
}

fn on_nodes(rt: &impl Print, a: Attributes)
    requires { AttributesSound a }
{
    line(rt, b"attributes on / ", lookups::count_on(a, fill::top()));
    line(
        rt,
        b"attributes on 16 ",
        lookups::count_on(a, fill::place(16)),
    );
}

// The branch at 2.
fn branch(rt: &impl Print, n: Nodes, a: Attributes, q: Permissions)
    requires { NodesSound n × AttributesSound a × PermissionsSound q }
{
    let p = fill::place(2);
    line(rt, b"nodes of the branch at 2 ", counts::nodes_under(n, p));
    line(
        rt,
        b"attributes of the branch at 2 ",
        counts::attributes_under(a, p),
    );
    line(
        rt,
        b"permissions of the branch at 2 ",
        counts::permissions_under(q, p),
    );
    line(rt, b"steps of the branch at 2 ", counts::depth_under(n, p));
}

// ---- bounds

fn bounds(rt: &impl Print) {
    show::text(rt, b"2. bounds\n");
    show::bound(rt, 64, b" nodes: ", counts::nodes_over(64));
    show::bound(rt, 65, b" nodes: ", counts::nodes_over(65));
    show::bound(rt, 6, b" steps: ", counts::depth_over(6));
    show::bound(rt, 7, b" steps: ", counts::depth_over(7));
    show::bound(rt, 32, b" children: ", counts::children_over(32));
    show::bound(rt, 33, b" children: ", counts::children_over(33));
    more_bounds(rt);
}

fn more_bounds(rt: &impl Print) {
    show::bound(rt, 256, b" attributes: ", counts::attributes_over(256));
    show::bound(rt, 257, b" attributes: ", counts::attributes_over(257));
    show::bound(rt, 16, b" attributes on a node: ", counts::on_node_over(16));
    show::bound(rt, 17, b" attributes on a node: ", counts::on_node_over(17));
    show::bound(rt, 128, b" permissions: ", counts::permissions_over(128));
    show::bound(rt, 129, b" permissions: ", counts::permissions_over(129));
}
