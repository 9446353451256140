//! The numbers of groups, in their rows.
ghost use Rattle.std.specs.Prelude.{◌≡◌, ◌≤◌, length, take};
ghost use Rattle.fancy_c.specs.Buffer.{put_at};
ghost use Rattle.fancy_c.specs.Numbered as spec;

use crate::node::{NODE_GROUP, Node};

/// Gives each group its number: the k-th group of this many rows gets the number k.
pub(crate) fn number_groups(nodes: &mut [Node], count: usize)
    requires { count ≤ length nodes.old }
    ensures { nodes.new ≡ put_at nodes.old 0 (spec.numbered 0 (take count nodes.old)) }
{
    let mut groups = 0;
    for i in 0..count {
        if nodes[i].kind == NODE_GROUP {
            groups += 1;
            nodes[i].group = groups;
        }
    }
}
