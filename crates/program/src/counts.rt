// How many targets each node says. Counts stop at 2^64 - 1, more than any room holds.
ghost use Rattle.std.specs.Prelude.{◌≡◌, ◌-◌, ◌≤◌, ◌^◌, min, true, slice_index};
ghost use Rattle.program.specs.Answers.{names_below};
ghost use Rattle.program.specs.Nodes.{nodes as node_count};
ghost use Rattle.program.specs.Sound.{counted, CountsOr};

use super::node::Node;
use refusal::Refusal;

pub const MOST_NODES: usize = 1024;

fn count(node: Node, counts: &[u64; MOST_NODES]) -> u64
    requires { names_below 1024 node ≡ true }
    ensures { result ≡ min (counted (λ k. slice_index counts.now k) node) (2 ^ 64 - 1) }
{
    match node {
        Node::Nothing => 0,
        Node::To(_, _) | Node::By(_, _) => 1,
        Node::Next(a, b) => counts[a].saturating_add(counts[b]),
        Node::Times(n, a) => n.saturating_mul(counts[a]),
        Node::At(_, a) | Node::Turn(a) | Node::Mirror(a) | Node::Sub(a) => counts[a],
    }
}

// All counts, in one pass over the nodes. The first node that has no kind, or names itself or a later one, is refused.
pub fn count_all(nodes: &[i64]) -> Result<[u64; MOST_NODES], Refusal>
    requires { node_count nodes.now ≤ 1024 }
    ensures { CountsOr nodes.now result }
{
    let mut counts = [0; MOST_NODES];
    for (n, numbers) in nodes.as_chunks::<4>().0.iter().enumerate() {
        match Node::of(numbers) {
            Some(node) if node.names_below(n) => counts[n] = count(node, &counts),
            _ => return Err(Refusal::Node(n as u64)),
        }
    }
    Ok(counts)
}
