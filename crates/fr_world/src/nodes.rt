//! What the integrator's command that gives a supplier a node decides, by the supplier's nodes.
ghost use Rattle.std.specs.Prelude.{◌≡◌};
ghost use Rattle.std.specs.List.{list_any};
ghost use Rattle.fr_base.specs.Names.{same_text};
ghost use Rattle.fr_world.specs.Nodes.{new_node};

use crate::edit::Edit;
use fr_base::{MAX_NODES, Name, Refusal};

/// The edit that gives the supplier, who has these nodes, another node, or the first refusal:
/// `Exists`, `Limit`. It takes no memory.
#[tactic(auto, unfolding(crate::proofs::CommonLaws::common_open))]
pub fn decide_node(supplier: Name, nodes: &[Name], node: Name) -> Result<Edit, Refusal>
    ensures { result ≡ new_node supplier nodes.now node }
{
    if has_name(nodes, node) {
        return Err(Refusal::Exists);
    }
    if nodes.len() >= MAX_NODES {
        return Err(Refusal::Limit);
    }
    Ok(Edit::NewNode { supplier, node })
}

// Whether the name is one of these names.
fn has_name(names: &[Name], name: Name) -> bool
    ensures { result ≡ list_any (λ other. same_text other name) names.now }
{
    names.iter().any(|other| *other == name)
}
